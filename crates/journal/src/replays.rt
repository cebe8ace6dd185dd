ghost use Rattle.std.specs.Prelude.{◌≡◌, ◌≤◌, ◌<◌, ℕ, List, length, Option, Some, IfOk, IfErr, OnErr, true};
ghost use Rattle.cal_base.specs.Limits as limits;
ghost use Rattle.shared_disk.specs.Map.{at_gate};
ghost use Rattle.cal_base.specs.Faults.{Rose};
ghost use Rattle.shared_disk.specs.Disk.{KeepsCount};
ghost use Rattle.shared_disk.specs.Sectors.{cut};
ghost use Rattle.journal.specs.Commit.{replayed};
ghost use Rattle.journal.specs.Layout.{opens, sector};
ghost use Rattle.journal.specs.Replay.{replay_length, replay_writes};
ghost use Rattle.journal.specs.Replays.{KeepsVolume, Replays};

use crate::gate::is_open;
use crate::header::is_good;
use crate::replay_halt::ReplayHalt;
use crate::write_back::write_back;
use cal_base::BLOCK_SIZE;
use fence::Port;
use shared_disk::{AT_GATE, AT_HEADER, PortDisk};

/// Replays the journal, for whose 17 writes there is room: where the gate is open it writes the homes
/// of the transaction that the body spells and closes the gate. It takes no memory. `Damaged` comes
/// only where the header of an open gate, as it was read, is outside its grammar. The volume as a
/// replay leaves it stays the same, after a halt too.
pub fn replay<D: PortDisk>(port: &mut Port, disk: &mut D) -> Result<(), ReplayHalt>
    requires { replay_length ≤ (D.means disk.old).room }
    ensures replays { Replays port.old (D.means disk.old) (D.fault_count disk.old) result port.new (D.means disk.new) (D.fault_count disk.new) }
    ensures keeps { (sectors volume : List (List ℕ)) → (D.means disk.old).sectors ≡ Some sectors → length sectors ≡ limits.sectors → replayed sectors ≡ Some volume
        → KeepsVolume volume result (D.means disk.new) }
    ensures count { KeepsCount (D.means disk.old) (D.means disk.new) }
{
    replay_journal(port, disk)
}

/// Wherever the writes of a replay are cut, and whatever bytes a torn one leaves, a replay leaves the
/// volume as it would have before.
pub fn replay_is_stable()
    ensures { (sectors volume : List (List ℕ)) (k : ℕ) (torn : Option (List ℕ)) → length sectors ≡ limits.sectors → replayed sectors ≡ Some volume
        → replayed (cut sectors (replay_writes sectors) k torn) ≡ Some volume }
{}

/// Replays the journal.
fn replay_journal<D: PortDisk>(port: &mut Port, disk: &mut D) -> Result<(), ReplayHalt>
    requires { replay_length ≤ (D.means disk.old).room }
    ensures { Replays port.old (D.means disk.old) (D.fault_count disk.old) result port.new (D.means disk.new) (D.fault_count disk.new) }
{
    let mut gate = [0; BLOCK_SIZE];
    port.read(disk, AT_GATE, &mut gate)?;
    if !is_open(&gate) {
        return Ok(());
    }
    replay_open(port, disk)
}

/// Replays the journal where the gate is open.
fn replay_open<D: PortDisk>(port: &mut Port, disk: &mut D) -> Result<(), ReplayHalt>
    requires room { replay_length ≤ (D.means disk.old).room }
    requires open { (sectors : List (List ℕ)) → (D.means disk.old).sectors ≡ Some sectors → opens (sector sectors at_gate) ≡ true }
    ensures { Replays port.old (D.means disk.old) (D.fault_count disk.old) result port.new (D.means disk.new) (D.fault_count disk.new) }
{
    let mut header = [0; BLOCK_SIZE];
    port.read(disk, AT_HEADER, &mut header)?;
    if !is_good(&header) {
        return Err(ReplayHalt::Damaged { sector: AT_HEADER });
    }
    write_back(port, disk, &header)?;
    Ok(())
}
