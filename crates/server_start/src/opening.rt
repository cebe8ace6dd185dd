ghost use Rattle.std.specs.Prelude.{◌≡◌, ◌≤◌, ◌+◌, ◌-◌, [], length, IfOk, OnOk, vec_capacity, vec_len};
ghost use Rattle.cal_base.specs.Limits as limits;
ghost use Rattle.cluster_law.specs.Noted.{DiskAt};
ghost use Rattle.journal.specs.Replay.{replay_length};
ghost use Rattle.shared_disk.specs.declared.stop.Stop.{Stop};
ghost use Rattle.std.specs.Prelude.{Option};
ghost use Rattle.server_start.specs.Disks.{IsAt, StandsSo};
ghost use Rattle.server_start.specs.Opening.{IsReady, OpenEnds, ReadEnds};

use crate::halting::{of_mount, of_refusal, of_replay};
use cal_base::{Items, TRANSACTION_HOMES, View};
use cluster_law::{Halt, SectorWrite, ServerHalted};
use fence::Port;
use image::{Image, mount};
use journal::replay;
use shared_disk::{PortDisk, Stop};
use std::alloc::Global;

/// How many writes a replay makes, at most: the homes of a transaction, and the gate.
pub(crate) const REPLAY_LENGTH: usize = TRANSACTION_HOMES + 1;

/// What a boot has once it took the fence and the disk is replayed: the port, and the writes of the replay.
#[derive(Drop)]
pub(crate) struct Opened {
    pub(crate) port: Port,
    pub(crate) writes: Items<SectorWrite>,
}

/// Takes the fence, replays the journal, up to the stop if there is one, and mounts the volume. The writes go into
/// the list, which has room for them. It takes no memory.
pub(crate) fn open_volume<D: PortDisk>(
    alloc: Global,
    image: &mut Image,
    list: Vec<SectorWrite>,
    disk: &mut D,
    view: View,
    stop: Option<Stop>,
) -> Result<Opened, ServerHalted>
    requires room { replay_length ≤ (D.means disk.old).room }
    requires empty { list.items ≡ [] }
    requires space { replay_length ≤ vec_capacity list - vec_len list }
    ensures port { IfOk result (λ opened. opened.port.view ≡ view.0) }
    ensures ends { (before : DiskAt) → IsAt (D.means disk.old) (D.fault_count disk.old) before → length before.sectors ≡ limits.sectors
        → StandsSo (D.means disk.new) (D.fault_count disk.new) (OpenEnds view.0 stop before result image.new) }
{
    let mut port = match Port::take(disk, view) {
        Ok(port) => port,
        Err(refusal) => {
            return Err(ServerHalted {
                writes: Items::new(alloc),
                entries: Items::new(alloc),
                halt: of_refusal(refusal, disk.faults()),
            });
        }
    };
    port.arm(stop);
    port.keep(list);
    let read = read_volume(image, &mut port, disk);
    let writes = take_kept(alloc, &mut port);
    match read {
        Ok(()) => Ok(Opened { port, writes }),
        Err(halt) => Err(ServerHalted {
            writes,
            entries: Items::new(alloc),
            halt,
        }),
    }
}

/// The writes that a port kept.
fn take_kept(alloc: Global, port: &mut Port) -> Items<SectorWrite>
    ensures writes { result ≡ port.old.kept.writes }
    ensures view { port.new.view ≡ port.old.view }
{
    match port.hand_out() {
        Some(list) => Items::from_vec(list),
        None => Items::new(alloc),
    }
}

/// Replays the journal, and reads the volume. The key is that of the port.
fn read_volume<D: PortDisk>(image: &mut Image, port: &mut Port, disk: &mut D) -> Result<(), Halt>
    requires room { replay_length ≤ (D.means disk.old).room }
    ensures view { OnOk result (port.new.view ≡ port.old.view) }
    ensures ends { (stop : Option Stop) (before : DiskAt) → IsAt (D.means disk.old) (D.fault_count disk.old) before → length before.sectors ≡ limits.sectors → before.key ≡ port.old.view → IsReady stop port.old
        → StandsSo (D.means disk.new) (D.fault_count disk.new) (ReadEnds port.old.view stop before result port.new.kept.writes image.new) }
{
    match replay(port, disk) {
        Ok(()) => {}
        Err(halt) => return Err(of_replay(halt, disk.faults())),
    }
    match mount(image, port, disk) {
        Ok(()) => Ok(()),
        Err(halt) => Err(of_mount(halt, disk.faults())),
    }
}
