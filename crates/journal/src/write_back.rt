ghost use Rattle.std.specs.Prelude.{◌≡◌, ◌≤◌, ◌<◌, ◌++◌, ◌∷◌, [], slice_index, true};
ghost use Rattle.cal_base.specs.Limits as limits;
ghost use Rattle.shared_disk.specs.Map.{at_gate};
ghost use Rattle.journal.specs.Layout.{body, closed_gate, homes_in, is_header, sector, with_contents};
ghost use Rattle.journal.specs.Replay.{Attempts, replay_length};

use crate::gate::write_gate;
use crate::header::home_at;
use crate::write_one::write_one;
use cal_base::{BLOCK_SIZE, Sector};
use fence::{Port, PortHalt};
use shared_disk::{FIRST_CONTENT, PortDisk};

/// Writes the homes that a header names, each with its content, and closes the gate.
pub fn write_back<D: PortDisk>(
    port: &mut Port,
    disk: &mut D,
    header: &Sector,
) -> Result<(), PortHalt>
    requires good { is_header header.now ≡ true }
    requires own { (D.means disk.old).key ≡ port.old.view }
    requires room { replay_length ≤ (D.means disk.old).room }
    ensures { Attempts (λ sectors. with_contents (homes_in header.now) (body sectors) ++ (at_gate, closed_gate) ∷ []) replay_length port.old (D.means disk.old) (D.fault_count disk.old) result port.new (D.means disk.new) (D.fault_count disk.new) }
{
    let count = header[0] as usize;
    copy_all(port, disk, header, count)?;
    write_gate(port, disk, 0)
}

/// Writes so many homes that a header names, each with its content.
fn copy_all<D: PortDisk>(
    port: &mut Port,
    disk: &mut D,
    header: &Sector,
    count: usize,
) -> Result<(), PortHalt>
    requires good { is_header header.now ≡ true }
    requires count { count ≡ slice_index header.now 0 }
    requires own { (D.means disk.old).key ≡ port.old.view }
    requires room { limits.transaction_homes ≤ (D.means disk.old).room }
    ensures { Attempts (λ sectors. with_contents (homes_in header.now) (body sectors)) limits.transaction_homes port.old (D.means disk.old) (D.fault_count disk.old) result port.new (D.means disk.new) (D.fault_count disk.new) }
{
    for i in 0..count {
        let home = home_at(header, i);
        copy(port, disk, FIRST_CONTENT + i as u32, home)?;
    }
    Ok(())
}

/// Reads a content and writes it to its home.
fn copy<D: PortDisk>(port: &mut Port, disk: &mut D, from: u32, home: u32) -> Result<(), PortHalt>
    requires from { from < limits.sectors }
    requires home { home < limits.sectors }
    requires own { (D.means disk.old).key ≡ port.old.view }
    requires room { 0 < (D.means disk.old).room }
    ensures { Attempts (λ sectors. (home, sector sectors from) ∷ []) 1 port.old (D.means disk.old) (D.fault_count disk.old) result port.new (D.means disk.new) (D.fault_count disk.new) }
{
    let mut content = [0; BLOCK_SIZE];
    port.read(disk, from, &mut content)?;
    write_one(port, disk, home, &content)
}
