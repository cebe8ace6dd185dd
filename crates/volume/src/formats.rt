ghost use Rattle.std.specs.Prelude.{◌≡◌, ◌≤◌, [], ℕ, List, Some, length, OnOk};
ghost use Rattle.cal_base.specs.Limits as limits;
ghost use Rattle.fence.specs.Writes.{Runs};
ghost use Rattle.journal.specs.Commit.{IsClosed};
ghost use Rattle.shared_disk.specs.Disk.{KeepsCount};
ghost use Rattle.shared_disk.specs.Sectors.{written};
ghost use Rattle.volume.specs.Format.{TellsFormatted, format_length, format_writes};
ghost use Rattle.volume.specs.Stands.{Stands, TellsStanding};

use crate::writes::write_volume;
use fence::{Port, PortHalt};
use shared_disk::PortDisk;

/// Writes a volume for so many clients, 1 to 16, on which nothing has happened yet: the closed gate, the
/// map, 16 slots, 512 inodes and last the head. There is room for these 531 writes. It takes no memory.
/// After `Ok` the disk's sectors stand for the empty history, and the gate is closed.
pub fn format<D: PortDisk>(port: &mut Port, disk: &mut D, clients: u8) -> Result<(), PortHalt>
    requires some { 1 ≤ clients }
    requires few { clients ≤ limits.clients }
    requires room { format_length ≤ (D.means disk.old).room }
    ensures runs { Runs port.old (D.means disk.old) (D.fault_count disk.old) (format_writes clients) result port.new (D.means disk.new) (D.fault_count disk.new) }
    ensures stands { (sectors : List (List ℕ)) → (D.means disk.old).sectors ≡ Some sectors → length sectors ≡ limits.sectors
        → OnOk result (TellsStanding (D.means disk.new) []) }
    ensures closed { (sectors : List (List ℕ)) → (D.means disk.old).sectors ≡ Some sectors → length sectors ≡ limits.sectors
        → OnOk result (TellsFormatted sectors clients (D.means disk.new)) }
    ensures count { KeepsCount (D.means disk.old) (D.means disk.new) }
{
    write_volume(port, disk, clients)
}

/// The sectors that a format leaves stand for the empty history, and their gate is closed.
pub fn a_format_stands_for_no_history()
    ensures closed { (sectors : List (List ℕ)) (clients : ℕ) → length sectors ≡ limits.sectors → IsClosed (written sectors (format_writes clients)) }
    ensures stands { (sectors : List (List ℕ)) (clients : ℕ) → length sectors ≡ limits.sectors → 1 ≤ clients → clients ≤ limits.clients
        → Stands (written sectors (format_writes clients)) [] }
{}

/// A format is 531 writes.
pub fn a_format_is_531_writes()
    ensures { (clients : ℕ) → length (format_writes clients) ≡ format_length }
{}
