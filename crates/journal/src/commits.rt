ghost use Rattle.std.specs.Prelude.{◌≡◌, ◌≤◌, ◌<◌, ◌+◌, ◌∷◌, ℕ, List, Option, Some, length, OnOk, OnErr};
ghost use Rattle.cal_base.specs.Limits as limits;
ghost use Rattle.shared_disk.specs.Map.{at_header, first_content};
ghost use Rattle.fence.specs.Writes.{Runs, IsCut};
ghost use Rattle.fence.specs.Endings.{EndsAs};
ghost use Rattle.shared_disk.specs.Disk.{KeepsCount, after};
ghost use Rattle.shared_disk.specs.Homes.{IsTransaction};
ghost use Rattle.shared_disk.specs.Sectors.{left_of, cut};
ghost use Rattle.journal.specs.Layout.{header_of, contents_at};
ghost use Rattle.journal.specs.Opened.{TellsOpening};
ghost use Rattle.journal.specs.Commit.{commit_length, commit_writes, IsClosed, IsBeforeOrAfter, IsCommitted, replayed, before_or_after};

use crate::gate::write_gate;
use crate::header::header_with;
use crate::write_one::write_one;
use cal_base::Sector;
use fence::{Port, PortHalt};
use shared_disk::{AT_HEADER, FIRST_CONTENT, PortDisk, Txn};

/// Commits a transaction, for whose `2k + 3` writes there is room: the header, the contents, the open
/// gate, the homes and the closed gate. It takes no memory. After a halt a replay leaves the volume
/// with all homes exactly where a write of the call opened the gate, and else as it was. A port that
/// keeps all its writes tells which, unless the opening write itself failed.
pub fn commit<D: PortDisk>(port: &mut Port, disk: &mut D, txn: &Txn) -> Result<(), PortHalt>
    requires { commit_length (length txn.now) ≤ (D.means disk.old).room }
    ensures runs { Runs port.old (D.means disk.old) (D.fault_count disk.old) (commit_writes txn.now) result port.new (D.means disk.new) (D.fault_count disk.new) }
    ensures ok { OnOk result (D.means disk.new ≡ after (D.means disk.old) (commit_writes txn.now)) }
    ensures halted { OnErr result (IsCut (D.means disk.old) (commit_writes txn.now) (D.means disk.new)) }
    ensures replays { (sectors : List (List ℕ)) → (D.means disk.old).sectors ≡ Some sectors → length sectors ≡ limits.sectors → IsClosed sectors
        → IsBeforeOrAfter sectors txn.now (D.means disk.old) (D.means disk.new) }
    ensures committed { (sectors : List (List ℕ)) → (D.means disk.old).sectors ≡ Some sectors → length sectors ≡ limits.sectors → IsClosed sectors
        → OnOk result (IsCommitted sectors txn.now (D.means disk.new)) }
    ensures ends { EndsAs port.old (D.means disk.old) (commit_writes txn.now) result port.new (D.means disk.new) }
    ensures opening { (sectors : List (List ℕ)) → (D.means disk.old).sectors ≡ Some sectors → length sectors ≡ limits.sectors → IsClosed sectors
        → commit_length (length txn.now) ≤ port.old.kept.space
        → TellsOpening sectors txn.now (length port.old.kept.writes) result port.new.kept.writes (D.means disk.new) }
    ensures count { KeepsCount (D.means disk.old) (D.means disk.new) }
{
    write_homes(port, disk, txn.homes())
}

/// The writes of a commit of these homes.
fn write_homes<D: PortDisk>(
    port: &mut Port,
    disk: &mut D,
    homes: &[(u32, Sector)],
) -> Result<(), PortHalt>
    requires allowed { IsTransaction homes.now }
    requires room { commit_length (length homes.now) ≤ (D.means disk.old).room }
    ensures allowed { IsTransaction homes.now }
    ensures runs { Runs port.old (D.means disk.old) (D.fault_count disk.old) (commit_writes homes.now) result port.new (D.means disk.new) (D.fault_count disk.new) }
{
    write_body(port, disk, homes)?;
    write_gate(port, disk, 1)?;
    port.write_all(disk, homes)?;
    write_gate(port, disk, 0)
}

/// Writes the header and the contents.
fn write_body<D: PortDisk>(
    port: &mut Port,
    disk: &mut D,
    homes: &[(u32, Sector)],
) -> Result<(), PortHalt>
    requires few { length homes.now ≤ limits.transaction_homes }
    requires room { length homes.now + 1 ≤ (D.means disk.old).room }
    ensures { Runs port.old (D.means disk.old) (D.fault_count disk.old) ((at_header, header_of homes.now) ∷ contents_at first_content homes.now) result port.new (D.means disk.new) (D.fault_count disk.new) }
{
    let header = header_with(homes);
    write_one(port, disk, AT_HEADER, &header)?;
    write_contents(port, disk, homes)
}

/// Writes the contents, one sector after the other.
fn write_contents<D: PortDisk>(
    port: &mut Port,
    disk: &mut D,
    homes: &[(u32, Sector)],
) -> Result<(), PortHalt>
    requires few { length homes.now ≤ limits.transaction_homes }
    requires room { length homes.now ≤ (D.means disk.old).room }
    ensures { Runs port.old (D.means disk.old) (D.fault_count disk.old) (contents_at first_content homes.now) result port.new (D.means disk.new) (D.fault_count disk.new) }
{
    for i in 0..homes.len() {
        write_one(port, disk, FIRST_CONTENT + i as u32, &homes[i].1)?;
    }
    Ok(())
}

/// Wherever the writes of a commit are cut, and whatever bytes a torn one leaves, a replay leaves the
/// volume with all homes where one of them opened the gate, and else as it was.
pub fn commit_is_atomic()
    ensures { (sectors : List (List ℕ)) (homes : List (ℕ × List ℕ)) (k : ℕ) (torn : Option (List ℕ))
        → length sectors ≡ limits.sectors → IsClosed sectors → IsTransaction homes
        → replayed (cut sectors (commit_writes homes) k torn) ≡ Some (before_or_after sectors homes (left_of (commit_writes homes) k torn)) }
{}
