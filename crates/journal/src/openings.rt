ghost use Rattle.std.specs.Prelude.{◌≡◌, ◌<◌, ◌+◌, ◌^◌, ℕ, List, Option, length};
ghost use Rattle.shared_disk.specs.Sectors.{left_of};
ghost use Rattle.journal.specs.Commit.{commit_length, commit_writes, opened};
ghost use Rattle.journal.specs.Opened.{opened_at, opening_place};

use crate::gate::is_open;
use cal_base::Sector;
use shared_disk::AT_GATE;

/// Whether the kept writes of a port show that a commit of so many homes was opened, before which so
/// many writes were kept: the write at the place of its opening is there, and opens the gate. Other
/// writes of the gate don't count, since a closing one that is torn may leave an open gate too.
pub fn is_commit_opened(kept: &[(u32, Sector)], before: usize, homes: usize) -> bool
    requires { before + opening_place homes < 2 ^ 64 }
    ensures { result ≡ opened_at kept.now (before + opening_place homes) }
{
    is_opened_at(kept, before + homes + 1)
}

/// Whether the write at this place is there, and opens the gate.
fn is_opened_at(kept: &[(u32, Sector)], place: usize) -> bool
    ensures { result ≡ opened_at kept.now place }
{
    if place >= kept.len() {
        return false;
    }
    kept[place].0 == AT_GATE && is_open(&kept[place].1)
}

/// How many writes a commit of so many homes makes: header, contents, open gate, homes, closed gate.
pub fn commit_length(homes: usize) -> usize
    requires { homes < 2 ^ 32 }
    ensures { result ≡ commit_length homes }
{
    2 * homes + 3
}

/// A commit of some homes is so many writes. Wherever they are cut, and whatever bytes a torn one
/// leaves, one of them opened the gate exactly where the one at the opening's place is there and did.
pub fn an_opening_stands_at_its_place()
    ensures length { (homes : List (ℕ × List ℕ)) → length (commit_writes homes) ≡ commit_length (length homes) }
    ensures place { (homes : List (ℕ × List ℕ)) (k : ℕ) (torn : Option (List ℕ))
        → opened (left_of (commit_writes homes) k torn) ≡ opened_at (left_of (commit_writes homes) k torn) (opening_place (length homes)) }
{}
