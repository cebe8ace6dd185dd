ghost use Rattle.std.specs.Prelude.{◌≡◌, ℕ, List, Option, length};
ghost use Rattle.shared_disk.specs.Disk.{Disk, KeepsCount, after};
ghost use Rattle.shared_disk.specs.Sectors.{cut, written};

/// Writes change what sectors hold, and never how many there are: made whole, cut at any place with any
/// bytes in the sector of the next one, or as changes of a disk.
pub fn writes_keep_the_count()
    ensures whole { (sectors : List (List ℕ)) (writes : List (ℕ × List ℕ)) → length (written sectors writes) ≡ length sectors }
    ensures cut { (sectors : List (List ℕ)) (writes : List (ℕ × List ℕ)) (k : ℕ) (torn : Option (List ℕ)) → length (cut sectors writes k torn) ≡ length sectors }
    ensures disk { (old : Disk) (made : List (ℕ × List ℕ)) → KeepsCount old (after old made) }
{}
