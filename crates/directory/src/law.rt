ghost use Rattle.std.specs.Prelude.{◌≡◌, ◌<◌, ◌+◌, ◌*◌, ℕ, List, Option, length, take};
ghost use Rattle.cal_base.specs.Limits.{slots_per_block};
ghost use Rattle.directory.specs.declared.entry.DirEntry.{DirEntry};
ghost use Rattle.directory.specs.Block.{SpellsBlock};
ghost use Rattle.directory.specs.Directory.{Continues, IsDirectory, Names, block_slots};

/// A sector spells the slots of one block, and a block has one spelling.
pub fn one_block()
    ensures read { (sector : List ℕ) (a b : List (Option DirEntry)) → SpellsBlock sector a → SpellsBlock sector b → a ≡ b }
    ensures spelled { (a b : List ℕ) (slots : List (Option DirEntry)) → SpellsBlock a slots → SpellsBlock b slots → a ≡ b }
{}

/// What is stored loads back: the sector that spells a directory's block may follow the blocks before
/// it, and gives that block and no other.
pub fn stored_loads_back()
    ensures follows { (slots : List (Option DirEntry)) (block : ℕ) (sector : List ℕ) → IsDirectory slots → slots_per_block * block < length slots
        → SpellsBlock sector (block_slots slots block) → Continues (take (slots_per_block * block) slots) sector (take (slots_per_block * block + slots_per_block) slots) }
    ensures one { (old a b : List (Option DirEntry)) (sector : List ℕ) → Continues old sector a → Continues old sector b → a ≡ b }
{}

/// A name stands for one inode.
pub fn one_inode_a_name()
    ensures { (slots : List (Option DirEntry)) (name : List ℕ) (i j : ℕ) → IsDirectory slots → Names slots name i → Names slots name j → i ≡ j }
{}
