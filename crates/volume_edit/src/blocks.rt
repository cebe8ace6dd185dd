ghost use Rattle.std.specs.Prelude.{◌≡◌, ℕ, List, Some, slice_get};
ghost use Rattle.inode.specs.declared.inode.Inode.{Inode};
ghost use Rattle.shared_disk.specs.Sectors.{written};
ghost use Rattle.tree_law.specs.declared.entry.Entry.{Entry};
ghost use Rattle.volume.specs.Stands.{AreBlocksKept, StandsForHistory};
ghost use Rattle.volume.specs.Volume.{SpellsVolume, Volume, file_byte};
ghost use Rattle.volume_edit.specs.Blocks.{GoToFree, TakesFree};
ghost use Rattle.volume_edit.specs.Edit.{IsEdit, IsVolume, edited};
ghost use Rattle.volume_edit.specs.declared.edit.Edit.{Edit};

/// After an edit that takes free blocks alone a block is in use exactly if a pointer names it, and no two
/// pointers name one block.
pub fn an_edit_keeps_blocks()
    ensures { (v : Volume) (e : Edit) → IsVolume v → AreBlocksKept v → IsEdit v e → TakesFree v e → AreBlocksKept (edited v e) }
{}

/// Writes to free blocks leave what the sectors spell, the bytes of all files, and the history for which
/// they stand.
pub fn data_goes_to_free_blocks()
    ensures spells { (sectors : List (List ℕ)) (v : Volume) (writes : List (ℕ × List ℕ)) → SpellsVolume sectors v → AreBlocksKept v → GoToFree v writes
        → SpellsVolume (written sectors writes) v }
    ensures bytes { (sectors : List (List ℕ)) (v : Volume) (writes : List (ℕ × List ℕ)) → SpellsVolume sectors v → AreBlocksKept v → GoToFree v writes
        → (number : ℕ) (inode : Inode) → slice_get v.inodes number ≡ Some inode → (i : ℕ) → file_byte (written sectors writes) inode i ≡ file_byte sectors inode i }
    ensures stands { (sectors : List (List ℕ)) (v : Volume) (history : List Entry) (writes : List (ℕ × List ℕ)) → StandsForHistory sectors v history → GoToFree v writes
        → StandsForHistory (written sectors writes) v history }
{}
