ghost use Rattle.std.specs.Prelude.{◌<◌, ◌≡◌, ◌≤◌, ℕ, List, Some, length};
ghost use Rattle.cal_base.specs.Limits as limits;
ghost use Rattle.cal_base.specs.declared.identity.Ino.{Ino};
ghost use Rattle.journal.specs.Commit.{replayed};
ghost use Rattle.journal.specs.Layout.{outside};
ghost use Rattle.tree_law.specs.FileState.{FileState};
ghost use Rattle.tree_law.specs.Legal.{IsLegal, tree_of};
ghost use Rattle.tree_law.specs.Tree.{node_at};
ghost use Rattle.tree_law.specs.declared.entry.Entry.{Entry};
ghost use Rattle.tree_law.specs.declared.node.Node.TheVariants.{Regular};
ghost use Rattle.volume.specs.Stands.{Stands, StandsForHistory};
ghost use Rattle.volume.specs.Volume.{SpellsVolume, Volume};
ghost use Rattle.volume_edit.specs.Edit.{IsVolume, inode_at};
ghost use Rattle.volume_plan.specs.Leads.{Mounted};
ghost use Rattle.image.specs.Damage.{IsDamage};
ghost use Rattle.image.specs.FileRead.{AreFirstBytes};

/// Sectors that need no replay and stand for a history have no damage. What a mount reads of them stands
/// for the same history, where that is legal; so every plan of the image leads on from there.
pub fn a_mounted_volume_stands()
    ensures sound { (sectors : List (List ℕ)) (history : List Entry) (at : ℕ) → replayed sectors ≡ Some (outside sectors) → Stands sectors history → IsDamage sectors at → ⊥ }
    ensures stands { (sectors : List (List ℕ)) (v : Volume) (history : List Entry) → length sectors ≡ limits.sectors → replayed sectors ≡ Some (outside sectors) → Stands sectors history → IsLegal history
        → IsVolume v → SpellsVolume (outside sectors) v → Mounted (outside sectors) v history }
{}

/// What is read of a file, all bytes up to its size, is what lasts of it in the tree.
pub fn a_file_reads_as_it_lasts()
    ensures { (sectors : List (List ℕ)) (v : Volume) (history : List Entry) (ino : Ino) (file : FileState) (bytes : List ℕ) → StandsForHistory sectors v history → ino.0 < limits.inodes → node_at (tree_of history) ino ≡ Some (Regular file)
        → length bytes ≡ (inode_at v.inodes ino.0).size → AreFirstBytes sectors (inode_at v.inodes ino.0) bytes → bytes ≡ file.kept }
{}
