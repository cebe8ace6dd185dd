ghost use Rattle.std.specs.Prelude.{◌≡◌, ◌≢◌, ℕ, List, length, Some, slice_get};
ghost use Rattle.cal_base.specs.Limits as limits;
ghost use Rattle.inode.specs.declared.inode.Inode.{Inode};
ghost use Rattle.inode.specs.declared.inode.Kind.TheVariants.{Dir, File};
ghost use Rattle.shared_disk.specs.Homes.{IsTransaction};
ghost use Rattle.shared_disk.specs.Sectors.{written};
ghost use Rattle.volume.specs.Stands.{AreBlocksKept};
ghost use Rattle.volume.specs.Volume.{SpellsVolume, Volume, file_byte};
ghost use Rattle.volume_edit.specs.Blocks.{TakesFree};
ghost use Rattle.volume_edit.specs.Edit.{IsEdit, IsVolume, edited};
ghost use Rattle.volume_edit.specs.Homes.{AreHomes};
ghost use Rattle.volume_edit.specs.declared.edit.Edit.{Edit};

/// An edit keeps a volume within its grammar: the map, the slots of clients and the inodes stay in
/// theirs, each directory has the slots of its blocks and no name twice, and the root stays a directory.
pub fn an_edit_keeps_the_grammar()
    ensures { (v : Volume) (e : Edit) → IsVolume v → IsEdit v e → IsVolume (edited v e) }
{}

/// The homes of an edit are a transaction: 1 to 16 sectors that a transaction may write, each above
/// the one before.
pub fn homes_are_a_transaction()
    ensures { (v : Volume) (e : Edit) (homes : List (ℕ × List ℕ)) → IsVolume v → IsEdit v e → AreHomes v e homes → IsTransaction homes }
{}

/// Where sectors spell a volume and the homes of an edit are written, they spell the edited volume. The
/// homes are all that has to be written: each part that no home stands for is as before.
pub fn an_edit_is_spelled()
    ensures { (sectors : List (List ℕ)) (v : Volume) (e : Edit) (homes : List (ℕ × List ℕ)) → length sectors ≡ limits.sectors → SpellsVolume sectors v → IsVolume v → AreBlocksKept v → IsEdit v e → TakesFree v e → AreHomes v e homes → SpellsVolume (written sectors homes) (edited v e) }
{}

/// The homes of an edit hold no byte of a file: where they are written, each file has the bytes that it
/// had, also one that the edit frees. Nor do they hold a byte of a file as it is after the edit: its bytes
/// are those that the sectors had at its pointers before the homes were written.
pub fn an_edit_keeps_files()
    ensures before { (sectors : List (List ℕ)) (v : Volume) (e : Edit) (homes : List (ℕ × List ℕ)) → length sectors ≡ limits.sectors → SpellsVolume sectors v → IsVolume v → AreBlocksKept v → IsEdit v e → TakesFree v e → AreHomes v e homes → (number : ℕ) (inode : Inode) → slice_get v.inodes number ≡ Some inode → inode.kind ≡ File → (i : ℕ) → file_byte (written sectors homes) inode i ≡ file_byte sectors inode i }
    ensures after { (sectors : List (List ℕ)) (v : Volume) (e : Edit) (homes : List (ℕ × List ℕ)) → length sectors ≡ limits.sectors → SpellsVolume sectors v → IsVolume v → AreBlocksKept v → IsEdit v e → TakesFree v e → AreHomes v e homes → (number : ℕ) (inode : Inode) → slice_get (edited v e).inodes number ≡ Some inode → inode.kind ≢ Dir → (i : ℕ) → file_byte (written sectors homes) inode i ≡ file_byte sectors inode i }
{}

/// Sectors spell one volume within its grammar, the slots of each inode included: all of a server's image
/// is what its sectors tell.
pub fn one_whole_volume()
    ensures { (sectors : List (List ℕ)) (a b : Volume) → SpellsVolume sectors a → SpellsVolume sectors b → IsVolume a → IsVolume b → a ≡ b }
{}
