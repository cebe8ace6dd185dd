ghost use Rattle.std.specs.Prelude.{◌≡◌, List, Ok, Some, ℕ};
ghost use Rattle.cal_base.specs.declared.directory_entry.EntryKind.TheVariants.{File};
ghost use Rattle.cal_base.specs.declared.identity.ClientId.{ClientId};
ghost use Rattle.cal_base.specs.declared.identity.Ino.{Ino};
ghost use Rattle.tree_law.specs.Answer.{answer};
ghost use Rattle.tree_law.specs.Legal.{tree_of};
ghost use Rattle.tree_law.specs.PartOf.{IsKind};
ghost use Rattle.tree_law.specs.Rename.{move_of};
ghost use Rattle.tree_law.specs.Resolve.{file_named, removable};
ghost use Rattle.tree_law.specs.declared.call.Call.TheVariants.{Rename, Rmdir, Unlink};
ghost use Rattle.tree_law.specs.declared.entry.Entry.{Entry};
ghost use Rattle.tree_law.specs.declared.rename.Move.{Move};
ghost use Rattle.tree_law.specs.declared.reply.Reply.TheVariants.{Done};
ghost use Rattle.volume.specs.Volume.{Volume};
ghost use Rattle.volume_edit.specs.Edit.{edited, free_inode, inode_at};
ghost use Rattle.volume_plan.specs.Leads.{IsAsked, Mounted};
ghost use Rattle.volume_plan.specs.Planned.{PlanLeads};
ghost use Rattle.volume_plan.specs.Plans.{is_opened, plan};
ghost use Rattle.volume_plan.specs.Removals.{IsFreedOrKept};

/// An `unlink` and an `rmdir` that the tree doesn't refuse: with the homes of the plan's edit in place the
/// sectors stand for the history with the call, answered as the plan says.
pub fn a_removal_stands()
    ensures unlink { (sectors : List (List ℕ)) (v : Volume) (history : List Entry) (client : ClientId) (number : ℕ) (path : List (List ℕ)) (opened : List Ino) → Mounted sectors v history → IsAsked history client number (Unlink path) opened → answer (tree_of history) client (Unlink path) ≡ Done → PlanLeads sectors v history client number (Unlink path) opened }
    ensures rmdir { (sectors : List (List ℕ)) (v : Volume) (history : List Entry) (client : ClientId) (number : ℕ) (path : List (List ℕ)) (opened : List Ino) → Mounted sectors v history → IsAsked history client number (Rmdir path) opened → answer (tree_of history) client (Rmdir path) ≡ Done → PlanLeads sectors v history client number (Rmdir path) opened }
{}

/// What an `unlink`, or a `rename` that replaces a file, leaves of the file's inode in the edited volume: a
/// file that is open is kept as an orphan, with its size and its blocks, and every other is free. A
/// directory that is removed is free.
pub fn a_nameless_file_is_freed_or_kept()
    ensures unlink { (sectors : List (List ℕ)) (v : Volume) (history : List Entry) (client : ClientId) (number : ℕ) (path : List (List ℕ)) (opened : List Ino) (ino : Ino) → Mounted sectors v history → IsAsked history client number (Unlink path) opened → file_named (tree_of history) path ≡ Ok ino → IsFreedOrKept (is_opened opened ino) (inode_at v.inodes ino.0) (inode_at (edited v (plan v client number (Unlink path) opened).edit).inodes ino.0) }
    ensures rename { (sectors : List (List ℕ)) (v : Volume) (history : List Entry) (client : ClientId) (number : ℕ) (path goal : List (List ℕ)) (opened : List Ino) (move : Move) (ino : Ino) → Mounted sectors v history → IsAsked history client number (Rename path goal) opened → move_of (tree_of history) path goal ≡ Ok move → move.replaced ≡ Some ino → IsKind (tree_of history) ino File → IsFreedOrKept (is_opened opened ino) (inode_at v.inodes ino.0) (inode_at (edited v (plan v client number (Rename path goal) opened).edit).inodes ino.0) }
    ensures rmdir { (sectors : List (List ℕ)) (v : Volume) (history : List Entry) (client : ClientId) (number : ℕ) (path : List (List ℕ)) (opened : List Ino) (ino : Ino) → Mounted sectors v history → IsAsked history client number (Rmdir path) opened → removable (tree_of history) path ≡ Ok ino → inode_at (edited v (plan v client number (Rmdir path) opened).edit).inodes ino.0 ≡ free_inode }
{}
