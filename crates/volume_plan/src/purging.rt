ghost use Rattle.std.specs.Prelude.{◌≡◌, ◌<◌, ℕ, false, List, None, Some, slice_get};
ghost use Rattle.cal_base.specs.Limits as limits;
ghost use Rattle.cal_base.specs.declared.identity.ClientId.{ClientId};
ghost use Rattle.cal_base.specs.declared.identity.Ino.{Ino};
ghost use Rattle.inode.specs.declared.inode.Inode.{Inode};
ghost use Rattle.inode.specs.declared.inode.Kind.TheVariants.{File};
ghost use Rattle.shared_disk.specs.Sectors.{written};
ghost use Rattle.tree_law.specs.Legal.{tree_of};
ghost use Rattle.tree_law.specs.Tree.{is_purged, node_at};
ghost use Rattle.tree_law.specs.declared.entry.Entry.{Entry};
ghost use Rattle.tree_law.specs.declared.entry.Entry.TheVariants.{Purge};
ghost use Rattle.volume.specs.Stands.{StandsForHistory};
ghost use Rattle.volume.specs.Volume.{Volume};
ghost use Rattle.volume_edit.specs.Edit.{IsEdit, edited};
ghost use Rattle.volume_edit.specs.Homes.{AreHomes};
ghost use Rattle.volume_plan.specs.Leads.{Leads, Mounted};
ghost use Rattle.volume_plan.specs.Plans.{purge_of, reap_of};

/// A purge of a client that isn't purged yet: with its one home in place the sectors stand for the
/// history with the purge. What the client wrote and did not flush is gone, and so are the files that
/// only the client kept in use.
pub fn a_purge_stands()
    ensures { (sectors : List (List ℕ)) (v : Volume) (history : List Entry) (client : ClientId) → Mounted sectors v history → client.0 < limits.clients → is_purged (tree_of history) client ≡ false
        → Leads sectors v history (purge_of v client) (Purge client) }
{}

/// A file of which the tree has nothing may be reaped: its inode and its blocks are free then, and the
/// sectors stand for the history as it was.
pub fn a_reaping_stands()
    ensures edit { (sectors : List (List ℕ)) (v : Volume) (history : List Entry) (ino : Ino) (inode : Inode) → Mounted sectors v history → slice_get v.inodes ino.0 ≡ Some inode → inode.kind ≡ File
        → IsEdit v (reap_of ino) }
    ensures stands { (sectors : List (List ℕ)) (v : Volume) (history : List Entry) (ino : Ino) (inode : Inode) (homes : List (ℕ × List ℕ)) → Mounted sectors v history → slice_get v.inodes ino.0 ≡ Some inode → inode.kind ≡ File
        → node_at (tree_of history) ino ≡ None → AreHomes v (reap_of ino) homes → StandsForHistory (written sectors homes) (edited v (reap_of ino)) history }
{}
