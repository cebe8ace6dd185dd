ghost use Rattle.std.specs.Prelude.{◌≡◌, ℕ, false, List};
ghost use Rattle.cal_base.specs.declared.identity.ClientId.{ClientId};
ghost use Rattle.cal_base.specs.declared.identity.Ino.{Ino};
ghost use Rattle.inode.specs.declared.inode.Kind.TheVariants.{File};
ghost use Rattle.token_kind.specs.declared.flush.Flush.{Flush};
ghost use Rattle.tree_law.specs.declared.call.Call.{Call};
ghost use Rattle.tree_law.specs.declared.entry.Entry.{Entry};
ghost use Rattle.volume.specs.Volume.{Volume};
ghost use Rattle.volume_edit.specs.Edit.{IsVolume, edited, inode_at};
ghost use Rattle.volume_names.specs.Named.{AreNamed};
ghost use Rattle.volume_plan.specs.Flushing.{flush_of};
ghost use Rattle.volume_plan.specs.Leads.{Mounted};
ghost use Rattle.volume_plan.specs.Plans.{plan, purge_of, reap_of};

use tree_facts::an_inode_has_one_name;

/// Each plan keeps the names of a volume, whether or not that stands for a history: that of every change, done
/// or refused, of a flush, of a purge, and of the reaping of a file without a name.
pub fn a_plan_keeps_names()
    ensures change { (v : Volume) (client : ClientId) (number : ℕ) (call : Call) (opened : List Ino) → IsVolume v → AreNamed v → AreNamed (edited v (plan v client number call opened).edit) }
    ensures flush { (v : Volume) (client : ClientId) (flush : Flush) → IsVolume v → AreNamed v → AreNamed (edited v (flush_of v client flush)) }
    ensures purge { (v : Volume) (client : ClientId) → AreNamed v → AreNamed (edited v (purge_of v client)) }
    ensures reap { (v : Volume) (ino : Ino) → IsVolume v → AreNamed v → (inode_at v.inodes ino.0).kind ≡ File → (inode_at v.inodes ino.0).named ≡ false → AreNamed (edited v (reap_of ino)) }
{}

/// Each name of a volume that stands for a legal history stands for something, no inode has two names, and the
/// root has none.
pub fn a_mounted_volume_is_named()
    ensures { (sectors : List (List ℕ)) (v : Volume) (history : List Entry) → Mounted sectors v history → AreNamed v }
{
    an_inode_has_one_name();
}
