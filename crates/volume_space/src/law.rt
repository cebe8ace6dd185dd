ghost use Rattle.std.specs.Prelude.{◌≡◌, ◌≢◌, ◌≤◌, ◌+◌, ℕ, List, length};
ghost use Rattle.cal_base.specs.declared.identity.ClientId.{ClientId};
ghost use Rattle.cal_base.specs.declared.identity.Ino.{Ino};
ghost use Rattle.token_kind.specs.declared.flush.Flush.{Flush};
ghost use Rattle.tree_law.specs.declared.call.Call.{Call};
ghost use Rattle.tree_law.specs.declared.reply.Reply.TheVariants.{Refused};
ghost use Rattle.tree_law.specs.declared.reply.Why.{Why};
ghost use Rattle.tree_law.specs.declared.reply.Why.TheVariants.{NoSpace};
ghost use Rattle.volume.specs.Stands.{AreBlocksKept};
ghost use Rattle.volume.specs.Volume.{Volume};
ghost use Rattle.volume_edit.specs.Edit.{IsVolume, edited};
ghost use Rattle.volume_plan.specs.Flushing.{flush_of};
ghost use Rattle.volume_plan.specs.Plans.{answered, free_count, plan, purge_of, reap_of, slot_alone};

/// A plan takes at most the free blocks that it says it needs (`change`), and so many are free, unless it is
/// refused for want of them (`within`). A flush takes at most one for each of its pieces, also where no
/// file has its inode. A purge leaves as many blocks free as there were, and a reaping no fewer.
///
/// A file that is open keeps its blocks when it loses its last name, and a flush keeps those before its cut.
/// Both rely on the map: a block to which a pointer leads is in use.
pub fn a_plan_takes_what_it_needs()
    ensures change { (v : Volume) (client : ClientId) (number : ℕ) (call : Call) (opened : List Ino) → IsVolume v → AreBlocksKept v → free_count v ≤ free_count (edited v (plan v client number call opened).edit) + (plan v client number call opened).needed }
    ensures within { (v : Volume) (client : ClientId) (number : ℕ) (call : Call) (opened : List Ino) → ((free needed : ℕ) → (plan v client number call opened).reply ≢ Refused (NoSpace free needed)) → (plan v client number call opened).needed ≤ free_count v }
    ensures flush { (v : Volume) (client : ClientId) (flush : Flush) → IsVolume v → AreBlocksKept v → free_count v ≤ free_count (edited v (flush_of v client flush)) + length flush.pieces }
    ensures purge { (v : Volume) (client : ClientId) → free_count (edited v (purge_of v client)) ≡ free_count v }
    ensures reap { (v : Volume) (ino : Ino) → free_count v ≤ free_count (edited v (reap_of ino)) }
{}

/// A refused change, for whatever reason, alters its client's slot alone (`slot`), so as many blocks are free
/// as before (`free`).
pub fn a_refused_change_takes_nothing()
    ensures slot { (v : Volume) (client : ClientId) (number : ℕ) (call : Call) (opened : List Ino) (why : Why) → (plan v client number call opened).reply ≡ Refused why → (plan v client number call opened).edit ≡ slot_alone (answered v client number (Refused why)) }
    ensures free { (v : Volume) (client : ClientId) (number : ℕ) (call : Call) (opened : List Ino) (why : Why) → (plan v client number call opened).reply ≡ Refused why → free_count (edited v (plan v client number call opened).edit) ≡ free_count v }
{}
