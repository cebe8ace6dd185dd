ghost use Rattle.std.specs.Prelude.{◌≡◌, ◌<◌, ℕ, List};
ghost use Rattle.cal_base.specs.Limits as limits;
ghost use Rattle.cal_base.specs.declared.identity.ClientId.{ClientId};
ghost use Rattle.cal_base.specs.declared.identity.Ino.{Ino};
ghost use Rattle.request_log.specs.Judge.{judged};
ghost use Rattle.request_log.specs.declared.judge.Judged.TheVariants.{Kept};
ghost use Rattle.token_kind.specs.declared.flush.Flush.{Flush};
ghost use Rattle.tree_law.specs.declared.call.Call.{Call};
ghost use Rattle.volume.specs.Volume.{Volume};
ghost use Rattle.volume_edit.specs.Edit.{IsVolume, edited, slot_at};
ghost use Rattle.volume_plan.specs.Flushing.{flush_of};
ghost use Rattle.volume_plan.specs.Plans.{plan};

/// The number of a change or of a flush stands in its client's slot in the same edit. So after a change
/// its number is judged as kept, with its reply, by every volume that these sectors spell: it is
/// committed once, also where another server mounts them.
pub fn a_number_commits_once()
    ensures change { (v : Volume) (client : ClientId) (number : ℕ) (call : Call) (opened : List Ino) → IsVolume v → client.0 < limits.clients
        → judged (slot_at (edited v (plan v client number call opened).edit).slots client.0) number ≡ Kept (plan v client number call opened).reply }
    ensures flush { (v : Volume) (client : ClientId) (flush : Flush) → IsVolume v → client.0 < limits.clients → (slot_at (edited v (flush_of v client flush)).slots client.0).flush ≡ flush.number }
{}
