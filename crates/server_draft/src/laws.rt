//! What stays of the acts that are put to a draft.
ghost use Rattle.std.specs.Prelude.{ℕ, Bool, IsTrue, List};
ghost use Rattle.cal_base.specs.declared.identity.ClientId.{ClientId};
ghost use Rattle.cal_base.specs.declared.identity.Ino.{Ino};
ghost use Rattle.message.specs.declared.message.Message.{Message};
ghost use Rattle.cluster_law.specs.Asking.{was_told};
ghost use Rattle.cluster_law.specs.Removing.{HasDone};
ghost use Rattle.cluster_law.specs.ServerRules.{IsPurgeOf, IsReapOf};
ghost use Rattle.server_draft.specs.Acts.{acts_of};
ghost use Rattle.server_draft.specs.Draft.{Grows};
ghost use Rattle.server_draft.specs.declared.act.Act.{Act};

/// What was told stays told, and what was done stays done, with each act that is put to others. And acts that were
/// put to such are put to the first.
pub fn what_is_done_stays_done()
    ensures told { (view client : ℕ) (test : Message → Bool) (old new : List Act) → Grows old new → IsTrue (was_told client test (acts_of view old)) → IsTrue (was_told client test (acts_of view new)) }
    ensures purged { (view : ℕ) (client : ClientId) (old new : List Act) → Grows old new → HasDone (IsPurgeOf client) (acts_of view old) → HasDone (IsPurgeOf client) (acts_of view new) }
    ensures freed { (view : ℕ) (ino : Ino) (old new : List Act) → Grows old new → HasDone (IsReapOf ino) (acts_of view old) → HasDone (IsReapOf ino) (acts_of view new) }
    ensures grows { (old mid new : List Act) → Grows old mid → Grows mid new → Grows old new }
    ensures none { (old : List Act) → Grows old old }
{}
