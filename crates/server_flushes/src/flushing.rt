ghost use Rattle.std.specs.Prelude.{◌≡◌, ◌<◌, ◌≤◌, ◌+◌, ◌∷◌, [], ℕ, IsTrue, false, OnOk};
ghost use Rattle.cal_base.specs.Limits as limits;
ghost use Rattle.message.specs.declared.message.Message.TheVariants.{Flush as FlushOf, Flushed};
ghost use Rattle.token_kind.specs.Flush.{IsFlush};
ghost use Rattle.token_kind.specs.declared.flush.Flush.{Flush as FlushRecord};
ghost use Rattle.volume_edit.specs.Edit.{slot_at};
ghost use Rattle.volume_names.specs.Named.{AreNamed};
ghost use Rattle.cluster_law.specs.Asking.{is_flushed, was_told};
ghost use Rattle.cluster_law.specs.Granting.{Took};
ghost use Rattle.cluster_law.specs.ServerRules.{Occasion};
ghost use Rattle.cluster_law.specs.ServerState.{ServerState, uses};
ghost use Rattle.server_draft.specs.Acts.{act_of, acts_of, told_to};
ghost use Rattle.server_draft.specs.Draft.{Follows, TellsOnly};
ghost use Rattle.server_draft.specs.declared.act.Act.TheVariants.{Tells};
ghost use Rattle.server_flushes.specs.Flushes.{LowersOnly, with_flushed};

use crate::committing::commit_flush;
use crate::standing::{Standing, standing_of};
use cal_base::{ClientId, Oom};
use message::Message;
use server_draft::Draft;
use std::alloc::Global;
use token_kind::Flush;

/// Takes a client's flush, in a step that has done nothing yet. One whose number is at or below the client's last is
/// on the disk: it is told again. The next one is committed where it is of a file, the client holds Data Write of
/// it, all reports are in and as many blocks are free as it has pieces; then the holds are lowered to what it
/// leaves, and it is told. Any other is passed over.
pub fn take_flush(
    alloc: Global,
    draft: &mut Draft,
    client: ClientId,
    flush: Flush,
) -> Result<(), Oom>
    requires client { client.0 < limits.clients }
    requires flush { IsFlush flush }
    ensures follows { OnOk result ((view : ℕ) (o : Occasion) (start : ServerState) → Follows view o start draft.old → draft.old.acts ≡ [] → Took o.took client (FlushOf flush) → Follows view o start draft.new) }
    ensures told { OnOk result ((view : ℕ) (o : Occasion) (start : ServerState) → Follows view o start draft.old → draft.old.acts ≡ [] → IsTrue (uses start client (FlushOf flush))
        → IsTrue (was_told client.0 is_flushed (acts_of view draft.new.acts))) }
    ensures passes { OnOk result ((view : ℕ) (o : Occasion) (start : ServerState) → Follows view o start draft.old → draft.old.acts ≡ [] → uses start client (FlushOf flush) ≡ false → draft.new ≡ draft.old) }
    ensures acts { OnOk result (TellsOnly (Flushed flush.number ∷ []) draft.old.acts draft.new.acts) }
    ensures few { OnOk result ((to : ℕ) → told_to to draft.new.acts ≤ told_to to draft.old.acts + 1) }
    ensures names { OnOk result (AreNamed draft.old.image → AreNamed draft.new.image) }
    ensures desk { OnOk result (LowersOnly draft.old draft.new) }
{
    let number = flush.number;
    match standing_of(draft, client, &flush) {
        Standing::Lasts => tell_flushed(draft, client, number)?,
        Standing::Next => {
            commit_flush(alloc, draft, client, flush)?;
            tell_flushed(draft, client, number)?;
        }
        Standing::PassedOver => {}
    }
    Ok(())
}

/// Tells a client that its flush of this number is on the disk.
fn tell_flushed(draft: &mut Draft, client: ClientId, number: u64) -> Result<(), Oom>
    requires { client.0 < limits.clients }
    ensures state { OnOk result (draft.new ≡ with_flushed draft.old client number) }
    ensures acts { OnOk result ((view : ℕ) → acts_of view draft.new.acts ≡ act_of view (Tells client (Flushed number)) ∷ acts_of view draft.old.acts) }
    ensures few { OnOk result ((to : ℕ) → told_to to draft.new.acts ≤ told_to to draft.old.acts + 1) }
    ensures told { OnOk result ((view : ℕ) → IsTrue (was_told client.0 is_flushed (acts_of view draft.new.acts))) }
    ensures follows { OnOk result ((view : ℕ) (o : Occasion) (start : ServerState) (flush : FlushRecord) → Follows view o start draft.old → Took o.took client (FlushOf flush) → flush.number ≡ number
        → number ≤ (slot_at draft.old.image.slots client.0).flush → was_told client.0 is_flushed (acts_of view draft.old.acts) ≡ false → Follows view o start draft.new) }
{
    draft.tell(client, Message::Flushed { number })?;
    Ok(())
}
