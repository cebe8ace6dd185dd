ghost use Rattle.std.specs.Prelude.{◌≡◌, ◌∷◌, ◌<◌, ◌≤◌, ◌+◌, [], ℕ, IsTrue, None, Some, OnOk, false};
ghost use Rattle.cal_base.specs.Limits as limits;
ghost use Rattle.message.specs.declared.message.Message.TheVariants.{Admit};
ghost use Rattle.rebuild.specs.Collecting.{standing_of};
ghost use Rattle.cluster_law.specs.Asking.{first_to_admit, is_whole};
ghost use Rattle.cluster_law.specs.ServerRules.{Occasion};
ghost use Rattle.cluster_law.specs.ServerState.{ServerState, is_admitted};
ghost use Rattle.server_draft.specs.Acts.{acts_of, told_to};
ghost use Rattle.server_draft.specs.Draft.{Follows, TellsOnly, reached};
ghost use Rattle.server_reports.specs.Reports.{HasAdmittedNobody, with_admit};

use cal_base::{CLIENTS, ClientId, Oom};
use message::Message;
use rebuild::Reporting;
use server_draft::Draft;

/// Admits all clients whose reports are whole, in order. It is done once, in the step after which nobody is
/// missing any longer.
pub fn admit_clients(draft: &mut Draft) -> Result<(), Oom>
    ensures desk { OnOk result (draft.new.desk ≡ draft.old.desk) }
    ensures image { OnOk result (draft.new.image ≡ draft.old.image) }
    ensures acts { OnOk result (TellsOnly (Admit ∷ []) draft.old.acts draft.new.acts) }
    ensures few { OnOk result ((to : ℕ) → told_to to draft.new.acts ≤ told_to to draft.old.acts + 1) }
    ensures follows { OnOk result ((view : ℕ) (o : Occasion) (start : ServerState) → Follows view o start draft.old → o.was_admitted ≡ false → IsTrue (is_admitted (reached view start draft.old))
        → HasAdmittedNobody view draft.old.acts → Follows view o start draft.new) }
    ensures all { OnOk result ((view : ℕ) (o : Occasion) (start : ServerState) → Follows view o start draft.old → o.was_admitted ≡ false → IsTrue (is_admitted (reached view start draft.old))
        → HasAdmittedNobody view draft.old.acts → first_to_admit (reached view start draft.new) (acts_of view draft.new.acts) ≡ None) }
{
    for number in 0..CLIENTS {
        admit(draft, ClientId(number))?;
    }
    Ok(())
}

/// Admits a client, if its report is whole.
fn admit(draft: &mut Draft, client: ClientId) -> Result<(), Oom>
    requires { client.0 < limits.clients }
    ensures state { OnOk result (draft.new ≡ with_admit draft.old client (is_whole (standing_of draft.old.desk.collecting client))) }
    ensures follows { OnOk result ((view : ℕ) (o : Occasion) (start : ServerState) → Follows view o start draft.old → o.was_admitted ≡ false → IsTrue (is_admitted (reached view start draft.old))
        → (IsTrue (is_whole (standing_of draft.old.desk.collecting client)) → first_to_admit (reached view start draft.old) (acts_of view draft.old.acts) ≡ Some client) → Follows view o start draft.new) }
{
    if is_whole(draft.desk.standing(client)) {
        draft.tell(client, Message::Admit)?;
    }
    Ok(())
}

/// Whether a client's report is whole.
fn is_whole(standing: Reporting) -> bool
    ensures { result ≡ is_whole standing }
{
    match standing {
        Reporting::Whole => true,
        Reporting::Unlisted | Reporting::Listed | Reporting::Asked(_) | Reporting::Purged => false,
    }
}
