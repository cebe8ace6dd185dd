ghost use Rattle.std.specs.Prelude.{◌≡◌, ◌≤◌, ◌+◌, ◌∷◌, [], ℕ, None, OnOk};
ghost use Rattle.message.specs.declared.message.Message.TheVariants.{Admit, Ask};
ghost use Rattle.rebuild.specs.Collecting.{next_of};
ghost use Rattle.cluster_law.specs.ServerRules.{Collected, Occasion};
ghost use Rattle.cluster_law.specs.ServerState.{ServerState};
ghost use Rattle.server_draft.specs.Acts.{acts_of, told_to};
ghost use Rattle.server_draft.specs.Draft.{Follows, TellsOnly, reached};
ghost use Rattle.server_reports.specs.Reports.{AsksOnly, HasAdmittedNobody};

use crate::admitting::admit_clients;
use cal_base::Oom;
use message::Message;
use server_draft::Draft;

/// Asks the clients that may be asked, and admits all in the step in which none is missing any longer:
/// `was_admitted` says whether none was missing before the step.
pub fn collect(draft: &mut Draft, was_admitted: bool) -> Result<(), Oom>
    ensures state { OnOk result (AsksOnly draft.old draft.new) }
    ensures acts { OnOk result (TellsOnly (Ask ∷ Admit ∷ []) draft.old.acts draft.new.acts) }
    ensures few { OnOk result ((to : ℕ) → told_to to draft.new.acts ≤ told_to to draft.old.acts + 2) }
    ensures follows { OnOk result ((view : ℕ) (o : Occasion) (start : ServerState) → Follows view o start draft.old → o.was_admitted ≡ was_admitted → HasAdmittedNobody view draft.old.acts
        → Follows view o start draft.new) }
    ensures collected { OnOk result ((view : ℕ) (o : Occasion) (start : ServerState) → Follows view o start draft.old → o.was_admitted ≡ was_admitted → HasAdmittedNobody view draft.old.acts
        → Collected o (reached view start draft.new) (acts_of view draft.new.acts)) }
{
    ask_clients(draft)?;
    if !was_admitted && draft.desk.missing().is_none() {
        admit_clients(draft)?;
    }
    Ok(())
}

/// Asks clients for their reports, in order, as many as the window lets be asked at a time.
pub fn ask_clients(draft: &mut Draft) -> Result<(), Oom>
    ensures asked { OnOk result (next_of draft.new.desk.collecting ≡ None) }
    ensures state { OnOk result (AsksOnly draft.old draft.new) }
    ensures acts { OnOk result (TellsOnly (Ask ∷ []) draft.old.acts draft.new.acts) }
    ensures few { OnOk result ((to : ℕ) → told_to to draft.new.acts ≤ told_to to draft.old.acts + 1) }
    ensures follows { OnOk result ((view : ℕ) (o : Occasion) (start : ServerState) → Follows view o start draft.old → Follows view o start draft.new) }
{
    while let Some(client) = draft.desk.ask_next() {
        draft.tell(client, Message::Ask)?;
    }
    Ok(())
}
