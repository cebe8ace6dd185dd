ghost use Rattle.std.specs.Prelude.{◌≡◌, ◌<◌, ◌≤◌, ◌+◌, ℕ, IsTrue, false, is_some, OnOk};
ghost use Rattle.cal_base.specs.Limits as limits;
ghost use Rattle.message.specs.Range.{IsNumber};
ghost use Rattle.rebuild.specs.Collecting.{missing_of};
ghost use Rattle.cluster_law.specs.Asking.{TookRequest, is_wait, was_told};
ghost use Rattle.cluster_law.specs.ServerRules.{Occasion};
ghost use Rattle.cluster_law.specs.ServerState.{ServerState};
ghost use Rattle.server_draft.specs.Acts.{acts_of, told_to};
ghost use Rattle.server_draft.specs.Draft.{Follows};
ghost use Rattle.server_reports.specs.Reports.{with_wait};

use cal_base::{ClientId, Oom};
use message::Message;
use server_draft::Draft;

/// Answers a client's request, of its call of this number, that it has to wait, while the server waits for
/// reports: it names the least client that is missing. Else nothing is answered. A request is answered so once
/// in a step.
pub fn answer_wait(draft: &mut Draft, client: ClientId, number: u64) -> Result<(), Oom>
    requires client { client.0 < limits.clients }
    requires number { IsNumber number }
    ensures state { OnOk result (draft.new ≡ with_wait draft.old client number (missing_of draft.old.desk.collecting)) }
    ensures told { OnOk result ((view : ℕ) → IsTrue (is_some (missing_of draft.old.desk.collecting)) → IsTrue (was_told client.0 is_wait (acts_of view draft.new.acts))) }
    ensures few { OnOk result ((to : ℕ) → told_to to draft.new.acts ≤ told_to to draft.old.acts + 1) }
    ensures follows { OnOk result ((view : ℕ) (o : Occasion) (start : ServerState) → Follows view o start draft.old → TookRequest o.took client number
        → was_told client.0 is_wait (acts_of view draft.old.acts) ≡ false → Follows view o start draft.new) }
{
    if let Some(least) = draft.desk.missing() {
        draft.tell(
            client,
            Message::Wait {
                number,
                client: least,
            },
        )?;
    }
    Ok(())
}
