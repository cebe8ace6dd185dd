ghost use Rattle.std.specs.Prelude.{◌≡◌, ◌<◌, [], ℕ, OnOk};
ghost use Rattle.cal_base.specs.Limits as limits;
ghost use Rattle.message.specs.declared.message.Message.TheVariants.{Flush as FlushOf};
ghost use Rattle.token_kind.specs.Flush.{IsFlush};
ghost use Rattle.token_table.specs.Table.{IsTable};
ghost use Rattle.volume_edit.specs.Edit.{IsVolume};
ghost use Rattle.cluster_law.specs.Granting.{Took};
ghost use Rattle.cluster_law.specs.ServerRules.{Occasion};
ghost use Rattle.cluster_law.specs.ServerState.{ServerState};
ghost use Rattle.server_draft.specs.Draft.{Follows};
ghost use Rattle.server_flushes.specs.Flushes.{CommitsOne, knowing, standing_in};
ghost use Rattle.server_flushes.specs.declared.standing.Standing.TheVariants.{Next};

use cal_base::{ClientId, Oom};
use image::FlushPlan;
use server_draft::{Commit, Deed, Draft};
use std::alloc::Global;
use token_kind::Flush;

/// Commits a flush that is next and may be committed, and lowers its client's holds to what it leaves.
pub fn commit_flush(
    alloc: Global,
    draft: &mut Draft,
    client: ClientId,
    flush: Flush,
) -> Result<(), Oom>
    requires client { client.0 < limits.clients }
    requires flush { IsFlush flush }
    requires next { standing_in (knowing draft.old) client flush ≡ Next }
    requires volume { IsVolume draft.old.image }
    requires table { IsTable draft.old.desk.collecting.table }
    ensures commits { OnOk result (CommitsOne client flush draft.old draft.new) }
    ensures follows { OnOk result ((view : ℕ) (o : Occasion) (start : ServerState) → Follows view o start draft.old → draft.old.acts ≡ [] → Took o.took client (FlushOf flush) → Follows view o start draft.new) }
{
    let FlushPlan { data, edit, txn } = draft.image.plan_flush(alloc, client, &flush)?;
    draft
        .desk
        .lower_by_flush(client, flush.ino, flush.leave_data, flush.leave_attr);
    draft.commit(Commit {
        deed: Deed::Flushes { client, flush },
        lays: data,
        edit,
        homes: txn,
    })?;
    Ok(())
}
