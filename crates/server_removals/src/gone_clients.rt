ghost use Rattle.std.specs.Prelude.{◌≡◌, ◌<◌, ◌≤◌, ◌&&◌, ℕ, Bool, IsTrue, IfSome, OnOk, Some, false, length};
ghost use Rattle.cal_base.specs.Limits as limits;
ghost use Rattle.message.specs.declared.message.Message.{Message};
ghost use Rattle.volume_edit.specs.Edit.{edited};
ghost use Rattle.volume_plan.specs.Plans.{purge_of};
ghost use Rattle.volume_names.specs.Named.{AreNamed};
ghost use Rattle.cluster_law.specs.Asking.{was_told};
ghost use Rattle.cluster_law.specs.Removing.{HasDone, due, has_removed};
ghost use Rattle.cluster_law.specs.ServerRules.{IsPurgeOf, Occasion};
ghost use Rattle.cluster_law.specs.ServerState.{ServerState, is_present};
ghost use Rattle.server_draft.specs.Acts.{acts_of, told_to};
ghost use Rattle.server_draft.specs.Draft.{Follows, Grows, reached};
ghost use Rattle.server_draft.specs.declared.act.Deed.TheVariants.{Purges};
ghost use Rattle.server_removals.specs.Removals.{Does, gone_in};

use cal_base::{ClientId, Items, Oom};
use image::{EditPlan, Image};
use membership::Members;
use server_draft::{Commit, Deed, Draft};
use std::alloc::Global;

/// The least client that was declared gone and isn't marked as purged, if there is one. It takes no memory.
pub fn least_due(image: &Image, members: &Members) -> Option<ClientId>
    ensures value { (server : ServerState) → server.volume ≡ image.now → result ≡ due (gone_in members.now) server }
    ensures bound { IfSome result (λ client. client.0 < limits.clients) }
{
    for number in 0..image.clients() {
        let client = ClientId(number);
        if is_due(image, members, client) {
            return Some(client);
        }
    }
    None
}

/// Whether a client was declared gone and isn't marked as purged.
fn is_due(image: &Image, members: &Members, client: ClientId) -> bool
    requires { client.0 < limits.clients }
    ensures { result ≡ (gone_in members.now client && is_present image.now client) }
{
    is_gone(members, client) && !image.slot(client).purged
}

/// Whether a client was declared gone.
fn is_gone(members: &Members, client: ClientId) -> bool
    ensures { result ≡ gone_in members.now client }
{
    members.declared(client)
}

/// Purges the client that is due: one commit marks its slot, and what it holds, its requests and what was asked of
/// it are gone. It is the one removal of a tick.
pub fn purge(alloc: Global, draft: &mut Draft, client: ClientId) -> Result<(), Oom>
    requires { client.0 < limits.clients }
    ensures follows { OnOk result ((view : ℕ) (o : Occasion) (start : ServerState) → Follows view o start draft.old → IsTrue o.tick
        → due o.gone (reached view start draft.old) ≡ Some client → has_removed (acts_of view draft.old.acts) ≡ false → Follows view o start draft.new) }
    ensures done { OnOk result ((view : ℕ) → HasDone (IsPurgeOf client) (acts_of view draft.new.acts)) }
    ensures does { OnOk result (Does (Purges client) draft.old.acts draft.new.acts) }
    ensures told { OnOk result ((view client : ℕ) (test : Message → Bool) → was_told client test (acts_of view draft.new.acts) ≡ was_told client test (acts_of view draft.old.acts)) }
    ensures few { OnOk result ((to : ℕ) → told_to to draft.new.acts ≡ told_to to draft.old.acts) }
    ensures requests { OnOk result (length draft.new.desk.requests ≤ length draft.old.desk.requests) }
    ensures names { OnOk result (AreNamed draft.old.image → AreNamed draft.new.image) }
    ensures grows { OnOk result (Grows draft.old.acts draft.new.acts) }
    ensures image { OnOk result (draft.new.image ≡ edited draft.old.image (purge_of draft.old.image client)) }
{
    let EditPlan { edit, txn } = draft.image.plan_purge(alloc, client)?;
    draft.desk.purge(client);
    draft.commit(Commit {
        deed: Deed::Purges(client),
        lays: Items::new(alloc),
        edit,
        homes: txn,
    })?;
    Ok(())
}
