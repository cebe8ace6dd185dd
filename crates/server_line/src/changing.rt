ghost use Rattle.std.specs.Prelude.{◌≡◌, ◌<◌, ◌≤◌, [], ℕ, None, IfOk, OnOk, true};
ghost use Rattle.cal_base.specs.Limits as limits;
ghost use Rattle.message.specs.Range.{IsMessage};
ghost use Rattle.tree_law.specs.Change.{is_change};
ghost use Rattle.tree_law.specs.declared.request.Asked.TheVariants.{Change as Alters};
ghost use Rattle.volume_edit.specs.Edit.{edited, slot_at};
ghost use Rattle.change_reply.specs.ReplyBytes.{IsChangeReply};
ghost use Rattle.cluster_law.specs.Blocking as law;
ghost use Rattle.cluster_law.specs.ServerRules.{ActsWell, Occasion};
ghost use Rattle.cluster_law.specs.ServerState.{ServerState, as_request};
ghost use Rattle.server_draft.specs.Acts.{act_of, acts_of, told_to};
ghost use Rattle.server_draft.specs.Draft.{Follows, reached};
ghost use Rattle.server_draft.specs.declared.act.Act.TheVariants.{Tells};
ghost use Rattle.server_line.specs.Blocked.{AreBlockers, CanBeAsked};
ghost use Rattle.server_line.specs.Changed.{IsPlanned};
ghost use Rattle.server_line.specs.Known.{HasChange, HasHead, IsHead, known};
ghost use Rattle.server_line.specs.Served.{Goes, IsAnswer, Serves};

use crate::at_head::{change_of, copy_of};
use crate::resting::{Blockers, is_free, or_space, rest, table_of};
use crate::unnaming::opened_for;
use cal_base::{CLIENTS, ClientId, Items, Oom};
use image::{Image, Planned};
use message::Message;
use request_log::Judged;
use server_draft::{Commit, Deed, Draft};
use std::alloc::Global;
use token_kind::{Block, BlockerList};
use tree_law::{Asked, Call, Reply, Request};

/// Serves the change at the head of the line. One with the number of its client's slot is answered with the reply
/// that is kept there, one with a lower number is dropped, and a new one is carried out where nobody holds what it
/// touches and there are blocks enough.
pub(crate) fn serve_change(
    alloc: Global,
    draft: &mut Draft,
    client: ClientId,
    number: u64,
) -> Result<Option<Block>, Oom>
    requires { HasChange draft.old client number }
    ensures { IfOk result (Serves (λ start. Unit {0}) (Unit {0}) draft.old draft.new) }
{
    match draft.image.slot(client).judge(number) {
        Judged::Old => {
            draft.drop_head()?;
            Ok(None)
        }
        Judged::Kept(reply) => {
            answer(draft, client, Message::Done { number, reply })?;
            Ok(None)
        }
        Judged::New => change(alloc, draft, client, number),
    }
}

/// Answers the request at the head of the line, which goes.
pub(crate) fn answer(draft: &mut Draft, client: ClientId, message: Message) -> Result<(), Oom>
    requires client { client.0 < limits.clients }
    requires message { IsMessage message }
    ensures { OnOk result (HasHead draft.old → IsAnswer message → ((view : ℕ) (o : Occasion) (start : ServerState) → Follows view o start draft.old → ActsWell o start (known draft.old (reached view start draft.old).sectors) (acts_of view draft.old.acts) (act_of view (Tells client message)))
        → Serves (λ start. Unit {0}) (Unit {0}) draft.old draft.new None) }
{
    draft.desk.drop_head();
    draft.tell(client, message)?;
    Ok(())
}

/// Carries out the new change at the head of the line, or asks back what blocks it.
fn change(
    alloc: Global,
    draft: &mut Draft,
    client: ClientId,
    number: u64,
) -> Result<Option<Block>, Oom>
    requires head { HasChange draft.old client number }
    requires new { (slot_at draft.old.image.slots client.0).call < number }
    ensures { IfOk result (Serves (λ start. Unit {0}) (Unit {0}) draft.old draft.new) }
{
    let call = change_of(draft, client, number);
    let planned = plan(alloc, draft, client, number, call)?;
    let blockers = blockers_of(alloc, draft, client, number, call, &planned)?;
    if is_free(&blockers) {
        let call = copy_of(call)?;
        carry_out(alloc, draft, client, number, call, planned)?;
        Ok(None)
    } else {
        let blocked = rest(draft, client, number, &blockers)?;
        Ok(blocked)
    }
}

/// The plan of a new change.
fn plan(
    alloc: Global,
    draft: &Draft,
    client: ClientId,
    number: u64,
    call: &Call,
) -> Result<Planned, Oom>
    requires client { client.0 < limits.clients }
    requires number { 1 ≤ number }
    requires change { is_change call.now ≡ true }
    ensures { IfOk result (IsPlanned draft.now client number call.now) }
{
    prove!(draft.image.clients() <= CLIENTS);
    let opened = opened_for(alloc, draft, call)?;
    let planned = draft
        .image
        .plan_change(alloc, client, number, call, opened.as_slice())?;
    Ok(planned)
}

/// What blocks a new change: all holds on what it touches, or else want of blocks.
fn blockers_of(
    alloc: Global,
    draft: &Draft,
    client: ClientId,
    number: u64,
    call: &Call,
    planned: &Planned,
) -> Result<Blockers, Oom>
    requires planned { IsPlanned draft.now client number call.now planned.now }
    requires new { (slot_at draft.now.image.slots client.0).call < number }
    ensures blockers { IfOk result (AreBlockers (known draft.now []) (as_request client number (Alters call.now))) }
    ensures askable { IfOk result CanBeAsked }
{
    let to_ask = table_of(draft).touchers(planned.plan.touches.as_slice())?;
    let own = BlockerList::new(alloc);
    let blockers = or_space(alloc, draft, planned.plan.needed, Blockers { to_ask, own })?;
    Ok(blockers)
}

/// Commits a change as it was planned, and answers it with the reply that its client's slot then keeps.
fn carry_out(
    alloc: Global,
    draft: &mut Draft,
    client: ClientId,
    number: u64,
    call: Call,
    planned: Planned,
) -> Result<(), Oom>
    requires head { IsHead draft.old (as_request client number (Alters call)) }
    requires new { (slot_at draft.old.image.slots client.0).call < number }
    requires planned { IsPlanned draft.old client number call planned }
    requires free { law.blocks (known draft.old []) (as_request client number (Alters call)) ≡ [] }
    ensures { OnOk result (Serves (λ start. Unit {0}) (Unit {0}) draft.old draft.new None) }
{
    commit(alloc, draft, client, number, call, planned)?;
    let reply = kept_reply(&draft.image, client, number);
    answer(draft, client, Message::Done { number, reply })?;
    Ok(())
}

/// Makes a change final, as it was planned.
fn commit(
    alloc: Global,
    draft: &mut Draft,
    client: ClientId,
    number: u64,
    call: Call,
    planned: Planned,
) -> Result<(), Oom>
    requires head { IsHead draft.old (as_request client number (Alters call)) }
    requires new { (slot_at draft.old.image.slots client.0).call < number }
    requires planned { IsPlanned draft.old client number call planned }
    ensures desk { OnOk result (draft.new.desk ≡ draft.old.desk) }
    ensures untold { OnOk result ((to : ℕ) → told_to to draft.new.acts ≡ told_to to draft.old.acts) }
    ensures image { OnOk result (draft.new.image ≡ edited draft.old.image (law.planned (known draft.old []) client number call).edit) }
    ensures goes { OnOk result (law.blocks (known draft.old []) (as_request client number (Alters call)) ≡ [] → Goes (λ start. Unit {0}) (Unit {0}) draft.old draft.new) }
{
    let Planned { plan, txn } = planned;
    let request = Request {
        client,
        number,
        asked: Asked::Change(call),
    };
    draft.commit(Commit {
        deed: Deed::Changes {
            request,
            reply: plan.reply,
            new_ino: plan.new_ino,
        },
        lays: Items::new(alloc),
        edit: plan.edit,
        homes: txn,
    })?;
    Ok(())
}

/// The reply that a client's slot keeps of its change of this number.
fn kept_reply(image: &Image, client: ClientId, number: u64) -> Reply
    requires client { client.0 < limits.clients }
    requires number { (slot_at image.now.slots client.0).call ≡ number }
    ensures kept { result ≡ (slot_at image.now.slots client.0).reply }
    ensures change { IsChangeReply result }
{
    match image.slot(client).judge(number) {
        Judged::Kept(reply) => reply,
        Judged::New => unreachable!(),
        Judged::Old => unreachable!(),
    }
}
