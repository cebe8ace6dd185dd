ghost use Rattle.std.specs.Prelude.{◌≡◌, ◌<◌, ◌≤◌, ◌+◌, [], ℕ, false, length, None as Missing, IfOk, IfSome, IsTrue, OnOk};
ghost use Rattle.cal_base.specs.Limits as limits;
ghost use Rattle.message.specs.Range.{IsMessage};
ghost use Rattle.volume_names.specs.Named.{AreNamed};
ghost use Rattle.cluster_law.specs.Asking.{deserted};
ghost use Rattle.cluster_law.specs.Removing.{due};
ghost use Rattle.cluster_law.specs.ServerRules.{DealsWithOrphan, Occasion, Removes};
ghost use Rattle.cluster_law.specs.ServerState.{ServerState, is_admitted};
ghost use Rattle.server_removals.specs.Removals.{gone_in};
ghost use Rattle.server_draft.specs.Acts.{acts_of};
ghost use Rattle.server_draft.specs.Draft.{Follows, reached, told_or_waiting};
ghost use Rattle.server_reports.specs.Reports.{HasAdmittedNobody};
ghost use Rattle.server_opening.specs.Opens.{CanCome, GoesOut, Opens, begun, occasion, taken_of};
ghost use Rattle.server_opening.specs.Owed.{IsOwedFor, IsPaid, MayBeOwed};
ghost use Rattle.server_opening.specs.Ungranted.{HasGrantedNobody};
ghost use Rattle.server_opening.specs.declared.opening.Coming.TheVariants.{Message as Comes, Tick};

use crate::hearing::{Owed, hear};
use cal_base::{ClientId, Oom};
use image::Image;
use membership::Members;
use message::Message;
use server_desk::Desk;
use server_draft::Draft;
use server_flushes::take_flush;
use server_removals::{deal_with_orphan, least_due, purge};
use server_reports::answer_wait;
use std::alloc::Global;

/// What comes to a server in a step.
#[derive(Drop)]
pub enum Coming {
    /// Nothing that it takes.
    Nothing,
    /// The next message of a client.
    Message { client: ClientId, message: Message },
    /// A tick.
    Tick,
}

/// Takes what comes, and puts the first acts of the step to a draft: what the server owes for a message at once, or
/// what a tick removes. Requests that wait in line are not served yet.
pub fn open_step(
    alloc: Global,
    desk: Desk,
    image: Image,
    members: &Members,
    coming: Coming,
) -> Result<Draft, Oom>
    requires { CanCome coming }
    ensures opens { IfOk result (λ draft. (view : ℕ) (server : ServerState) → GoesOut view server desk image coming
        → Opens view (occasion view members.now (is_admitted server) coming) (begun view server coming) draft) }
    ensures few { IfOk result (λ draft. (to : ℕ) → told_or_waiting to draft ≤ length desk.requests + limits.inodes + 1) }
    ensures names { IfOk result (λ draft. AreNamed image → AreNamed draft.image) }
{
    match coming {
        Coming::Nothing => Ok(Draft::new(alloc, desk, image)),
        Coming::Message { client, message } => {
            let draft = answer(alloc, desk, image, client, message)?;
            Ok(draft)
        }
        Coming::Tick => {
            let draft = remove(alloc, desk, image, members)?;
            Ok(draft)
        }
    }
}

/// Hears a message, and answers it by itself where it waits or is a flush.
fn answer(
    alloc: Global,
    desk: Desk,
    image: Image,
    client: ClientId,
    message: Message,
) -> Result<Draft, Oom>
    requires client { client.0 < limits.clients }
    requires message { IsMessage message }
    ensures opens { IfOk result (λ draft. (view : ℕ) (o : Occasion) (server : ServerState) → GoesOut view server desk image (Comes client message) → o.took ≡ taken_of view (Comes client message) → o.tick ≡ false
        → Opens view o (begun view server (Comes client message)) draft) }
    ensures few { IfOk result (λ draft. (to : ℕ) → told_or_waiting to draft ≤ length desk.requests + 2) }
    ensures names { IfOk result (λ draft. AreNamed image → AreNamed draft.image) }
{
    let mut desk = desk;
    let owed = hear(&mut desk, &image, client, message)?;
    let mut draft = Draft::new(alloc, desk, image);
    pay(alloc, &mut draft, client, owed)?;
    Ok(draft)
}

/// Does what a server owes a client for a message at once. The step has done nothing yet.
fn pay(alloc: Global, draft: &mut Draft, client: ClientId, owed: Owed) -> Result<(), Oom>
    requires client { client.0 < limits.clients }
    requires owed { MayBeOwed owed }
    ensures follows { OnOk result ((view : ℕ) (o : Occasion) (start : ServerState) → Follows view o start draft.old → draft.old.acts ≡ [] → IsOwedFor o.took client owed → Follows view o start draft.new) }
    ensures paid { OnOk result ((view : ℕ) (o : Occasion) (start : ServerState) → Follows view o start draft.old → draft.old.acts ≡ [] → IsPaid draft.old.desk start client owed (acts_of view draft.new.acts)) }
    ensures nobody { OnOk result ((view : ℕ) → draft.old.acts ≡ [] → HasAdmittedNobody view draft.new.acts) }
    ensures ungranted { OnOk result ((view : ℕ) → draft.old.acts ≡ [] → HasGrantedNobody view draft.new.acts) }
    ensures few { OnOk result ((to : ℕ) → told_or_waiting to draft.new ≤ told_or_waiting to draft.old + 1) }
    ensures names { OnOk result (AreNamed draft.old.image → AreNamed draft.new.image) }
{
    match owed {
        Owed::Nothing => Ok(()),
        Owed::Wait(number) => {
            answer_wait(draft, client, number)?;
            Ok(())
        }
        Owed::Flush(flush) => {
            take_flush(alloc, draft, client, flush)?;
            Ok(())
        }
    }
}

/// What a tick removes: the client that is due, or else, where the server is admitted, an orphan that nobody uses.
fn remove(alloc: Global, desk: Desk, image: Image, members: &Members) -> Result<Draft, Oom>
    ensures opens { IfOk result (λ draft. (view : ℕ) (o : Occasion) (server : ServerState) → GoesOut view server desk image Tick → o.took ≡ Missing → o.gone ≡ gone_in members.now → IsTrue o.tick
        → Opens view o server draft) }
    ensures few { IfOk result (λ draft. (to : ℕ) → told_or_waiting to draft ≤ length desk.requests + limits.inodes) }
    ensures names { IfOk result (λ draft. AreNamed image → AreNamed draft.image) }
{
    let gone = least_due(&image, members);
    let mut draft = Draft::new(alloc, desk, image);
    remove_one(alloc, &mut draft, gone)?;
    Ok(draft)
}

/// Purges the client that is due, or else deals with an orphan. The step has done nothing yet.
fn remove_one(alloc: Global, draft: &mut Draft, gone: Option<ClientId>) -> Result<(), Oom>
    requires { IfSome gone (λ client. client.0 < limits.clients) }
    ensures follows { OnOk result ((view : ℕ) (o : Occasion) (start : ServerState) → Follows view o start draft.old → draft.old.acts ≡ [] → gone ≡ due o.gone start → IsTrue o.tick → Follows view o start draft.new) }
    ensures removed { OnOk result ((view : ℕ) (o : Occasion) (start : ServerState) → Follows view o start draft.old → draft.old.acts ≡ [] → gone ≡ due o.gone start → Removes start (reached view start draft.new) (acts_of view draft.new.acts) (due o.gone start)) }
    ensures nobody { OnOk result ((view : ℕ) → draft.old.acts ≡ [] → HasAdmittedNobody view draft.new.acts) }
    ensures ungranted { OnOk result ((view : ℕ) → draft.old.acts ≡ [] → HasGrantedNobody view draft.new.acts) }
    ensures few { OnOk result ((to : ℕ) → told_or_waiting to draft.new ≤ told_or_waiting to draft.old + limits.inodes) }
    ensures names { OnOk result (AreNamed draft.old.image → AreNamed draft.new.image) }
{
    match gone {
        Some(client) => {
            purge(alloc, draft, client)?;
            Ok(())
        }
        None => {
            deal_if_admitted(alloc, draft)?;
            Ok(())
        }
    }
}

/// Deals with an orphan, where the server is admitted. The step has done nothing yet.
fn deal_if_admitted(alloc: Global, draft: &mut Draft) -> Result<(), Oom>
    ensures follows { OnOk result ((view : ℕ) (o : Occasion) (start : ServerState) → Follows view o start draft.old → draft.old.acts ≡ [] → due o.gone start ≡ Missing → IsTrue o.tick → Follows view o start draft.new) }
    ensures deals { OnOk result ((view : ℕ) (o : Occasion) (start : ServerState) → Follows view o start draft.old → draft.old.acts ≡ [] → IsTrue (is_admitted start) → DealsWithOrphan start (reached view start draft.new) (acts_of view draft.new.acts) (deserted start)) }
    ensures nobody { OnOk result ((view : ℕ) → draft.old.acts ≡ [] → HasAdmittedNobody view draft.new.acts) }
    ensures ungranted { OnOk result ((view : ℕ) → draft.old.acts ≡ [] → HasGrantedNobody view draft.new.acts) }
    ensures few { OnOk result ((to : ℕ) → told_or_waiting to draft.new ≤ told_or_waiting to draft.old + limits.inodes) }
    ensures names { OnOk result (AreNamed draft.old.image → AreNamed draft.new.image) }
{
    match draft.desk.missing() {
        None => {
            deal_with_orphan(alloc, draft)?;
            Ok(())
        }
        Some(_) => Ok(()),
    }
}
