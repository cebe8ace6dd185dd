ghost use Rattle.std.specs.Prelude.{◌≡◌, ◌<◌, ◌≤◌, ◌+◌, ◌∷◌, [], ◌++◌, ℕ, Bool, All, IfOk, IsTrue, OnOk, drop, map};
ghost use Rattle.cal_base.specs.Limits as limits;
ghost use Rattle.message.specs.Range.{IsMessage};
ghost use Rattle.message.specs.declared.message.Message.{Message};
ghost use Rattle.revocation.specs.Formed.{AreAskable};
ghost use Rattle.revocation.specs.Revokes.{AsksAll, revokes_of};
ghost use Rattle.shared_disk.specs.Sectors.{written};
ghost use Rattle.volume.specs.Stands.{AreBlocksKept};
ghost use Rattle.volume_edit.specs.Blocks.{TakesFree};
ghost use Rattle.volume_edit.specs.Edit.{IsEdit, edited};
ghost use Rattle.cluster_law.specs.Asking.{was_told};
ghost use Rattle.cluster_law.specs.ServerRules.{ActsWell, EachAct, Occasion};
ghost use Rattle.cluster_law.specs.ServerState.{ServerState, after_act, doing, telling};
ghost use Rattle.server_book.specs.Alike.{revoking};
ghost use Rattle.server_desk.specs.Desk.{IsLike};
ghost use Rattle.server_draft.specs.Acts.{CanBeDone, act_of, acts_of, asked_back, deed_of, places, places_of, tells, told_to};
ghost use Rattle.server_draft.specs.Draft.{Begins, Follows, HasSpace, IsWithin, reached};
ghost use Rattle.server_draft.specs.declared.act.Act.TheVariants.{Tells, Commits, Drops};

use crate::act::{Act, Commit};
use crate::acts::Acts;
use cal_base::{CLIENTS, ClientId, Oom, Sector};
use image::Image;
use message::Message;
use revocation::RevokeList;
use server_desk::Desk;
use std::alloc::Global;
use token_kind::{Blocker, Revoke};
use volume_edit::Edit;

/// What a server knows as the acts that it has planned leave it, and these acts. After want of memory in a call
/// nothing is promised of it.
#[derive(Drop)]
pub struct Draft {
    /// Holds and requests.
    pub desk: Desk,
    /// The volume.
    pub image: Image,
    /// The acts, in order.
    pub acts: Acts,
}

impl Draft {
    /// A draft without an act. It takes no memory.
    pub fn new(alloc: Global, desk: Desk, image: Image) -> Draft
        ensures draft { result ≡ record { desk = desk; image = image; acts = [] } }
        ensures follows { (view : ℕ) (o : Occasion) (start : ServerState) → Begins start result → Follows view o start result }
    {
        Draft {
            desk,
            image,
            acts: Acts::new(alloc),
        }
    }

    /// A message is made for a client. The desk stands as the message leaves it already.
    pub fn tell(&mut self, client: ClientId, message: Message) -> Result<(), Oom>
        requires client { client.0 < limits.clients }
        requires message { IsMessage message }
        ensures state { OnOk result (self.new ≡ record self.old { acts = self.old.acts ++ Tells client message ∷ [] }) }
        ensures follows { OnOk result ((view : ℕ) (o : Occasion) (start : ServerState) (before : Draft) → Follows view o start before → self.old.image ≡ before.image → self.old.acts ≡ before.acts
            → IsLike self.old.desk (telling (reached view start before) client message) → HasSpace (telling (reached view start before) client message)
            → ActsWell o start (reached view start before) (acts_of view before.acts) (act_of view (Tells client message)) → Follows view o start self.new) }
        ensures acts { OnOk result ((view : ℕ) → acts_of view self.new.acts ≡ act_of view (Tells client message) ∷ acts_of view self.old.acts) }
        ensures told { OnOk result ((view : ℕ) (test : Message → Bool) → IsTrue (test message) → IsTrue (was_told client.0 test (acts_of view self.new.acts))) }
        ensures count { OnOk result ((to : ℕ) → told_to to self.new.acts ≡ told_to to self.old.acts + tells to (Tells client message)) }
    {
        self.acts.tell(client, message)?;
        Ok(())
    }

    /// The request at the head of the line is dropped.
    pub fn drop_head(&mut self) -> Result<(), Oom>
        ensures state { OnOk result (self.new ≡ record self.old { desk = record self.old.desk { requests = drop 1 self.old.desk.requests }; acts = self.old.acts ++ Drops ∷ [] }) }
        ensures acts { OnOk result ((view : ℕ) → acts_of view self.new.acts ≡ act_of view Drops ∷ acts_of view self.old.acts) }
        ensures count { OnOk result ((to : ℕ) → told_to to self.new.acts ≡ told_to to self.old.acts) }
        ensures follows { OnOk result ((view : ℕ) (o : Occasion) (start : ServerState) → Follows view o start self.old
            → ActsWell o start (reached view start self.old) (acts_of view self.old.acts) (act_of view Drops) → Follows view o start self.new) }
    {
        self.desk.drop_head();
        self.acts.drop_head()?;
        Ok(())
    }

    /// A deed is made final: its edit is made of the volume. The desk stands as the deed leaves it already.
    pub fn commit(&mut self, commit: Commit) -> Result<(), Oom>
        requires edit { IsEdit self.old.image commit.edit }
        requires lays { All (λ lay. lay.0 < limits.sectors) commit.lays }
        ensures state { OnOk result (self.new ≡ record self.old { image = edited self.old.image commit.edit; acts = self.old.acts ++ Commits commit ∷ [] }) }
        ensures acts { OnOk result ((view : ℕ) → acts_of view self.new.acts ≡ act_of view (Commits commit) ∷ acts_of view self.old.acts) }
        ensures count { OnOk result ((to : ℕ) → told_to to self.new.acts ≡ told_to to self.old.acts) }
        ensures follows { OnOk result ((view : ℕ) (o : Occasion) (start : ServerState) (before : Draft) → Follows view o start before → self.old.image ≡ before.image → self.old.acts ≡ before.acts
            → TakesFree before.image commit.edit → IsLike self.old.desk (doing (reached view start before) (deed_of commit.deed)) → HasSpace (after_act (reached view start before) (act_of view (Commits commit)))
            → ActsWell o start (reached view start before) (acts_of view before.acts) (act_of view (Commits commit)) → Follows view o start self.new) }
    {
        alter(&mut self.image, &commit.edit);
        self.acts.commit(commit)?;
        Ok(())
    }

    /// Asks clients back what blocks: one Revoke is made for each client and inode, for the holds that weren't yet
    /// asked to that mode or a lower one. Open is never asked back.
    pub fn revoke(&mut self, blockers: &[Blocker]) -> Result<(), Oom>
        requires askable { AreAskable blockers.now }
        requires within { All IsWithin blockers.now }
        ensures desk { OnOk result (AsksAll self.old.desk.asked self.new.desk.asked blockers.now × (self.new.desk ≡ record self.old.desk { asked = self.new.desk.asked })) }
        ensures image { OnOk result (self.new.image ≡ self.old.image) }
        ensures grows { OnOk result (self.new.acts ≡ self.old.acts ++ map asked_back (revokes_of self.old.desk.asked blockers.now)) }
        ensures acts { OnOk result ((view : ℕ) → acts_of view self.new.acts ≡ revoking view (revokes_of self.old.desk.asked blockers.now) (acts_of view self.old.acts)) }
        ensures few { OnOk result ((to : ℕ) → told_to to self.new.acts ≤ told_to to self.old.acts + limits.inodes) }
        ensures follows { OnOk result ((view : ℕ) (o : Occasion) (start : ServerState) → Follows view o start self.old
            → EachAct start (ActsWell o start) (revoking view (revokes_of self.old.desk.asked blockers.now) (acts_of view self.old.acts)) → Follows view o start self.new) }
    {
        let revokes = self.desk.revoke(blockers)?;
        ask_all_back(&mut self.acts, revokes)?;
        Ok(())
    }

    /// What the acts write in their places, to lay it over what is read of the disk: the blocks and the homes of
    /// each commit, in order.
    pub fn places(&self, alloc: Global) -> Result<Vec<(u32, Sector)>, Oom>
        ensures places { IfOk result (λ writes. writes.items ≡ places self.now.acts) }
        ensures reached { (view : ℕ) (start : ServerState) → (reached view start self.now).sectors ≡ written start.sectors (places self.now.acts) }
    {
        let writes = all_places(alloc, self.acts.as_slice())?;
        Ok(writes)
    }
}

/// Makes an edit of the volume. Where it takes free blocks alone, each block stays in one use.
fn alter(image: &mut Image, edit: &Edit)
    requires { IsEdit image.old edit.now }
    ensures edited { image.new ≡ edited image.old edit.now }
    ensures kept { TakesFree image.old edit.now → AreBlocksKept image.old → AreBlocksKept image.new }
{
    prove!(image.clients() <= CLIENTS);
    image.apply(edit);
}

/// Makes these Revokes, in order.
fn ask_all_back(acts: &mut Acts, revokes: RevokeList) -> Result<(), Oom>
    requires { All (λ sent. CanBeDone (asked_back sent)) revokes }
    ensures { OnOk result (acts.new ≡ acts.old ++ map asked_back revokes) }
{
    for sent in revokes.into_vec() {
        ask_back(acts, sent)?;
    }
    Ok(())
}

/// Makes a Revoke for a client.
fn ask_back(acts: &mut Acts, sent: (ClientId, Revoke)) -> Result<(), Oom>
    requires { CanBeDone (asked_back sent) }
    ensures { OnOk result (acts.new ≡ acts.old ++ asked_back sent ∷ []) }
{
    let (client, revoke) = sent;
    acts.tell(client, Message::Revoke(revoke))?;
    Ok(())
}

/// What these acts write in their places, in order.
fn all_places(alloc: Global, acts: &[Act]) -> Result<Vec<(u32, Sector)>, Oom>
    ensures { IfOk result (λ writes. writes.items ≡ places acts.now) }
{
    let mut writes = Vec::new(alloc);
    for act in acts {
        put_places(act, &mut writes)?;
    }
    Ok(writes)
}

/// Puts what an act writes in its places behind other writes.
fn put_places(act: &Act, writes: &mut Vec<(u32, Sector)>) -> Result<(), Oom>
    ensures { OnOk result (writes.new.items ≡ writes.old.items ++ places_of act.now) }
{
    if let Act::Commits(commit) = act {
        writes.extend_from_slice(commit.lays.as_slice())?;
        writes.extend_from_slice(commit.homes.homes())?;
    }
    Ok(())
}
