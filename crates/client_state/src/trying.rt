ghost use Rattle.std.specs.Prelude.{◌≡◌, ◌<◌, ◌+◌, ◌-◌, ◌^◌, [], true, if◌then◌else◌, None as Missing, Some as Given, IfOk, IfSome, OnOk};
ghost use Rattle.std.specs.Option.{option_to_list};
ghost use Rattle.cal_base.specs.Limits.{inodes};
ghost use Rattle.cal_base.specs.declared.identity.Ino.{Ino as Inode};
ghost use Rattle.client_cache.specs.declared.next_step.Next.TheVariants.{Answer, Flushes, LastClose};
ghost use Rattle.tree_law.specs.Change.{is_change};
ghost use Rattle.cluster_law.specs.ClientState.{request_of};
ghost use Rattle.client_book.specs.Booked.{sight_of};
ghost use Rattle.client_book.specs.Client.{goes_on_in};
ghost use Rattle.client_book.specs.Made.{asking_in, reply_to_in, trying_if_in};
ghost use Rattle.client_book.specs.Sound.{IsCalling, IsRequestOf};
ghost use Rattle.outbox.specs.Sending.{put_all, put_in};
ghost use Rattle.client_state.specs.Working.{IsDue, IsOwn, answered_with, asked_with, finished_with, made_trying, next_in, open_given_back, own_finish, request_for, without_open};

use crate::client::Client;
use crate::made::{Finished, Made};
use cal_base::{Ino, Oom};
use client_cache::Next;
use message::Message;
use outbox::Outbox;
use token_kind::{Class, Hold, HoldList, Release};
use tree_law::Call;

impl Client {
    /// Goes on with the outstanding call, behind what a step has made before.
    pub(crate) fn try_with(&mut self, out: Outbox) -> Result<Made, Oom>
        requires call { IfSome self.old.call (IsCalling self.old.calls) }
        requires calls { self.old.calls < 2 ^ 64 }
        requires flushes { self.old.memory.known.last_flush < 2 ^ 64 - 1 }
        ensures state { OnOk result (self.new ≡ goes_on_in true Missing self.old self.old.call) }
        ensures made { IfOk result (λ made. made ≡ made_trying self.old out) }
    {
        let mut out = out;
        let finished = self.try_call(&mut out)?;
        Ok(Made::of(out, finished))
    }

    /// Goes on with the outstanding call, if there is one: the call that this finishes.
    #[tactic(auto, unfolding(outbox::specs::Sending::put_all))]
    fn try_call(&mut self, out: &mut Outbox) -> Result<Option<Finished>, Oom>
        requires call { IfSome self.old.call (IsCalling self.old.calls) }
        requires calls { self.old.calls < 2 ^ 64 }
        requires flushes { self.old.memory.known.last_flush < 2 ^ 64 - 1 }
        ensures state { OnOk result (self.new ≡ goes_on_in true Missing self.old self.old.call) }
        ensures out { OnOk result (out.new ≡ put_all out.old (trying_if_in true self.old self.old.call)) }
        ensures finished { IfOk result (λ finished. finished ≡ finished_with self.old.call (reply_to_in true Missing self.old self.old.call)) }
    {
        match self.next() {
            None => Ok(None),
            Some(Next::Answer) => self.answer(),
            Some(Next::LastClose(ino)) => self.close_last(ino, out),
            Some(Next::Waits) => Ok(None),
            Some(Next::Flushes(ino)) => {
                self.memory.flush(ino, out)?;
                Ok(None)
            }
            Some(Next::Asks) => {
                self.ask(out)?;
                Ok(None)
            }
        }
    }

    /// What to do with the outstanding call.
    fn next(&self) -> Option<Next>
        requires { IfSome self.now.call (IsCalling self.now.calls) }
        ensures next { result ≡ next_in self.now }
        ensures answers { result ≡ Given Answer → IsOwn self.now }
        ensures closes { (ino : Inode) → result ≡ Given (LastClose ino) → IsOwn self.now × (ino.0 < inodes) }
        ensures flushes { (ino : Inode) → result ≡ Given (Flushes ino) → IsDue self.now.memory.known ino }
    {
        match &self.call {
            None => None,
            Some(call) => Some(self.memory.next(call)),
        }
    }

    /// Answers the outstanding call by what is held.
    fn answer(&mut self) -> Result<Option<Finished>, Oom>
        requires call { IfSome self.old.call (IsCalling self.old.calls) }
        requires own { IsOwn self.old }
        ensures state { OnOk result (self.new ≡ answered_with self.old self.old.call) }
        ensures finished { IfOk result (λ finished. finished ≡ own_finish self.old self.old.call) }
    {
        match self.call.take() {
            None => Ok(None),
            Some(call) => {
                let reply = self.memory.answer(&call)?;
                self.request = None;
                self.waits = false;
                Ok(Some(Finished { call, reply }))
            }
        }
    }

    /// Answers the last `close` of a file, and gives Open of it back.
    fn close_last(&mut self, ino: Ino, out: &mut Outbox) -> Result<Option<Finished>, Oom>
        requires call { IfSome self.old.call (IsCalling self.old.calls) }
        requires own { IsOwn self.old }
        requires ino { ino.0 < inodes }
        ensures state { OnOk result (self.new ≡ without_open (answered_with self.old self.old.call) ino) }
        ensures out { OnOk result (out.new ≡ put_in out.old (open_given_back ino)) }
        ensures finished { IfOk result (λ finished. finished ≡ own_finish self.old self.old.call) }
    {
        let finished = self.answer()?;
        self.memory.lower(ino, Class::Open, Hold::None);
        self.release_open(ino, out)?;
        Ok(finished)
    }

    fn release_open(&self, ino: Ino, out: &mut Outbox) -> Result<(), Oom>
        requires { ino.0 < inodes }
        ensures { OnOk result (out.new ≡ put_in out.old (open_given_back ino)) }
    {
        let mut items = HoldList::new(self.alloc);
        items.push((Class::Open, Hold::None))?;
        out.send(&Message::Release(Release { ino, items }))
    }

    /// Asks for what the outstanding call needs, unless a request is unanswered.
    #[tactic(auto, unfolding(outbox::specs::Sending::put_all))]
    fn ask(&mut self, out: &mut Outbox) -> Result<(), Oom>
        requires call { IfSome self.old.call (IsCalling self.old.calls) }
        requires calls { self.old.calls < 2 ^ 64 }
        ensures state { OnOk result (self.new ≡ asked_with self.old self.old.call) }
        ensures out { OnOk result (out.new ≡ put_all out.old (asking_in self.old.request (request_for self.old self.old.call))) }
    {
        if self.request.is_none() {
            self.request = self.request_now()?;
            self.send_request(out)?;
        }
        Ok(())
    }

    /// The request for the outstanding call.
    fn request_now(&self) -> Result<Option<Message>, Oom>
        requires call { IfSome self.now.call (IsCalling self.now.calls) }
        requires calls { self.now.calls < 2 ^ 64 }
        ensures request { IfOk result (λ request. request ≡ request_for self.now self.now.call) }
        ensures spelled { IfOk result (λ request. IfSome request (IsRequestOf self.now.calls)) }
    {
        match &self.call {
            None => Ok(None),
            Some(call) => self.request_of(call),
        }
    }

    fn request_of(&self, call: &Call) -> Result<Option<Message>, Oom>
        requires call { IsCalling self.now.calls call.now }
        requires calls { self.now.calls < 2 ^ 64 }
        ensures request { IfOk result (λ request. request ≡ request_of (sight_of self.now.memory.known) self.now.calls call.now) }
        ensures spelled { IfOk result (λ request. IfSome request (IsRequestOf self.now.calls)) }
    {
        if is_change(call) {
            return Ok(Some(Message::Change {
                number: self.calls,
                call: call.clone()?,
            }));
        }
        match self.memory.want(call)? {
            None => Ok(None),
            Some(want) => Ok(Some(Message::Acquire {
                number: self.calls,
                want,
            })),
        }
    }

    /// Sends the request that is unanswered, if it had to wait.
    #[tactic(auto, unfolding(outbox::specs::Sending::put_all))]
    pub(crate) fn send_request_if(&self, waited: bool, out: &mut Outbox) -> Result<(), Oom>
        requires { IfSome self.now.request (IsRequestOf self.now.calls) }
        ensures { OnOk result (out.new ≡ put_all out.old (if waited then option_to_list self.now.request else [])) }
    {
        if waited {
            return self.send_request(out);
        }
        Ok(())
    }

    /// Sends the request that is unanswered, if there is one.
    #[tactic(auto, unfolding(outbox::specs::Sending::put_all))]
    pub(crate) fn send_request(&self, out: &mut Outbox) -> Result<(), Oom>
        requires { IfSome self.now.request (IsRequestOf self.now.calls) }
        ensures { OnOk result (out.new ≡ put_all out.old (option_to_list self.now.request)) }
    {
        match &self.request {
            None => Ok(()),
            Some(message) => out.send(message),
        }
    }
}

/// Whether a call changes the tree: a server alone carries it out, and has its entry.
pub fn is_change(call: &Call) -> bool
    ensures { result ≡ is_change call.now }
{
    match call {
        Call::Create(_) => true,
        Call::Mkdir(_) => true,
        Call::Unlink(_) => true,
        Call::Rmdir(_) => true,
        Call::Rename(_, _) => true,
        Call::Open(_, _) => false,
        Call::Close(_) => false,
        Call::Read {
            fd: _,
            offset: _,
            len: _,
        } => false,
        Call::Write {
            fd: _,
            offset: _,
            bytes: _,
        } => false,
        Call::Truncate { fd: _, size: _ } => false,
        Call::Stat(_) => false,
        Call::Readdir(_) => false,
        Call::Fsync(_) => false,
    }
}
