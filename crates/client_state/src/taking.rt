ghost use Rattle.std.specs.Prelude.{◌≡◌, ◌<◌, ◌+◌, ◌^◌, [], false, true, not, if◌then◌else◌, None as Missing, Some, IfOk, OnOk, length};
ghost use Rattle.cluster_law.specs.ClientState.{Takes, is_about, reply_if};
ghost use Rattle.message.specs.Range.{IsMessage};
ghost use Rattle.tree_law.specs.Change.{is_change};
ghost use Rattle.client_book.specs.Client.{goes_on_in, hears_in, state_of, value_after, without_request_in};
ghost use Rattle.client_book.specs.Made.{hearing_in, reply_to_in};
ghost use Rattle.outbox.specs.Sending.{put_all};
ghost use Rattle.client_book.specs.Sound.{IsClient};
ghost use Rattle.client_state.specs.Working.{finished_with, made_at};
ghost use Rattle.message.specs.declared.message.Message.TheVariants.{Admit, Ask, Done, Flushed, Grant, Refuse, Revoke as Revoked, Wait};

use crate::client::Client;
use crate::made::{Finished, Made};
use crate::trying::is_change;
use cal_base::{ClientId, Items, Oom};
use message::Message;
use outbox::Outbox;
use token_kind::{GrantItemList, Revoke};
use tree_law::{Call, Reply, Why};

impl Client {
    /// Takes a message, the next of the server's. What isn't for a client is passed over.
    #[tactic(auto, unfolding(client_book::specs::Client::value_after, client_book::specs::Client::hears_in, client_book::specs::Made::messages_in, client_book::specs::Made::reply_at))]
    pub fn take(&mut self, message: Message) -> Result<Made, Oom>
        requires client { IsClient self.old }
        requires message { IsMessage message }
        requires calls { self.old.calls < 2 ^ 63 }
        requires flushes { self.old.memory.known.last_flush + length self.old.memory.remembered < 2 ^ 63 }
        ensures state { OnOk result (self.new ≡ value_after self.old (Takes message)) }
        ensures made { IfOk result (λ made. made ≡ made_at self.old (Takes message)) }
    {
        match message {
            Message::Grant { number, items } => self.take_grant(number, items),
            Message::Refuse {
                number,
                free,
                needed,
            } => self.take_refuse(number, free, needed),
            Message::Done { number, reply } => self.take_done(number, reply),
            Message::Flushed { number } => self.take_flushed(number),
            Message::Revoke(revoke) => self.take_revoke(revoke),
            Message::Ask => self.take_ask(),
            Message::Wait { number, client } => self.take_wait(number, client),
            Message::Admit => self.take_admit(),
            Message::Acquire { number: _, want: _ } => Ok(Made::nothing(self.alloc)),
            Message::Change { number: _, call: _ } => Ok(Made::nothing(self.alloc)),
            Message::Flush(_) => Ok(Made::nothing(self.alloc)),
            Message::Release(_) => Ok(Made::nothing(self.alloc)),
            Message::Piece(_) => Ok(Made::nothing(self.alloc)),
        }
    }

    /// The items are taken, and the outstanding call is tried.
    #[tactic(auto, unfolding(client_book::specs::Client::value_after), using(crate::proofs::Heard::room_heard, crate::proofs::Heard::calling_heard, crate::proofs::Heard::calls_heard, crate::proofs::Heard::made_grant))]
    fn take_grant(&mut self, number: u64, items: GrantItemList) -> Result<Made, Oom>
        requires client { IsClient self.old }
        requires message { IsMessage (Grant number items) }
        requires calls { self.old.calls < 2 ^ 63 }
        requires flushes { self.old.memory.known.last_flush + length self.old.memory.remembered < 2 ^ 63 }
        ensures state { OnOk result (self.new ≡ value_after self.old (Takes (Grant number items))) }
        ensures made { IfOk result (λ made. made ≡ made_at self.old (Takes (Grant number items))) }
    {
        let out = self.outbox();
        self.hear_grant(number, items);
        self.try_with(out)
    }

    #[tactic(auto, unfolding(client_book::specs::Client::hears_in))]
    fn hear_grant(&mut self, number: u64, items: GrantItemList)
        requires { IsMessage (Grant number items) }
        ensures { self.new ≡ hears_in self.old (Takes (Grant number items)) }
    {
        let answers = self.is_about(false, number);
        self.drop_request_if(answers);
        self.memory.take(items);
    }

    /// Blocks are wanting for the outstanding call.
    #[tactic(auto, unfolding(client_book::specs::Client::value_after, client_book::specs::Client::hears_in, client_book::specs::Made::messages_in, client_book::specs::Made::reply_at), using(crate::proofs::Outgoing::all_sent, crate::proofs::Outgoing::both_sent))]
    fn take_refuse(&mut self, number: u64, free: u16, needed: u16) -> Result<Made, Oom>
        ensures state { OnOk result (self.new ≡ value_after self.old (Takes (Refuse number free needed))) }
        ensures made { IfOk result (λ made. made ≡ made_at self.old (Takes (Refuse number free needed))) }
    {
        let answers = self.is_about(false, number);
        let finished = self.finish_if(answers, Reply::Refused(Why::NoSpace { free, needed }));
        Ok(Made {
            bodies: Items::new(self.alloc),
            finished,
        })
    }

    /// The server has carried out the outstanding call, a change.
    #[tactic(auto, unfolding(client_book::specs::Client::value_after, client_book::specs::Client::hears_in, client_book::specs::Made::messages_in, client_book::specs::Made::reply_at), using(crate::proofs::Outgoing::all_sent, crate::proofs::Outgoing::both_sent))]
    fn take_done(&mut self, number: u64, reply: Reply) -> Result<Made, Oom>
        ensures state { OnOk result (self.new ≡ value_after self.old (Takes (Done number reply))) }
        ensures made { IfOk result (λ made. made ≡ made_at self.old (Takes (Done number reply))) }
    {
        let answers = self.is_about(true, number);
        let finished = self.finish_if(answers, reply);
        Ok(Made {
            bodies: Items::new(self.alloc),
            finished,
        })
    }

    /// A flush is done: what waited behind it is given up, and the outstanding call is tried.
    #[tactic(auto, unfolding(client_book::specs::Client::value_after), using(crate::proofs::Heard::room_heard, crate::proofs::Heard::calling_heard, crate::proofs::Heard::calls_heard, crate::proofs::Heard::made_flushed))]
    fn take_flushed(&mut self, number: u64) -> Result<Made, Oom>
        requires client { IsClient self.old }
        requires message { IsMessage (Flushed number) }
        requires calls { self.old.calls < 2 ^ 63 }
        requires flushes { self.old.memory.known.last_flush + length self.old.memory.remembered < 2 ^ 63 }
        ensures state { OnOk result (self.new ≡ value_after self.old (Takes (Flushed number))) }
        ensures made { IfOk result (λ made. made ≡ made_at self.old (Takes (Flushed number))) }
    {
        let mut out = self.outbox();
        self.hear_flushed(number, &mut out)?;
        self.try_with(out)
    }

    #[tactic(auto, unfolding(client_book::specs::Client::hears_in))]
    fn hear_flushed(&mut self, number: u64, out: &mut Outbox) -> Result<(), Oom>
        requires { self.old.memory.known.last_flush + length self.old.memory.remembered < 2 ^ 63 }
        ensures state { OnOk result (self.new ≡ hears_in self.old (Takes (Flushed number))) }
        ensures out { OnOk result (out.new ≡ put_all out.old (hearing_in self.old.memory (Takes (Flushed number)))) }
    {
        self.memory.flushed(number, out)
    }

    #[tactic(auto, unfolding(client_book::specs::Client::value_after, client_book::specs::Client::hears_in, client_book::specs::Made::messages_in, client_book::specs::Made::reply_at), using(crate::proofs::Outgoing::all_sent, crate::proofs::Outgoing::both_sent))]
    fn take_revoke(&mut self, revoke: Revoke) -> Result<Made, Oom>
        requires message { IsMessage (Revoked revoke) }
        requires flushes { self.old.memory.known.last_flush + length self.old.memory.remembered < 2 ^ 63 }
        ensures state { OnOk result (self.new ≡ value_after self.old (Takes (Revoked revoke))) }
        ensures made { IfOk result (λ made. made ≡ made_at self.old (Takes (Revoked revoke))) }
    {
        let mut out = self.outbox();
        self.memory.revoke(revoke, &mut out)?;
        Ok(Made::of(out, None))
    }

    /// The request has to wait until the client is admitted.
    #[tactic(auto, unfolding(client_book::specs::Client::value_after, client_book::specs::Client::hears_in, client_book::specs::Made::messages_in, client_book::specs::Made::reply_at), using(crate::proofs::Outgoing::all_sent, crate::proofs::Outgoing::both_sent))]
    fn take_wait(&mut self, number: u64, client: ClientId) -> Result<Made, Oom>
        ensures state { OnOk result (self.new ≡ value_after self.old (Takes (Wait number client))) }
        ensures made { IfOk result (λ made. made ≡ made_at self.old (Takes (Wait number client))) }
    {
        let waits = number == self.calls && self.request.is_some();
        self.waits = self.waits || waits;
        Ok(Made::nothing(self.alloc))
    }

    /// A new server asks: the client reports what it holds, and sends its request again.
    #[tactic(auto, unfolding(client_book::specs::Client::value_after, client_book::specs::Client::hears_in), using(crate::proofs::Heard::made_ask))]
    fn take_ask(&mut self) -> Result<Made, Oom>
        requires client { IsClient self.old }
        ensures state { OnOk result (self.new ≡ value_after self.old (Takes Ask)) }
        ensures made { IfOk result (λ made. made ≡ made_at self.old (Takes Ask)) }
    {
        self.moving = true;
        self.waits = false;
        let mut out = Outbox::new(self.alloc, false);
        self.send_report(&mut out)?;
        self.send_request(&mut out)?;
        Ok(Made::of(out, None))
    }

    /// The server serves: the flushes that were kept back go, and the request if it had to wait.
    #[tactic(auto, unfolding(client_book::specs::Client::value_after, client_book::specs::Client::hears_in), using(crate::proofs::Heard::made_admit))]
    fn take_admit(&mut self) -> Result<Made, Oom>
        requires client { IsClient self.old }
        ensures state { OnOk result (self.new ≡ value_after self.old (Takes Admit)) }
        ensures made { IfOk result (λ made. made ≡ made_at self.old (Takes Admit)) }
    {
        let waited = self.waits;
        self.moving = false;
        self.waits = false;
        let mut out = Outbox::new(self.alloc, false);
        self.send_flushes(&mut out)?;
        self.send_request_if(waited, &mut out)?;
        Ok(Made::of(out, None))
    }

    /// An outbox for a step: it keeps flushes back while the client is moving.
    pub(crate) fn outbox(&self) -> Outbox
        ensures { result ≡ record { moving = self.now.moving; bodies = [] } }
    {
        Outbox::new(self.alloc, self.moving)
    }

    /// Whether an answer of the server is about the outstanding call: that of a change, or of another call.
    fn is_about(&self, change: bool, number: u64) -> bool
        ensures { result ≡ is_about change number (state_of self.now) self.now.call }
    {
        match &self.call {
            None => false,
            Some(call) => number == self.calls && is_of_kind(change, call),
        }
    }

    fn drop_request_if(&mut self, answers: bool)
        ensures { self.new ≡ without_request_in answers self.old }
    {
        if answers {
            self.request = None;
            self.waits = false;
        }
    }

    /// The outstanding call is finished by the server, if its answer is about it.
    fn finish_if(&mut self, answers: bool, reply: Reply) -> Option<Finished>
        ensures state { self.new ≡ goes_on_in false (reply_if answers reply) self.old self.old.call }
        ensures finished { result ≡ finished_with self.old.call (reply_to_in false (reply_if answers reply) self.old self.old.call) }
    {
        if answers { self.finish(reply) } else { None }
    }

    fn finish(&mut self, reply: Reply) -> Option<Finished>
        ensures state { self.new ≡ goes_on_in false (Some reply) self.old self.old.call }
        ensures finished { result ≡ finished_with self.old.call (Some reply) }
    {
        match self.call.take() {
            None => None,
            Some(call) => {
                self.request = None;
                self.waits = false;
                Some(Finished { call, reply })
            }
        }
    }
}

/// Whether a call is a change, or whether it is none.
fn is_of_kind(change: bool, call: &Call) -> bool
    ensures { result ≡ (if change then is_change call.now else not (is_change call.now)) }
{
    if change {
        is_change(call)
    } else {
        !is_change(call)
    }
}
