ghost use Rattle.std.specs.Prelude.{◌≡◌, ◌≢◌, ◌<◌, ◌+◌, ◌^◌, ◌↔◌, None as Missing, IsTrue, IfOk, OnOk, length};
ghost use Rattle.client_cache.specs.Covered.{covered};
ghost use Rattle.client_cache.specs.IsKnown.{IsKnown};
ghost use Rattle.cluster_law.specs.ClientState.{Starts, WritesBack};
ghost use Rattle.client_book.specs.Client.{hears_in, value_after};
ghost use Rattle.client_book.specs.Sound.{IsCall, IsClient, first_value};
ghost use Rattle.client_state.specs.Working.{made_at};

use crate::made::Made;
use cal_base::Oom;
use client_memory::Memory;
use message::Message;
use std::alloc::Global;
use std::marker::Model;
use tree_law::Call;

/// A client beside its session.
#[derive(Drop)]
pub struct Client {
    pub(crate) alloc: Global,
    /// A server has asked for a report, and hasn't admitted the client since.
    pub(crate) moving: bool,
    /// How many calls were started.
    pub(crate) calls: u64,
    pub(crate) call: Option<Call>,
    /// The request for that call that is unanswered.
    pub(crate) request: Option<Message>,
    /// The server has answered the request by Wait.
    pub(crate) waits: bool,
    pub(crate) memory: Memory,
}

impl Model for Client {
    ghost use Rattle.client_book.specs.Client.{ClientValue};

    ghost Value = { ClientValue };

    ghost view = { λ it. record { moving = it.moving; calls = it.calls; call = it.call; request = it.request; waits = it.waits; memory = it.memory } };
}

impl Client {
    /// A client that knows nothing, holds nothing and has started no call; it counts as admitted.
    pub fn new(alloc: Global) -> Result<Client, Oom>
        ensures { IfOk result (λ client. client ≡ first_value) }
    {
        Ok(Client {
            alloc,
            moving: false,
            calls: 0,
            call: None,
            request: None,
            waits: false,
            memory: Memory::new(alloc)?,
        })
    }

    /// Starts a call, the next by its number, where none is outstanding.
    #[tactic(auto, unfolding(client_book::specs::Client::value_after), using(crate::proofs::Heard::room_heard, crate::proofs::Heard::calling_heard, crate::proofs::Heard::calls_heard, crate::proofs::Heard::made_start))]
    pub fn start(&mut self, call: Call) -> Result<Made, Oom>
        requires client { IsClient self.old }
        requires call { IsCall call }
        requires free { self.old.call ≡ Missing }
        requires calls { self.old.calls < 2 ^ 63 }
        requires flushes { self.old.memory.known.last_flush + length self.old.memory.remembered < 2 ^ 63 }
        ensures state { OnOk result (self.new ≡ value_after self.old (Starts call)) }
        ensures made { IfOk result (λ made. made ≡ made_at self.old (Starts call)) }
    {
        let out = self.outbox();
        self.begin(call);
        self.try_with(out)
    }

    #[tactic(auto, unfolding(client_book::specs::Client::hears_in))]
    fn begin(&mut self, call: Call)
        requires { self.old.calls < 2 ^ 63 }
        ensures { self.new ≡ hears_in self.old (Starts call) }
    {
        self.calls += 1;
        self.call = Some(call);
    }

    /// Flushes the file behind a descriptor, if something of it is unflushed and no flush of it is under way.
    #[tactic(auto, unfolding(client_book::specs::Client::value_after, client_book::specs::Client::hears_in, client_book::specs::Made::messages_in, client_book::specs::Made::reply_at), using(crate::proofs::Outgoing::all_sent, crate::proofs::Outgoing::both_sent))]
    pub fn write_back(&mut self, fd: u8) -> Result<Made, Oom>
        requires client { IsClient self.old }
        requires flushes { self.old.memory.known.last_flush + length self.old.memory.remembered < 2 ^ 63 }
        ensures state { OnOk result (self.new ≡ value_after self.old (WritesBack fd)) }
        ensures made { IfOk result (λ made. made ≡ made_at self.old (WritesBack fd)) }
    {
        let mut out = self.outbox();
        self.memory.write_back(fd, &mut out)?;
        Ok(Made::of(out, None))
    }

    /// Whether the call would be answered by what is held, without a message.
    pub fn covers(&self, call: &Call) -> bool
        requires { IsCall call.now }
        ensures { result ≡ covered self.now.memory.known call.now }
    {
        self.memory.cache().covers(call)
    }

    /// How many calls were started.
    pub fn calls(&self) -> u64
        ensures { result ≡ self.now.calls }
    {
        self.calls
    }

    /// The number of the last flush that was started; and what a cache's type keeps.
    pub fn last_flush(&self) -> u64
        ensures value { result ≡ self.now.memory.known.last_flush }
        ensures known { IsKnown self.now.memory.known }
    {
        self.memory.last_flush()
    }

    /// Whether a call is outstanding.
    pub fn busy(&self) -> bool
        ensures { IsTrue result ↔ (self.now.call ≢ Missing) }
    {
        self.call.is_some()
    }
}
