ghost use Rattle.std.specs.Prelude.{◌≡◌, ◌≢◌, ◌<◌, ◌+◌, ◌^◌, ◌↔◌, [], None as Missing, IsTrue, IfOk};
ghost use Rattle.std.specs.Option.{option_to_list};
ghost use Rattle.cal_base.specs.declared.identity.NodeId.TheVariants.{Client, Server};
ghost use Rattle.cal_base.specs.declared.identity.ServerId.TheVariants.{A};
ghost use Rattle.client_cache.specs.Covered.{covered};
ghost use Rattle.cluster_law.specs.declared.node.ClientInput.TheVariants.{Start};
ghost use Rattle.session.specs.Session.{new_session, unacknowledged};
ghost use Rattle.client_book.specs.Sound.{IsCall, KeepsLaw, MayCome, first_value};
ghost use Rattle.client_book.specs.Made.{messages_in};
ghost use Rattle.client_node.specs.Node.{turn_in, takes_packet, MayStart};
ghost use Rattle.client_node.specs.Step.{AnswersCovered, Gives, node_after};

use crate::ends::Ends;
use cal_base::{ClientId, NodeId, Oom, ServerId, View};
use client_state::is_call;
use cluster_law::{ClientInput, ClientOutput};
use session::Packet;
use std::alloc::Global;
use std::marker::Model;
use tree_law::Call;

/// A client with its session, by steps.
#[derive(Drop)]
pub struct ClientNode {
    ends: Ends,
}

impl Model for ClientNode {
    ghost use Rattle.client_node.specs.Node.{IsNode, NodeValue};

    ghost Value = { NodeValue };

    ghost view = { λ it. it.ends };

    ghost invariant = { λ it. IsNode it.ends };
}

impl ClientNode {
    /// A client that has done nothing yet, in view 1, whose server is A and has admitted it.
    pub fn new(alloc: Global, id: ClientId) -> Result<ClientNode, Oom>
        ensures { IfOk result (λ node. node ≡ record { id = id; session = new_session (Client id) (Server A) (record { 0 = 1 }); client = first_value; steps = 0 }) }
    {
        let ends = Ends::new(alloc, id)?;
        Ok(ClientNode { ends })
    }

    /// Makes one step. A call starts where none is outstanding, and is one that its grammar spells; packets are
    /// free. A node makes 2^48 steps. It is handed over and comes back with what the step gives: after want of
    /// memory it is spent.
    ///
    /// A packet of the session is heard; one of a higher view only if it is the first of that view's session, an
    /// Ask of its server, and it moves the client there. Any other packet does nothing, and bytes that are no
    /// message are taken and come to nothing.
    #[tactic(auto, using(crate::proofs::Counts::node_stays, crate::proofs::Counts::step_keeps, crate::proofs::Covered::at_once))]
    pub fn step(self, input: ClientInput) -> Result<(ClientNode, ClientOutput), Oom>
        requires steps { self.steps < 2 ^ 48 }
        requires call { MayStart self input }
        ensures state { IfOk result (λ made. made.0 ≡ node_after self input) }
        ensures gives { IfOk result (λ made. Gives self input made.1) }
        ensures covered { IfOk result (λ made. AnswersCovered self input made.1) }
        ensures law { IfOk result (λ made. MayCome self.client (turn_in self input)
            → KeepsLaw self.id.0 self.client made.0.client (turn_in self input) (messages_in self.client (turn_in self input)) made.1.answer (option_to_list made.1.entry)) }
    {
        let ClientNode { mut ends } = self;
        let output = ends.step(input)?;
        Ok((ClientNode { ends }, output))
    }

    /// Whether the call would be answered by what is held, without a packet.
    pub fn covers(&self, call: &Call) -> bool
        requires { IsCall call.now }
        ensures { result ≡ covered self.now.client.memory.known call.now }
    {
        self.ends.client.covers(call)
    }

    /// Whether a tick would send nothing: all messages are acknowledged. It takes no memory.
    pub fn idle(&self) -> bool
        ensures { IsTrue result ↔ (unacknowledged self.now.session ≡ []) }
    {
        self.ends.session.is_quiet()
    }

    /// Whether this call may start: none is outstanding, and it is one that its grammar spells.
    pub fn may_start(&self, call: &Call) -> bool
        ensures { IsTrue result ↔ MayStart self.now (Start call.now) }
    {
        !self.busy() && is_call(call)
    }

    /// Whether a call is outstanding.
    pub fn busy(&self) -> bool
        ensures { IsTrue result ↔ (self.now.client.call ≢ Missing) }
    {
        self.ends.client.busy()
    }

    /// How many calls were started.
    pub fn calls(&self) -> u64
        ensures { result ≡ self.now.client.calls }
    {
        self.ends.client.calls()
    }

    /// Whether the packet brings the client's next message, so that a step takes it; bytes that are no message count
    /// too. It takes no memory.
    pub fn takes(&self, packet: &Packet) -> bool
        ensures { result ≡ takes_packet self.now packet.now }
    {
        self.ends.takes(packet)
    }

    /// How many steps were made.
    pub fn steps(&self) -> u64
        ensures { result ≡ self.now.steps }
    {
        self.ends.steps
    }
}
