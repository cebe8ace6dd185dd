ghost use Rattle.std.specs.Prelude.{◌≡◌, ◌<◌, ◌+◌, ◌^◌, ◌++◌, IfOk, OnOk, length};
ghost use Rattle.std.specs.Option.{option_to_list};
ghost use Rattle.cal_base.specs.declared.identity.NodeId.TheVariants.{Client as IsClientId, Server as IsServer};
ghost use Rattle.cal_base.specs.declared.identity.ServerId.TheVariants.{A as ServerA};
ghost use Rattle.client_cache.specs.IsKnown.{IsKnown};
ghost use Rattle.session.specs.Session.{new_session, tick_packet};
ghost use Rattle.cluster_law.specs.Ends.{making};
ghost use Rattle.cluster_law.specs.declared.node.ClientInput.TheVariants.{Start, Tick, WriteBack};
ghost use Rattle.client_book.specs.Sound.{HasSpelling, first_value};
ghost use Rattle.client_node.specs.Node.{IsNode, MayStart, turn_in};
ghost use Rattle.client_node.specs.Step.{Gives, answer_for, entry_for, goes_on_at, node_after, packets_with};

use crate::outgoing::{output, send_all};
use cal_base::{ClientId, Items, NodeId, Oom, ServerId, View};
use client_state::{Client, Made};
use cluster_law::{ClientInput, ClientOutput};
use session::{Packet, Session};
use std::alloc::Global;
use std::marker::Model;
use tree_law::Call;

/// A client and its end of the session, of which nothing is promised between two parts of a step.
#[derive(Drop)]
pub struct Ends {
    pub(crate) alloc: Global,
    pub(crate) id: ClientId,
    pub(crate) session: Session,
    pub(crate) client: Client,
    pub(crate) steps: u64,
}

impl Model for Ends {
    ghost use Rattle.client_node.specs.Node.{NodeValue};

    ghost Value = { NodeValue };

    ghost view = { λ it. record { id = it.id; session = it.session; client = it.client; steps = it.steps } };
}

impl Ends {
    pub(crate) fn new(alloc: Global, id: ClientId) -> Result<Ends, Oom>
        ensures { IfOk result (λ ends. ends ≡ record { id = id; session = new_session (IsClientId id) (IsServer ServerA) (record { 0 = 1 }); client = first_value; steps = 0 }) }
    {
        let me = NodeId::Client(id);
        let session = Session::new(alloc, me, NodeId::Server(ServerId::A), View(1))?;
        Ok(Ends {
            alloc,
            id,
            session,
            client: Client::new(alloc)?,
            steps: 0,
        })
    }

    /// Makes a step.
    pub(crate) fn step(&mut self, input: ClientInput) -> Result<ClientOutput, Oom>
        requires node { IsNode self.old }
        requires steps { self.old.steps < 2 ^ 48 }
        requires call { MayStart self.old input }
        ensures state { OnOk result (self.new ≡ node_after self.old input) }
        ensures gives { IfOk result (Gives self.old input) }
        ensures spelled { OnOk result (HasSpelling (turn_in self.old input)) }
        ensures known { OnOk result (IsKnown self.new.client.memory.known) }
    {
        let output = self.go_on(input)?;
        self.steps += 1;
        // A cache tells what its type keeps.
        let _ = self.client.last_flush();
        Ok(output)
    }

    #[tactic(auto, unfolding(crate::specs::Node::turn_in))]
    fn go_on(&mut self, input: ClientInput) -> Result<ClientOutput, Oom>
        requires node { IsNode self.old }
        requires steps { self.old.steps < 2 ^ 48 }
        requires call { MayStart self.old input }
        ensures state { OnOk result (self.new ≡ goes_on_at self.old input) }
        ensures gives { IfOk result (Gives self.old input) }
        ensures spelled { OnOk result (HasSpelling (turn_in self.old input)) }
    {
        match input {
            ClientInput::Start(call) => self.start(call),
            ClientInput::Packet(packet) => self.hear(&packet),
            ClientInput::Tick => self.tick(),
            ClientInput::WriteBack(fd) => self.write_back(fd),
        }
    }

    #[tactic(auto, unfolding(crate::specs::Node::turn_in, crate::specs::Node::hearing_at), using(crate::proofs::Counts::calls_room, crate::proofs::Counts::flushes_room, crate::proofs::Counts::start_room))]
    fn start(&mut self, call: Call) -> Result<ClientOutput, Oom>
        requires node { IsNode self.old }
        requires steps { self.old.steps < 2 ^ 48 }
        requires call { MayStart self.old (Start call) }
        ensures state { OnOk result (self.new ≡ goes_on_at self.old (Start call)) }
        ensures gives { IfOk result (Gives self.old (Start call)) }
    {
        let made = self.client.start(call)?;
        let output = self.send(Items::new(self.alloc), made)?;
        Ok(output)
    }

    #[tactic(auto, unfolding(crate::specs::Node::turn_in, crate::specs::Node::hearing_at), using(crate::proofs::Counts::flushes_room, crate::proofs::Counts::write_back_room))]
    fn write_back(&mut self, fd: u8) -> Result<ClientOutput, Oom>
        requires node { IsNode self.old }
        requires steps { self.old.steps < 2 ^ 48 }
        ensures state { OnOk result (self.new ≡ goes_on_at self.old (WriteBack fd)) }
        ensures gives { IfOk result (Gives self.old (WriteBack fd)) }
    {
        let made = self.client.write_back(fd)?;
        let output = self.send(Items::new(self.alloc), made)?;
        Ok(output)
    }

    /// Sends the oldest message again that isn't acknowledged, and nothing else.
    #[tactic(auto, using(crate::proofs::Turns::ticks_on))]
    fn tick(&self) -> Result<ClientOutput, Oom>
        ensures state { IfOk result (λ output. self.now ≡ goes_on_at self.now Tick) }
        ensures gives { IfOk result (Gives self.now Tick) }
    {
        let sent = self.sent_again()?;
        Ok(ClientOutput {
            sent,
            answer: None,
            entry: None,
        })
    }

    /// The oldest message that isn't acknowledged, to be sent again, if there is one.
    fn sent_again(&self) -> Result<Items<Packet>, Oom>
        ensures { IfOk result (λ sent. sent ≡ option_to_list (tick_packet self.now.session)) }
    {
        let mut sent = Items::new(self.alloc);
        if let Some(packet) = self.session.tick()? {
            sent.push(packet)?;
        }
        Ok(sent)
    }

    /// Sends what a step has made, behind what goes out before.
    pub(crate) fn send(&mut self, opened: Items<Packet>, made: Made) -> Result<ClientOutput, Oom>
        requires { self.old.session.steps + length made.bodies < 2 ^ 60 }
        ensures state { OnOk result (self.new ≡ record self.old { session = making self.old.session made.bodies }) }
        ensures sent { IfOk result (λ output. output.sent ≡ opened ++ packets_with self.old.session made.bodies) }
        ensures answer { IfOk result (λ output. output.answer ≡ answer_for self.old.client.calls made.finished) }
        ensures entry { IfOk result (λ output. option_to_list output.entry ≡ entry_for self.old.id self.old.client.calls made.finished) }
    {
        let Made { bodies, finished } = made;
        let mut sent = opened;
        send_all(&mut self.session, &mut sent, bodies.into_vec())?;
        let output = output(self.id, self.client.calls(), sent, finished)?;
        Ok(output)
    }
}
