ghost use Rattle.std.specs.Prelude.{◌≡◌, ◌<◌, ◌+◌, ◌^◌, ◌&&◌, is_some, nat_lt, Some as Given, IfOk, IfSome, OnOk, length};
ghost use Rattle.cal_base.specs.declared.identity.NodeId.TheVariants.{Client as IsClientId};
ghost use Rattle.message.specs.Bodies.{message_of};
ghost use Rattle.message.specs.Range.{IsMessage};
ghost use Rattle.session.specs.Session.{body_of, heard, is_of_session};
ghost use Rattle.cluster_law.specs.declared.node.ClientInput.TheVariants.{Packet as Comes};
ghost use Rattle.client_book.specs.Client.{value_after};
ghost use Rattle.client_book.specs.Sound.{HasSpelling, IsClient};
ghost use Rattle.client_state.specs.Working.{made_at};
ghost use Rattle.client_node.specs.Node.{IsNode, is_ask, is_server, message_if, message_in, moves, session_for, takes, takes_next, takes_packet, turn_in};
ghost use Rattle.client_node.specs.Step.{Gives, GivesBack, bodies_for, goes_on_at, hears_packet};

use crate::ends::Ends;
use crate::outgoing::acknowledge;
use cal_base::{NodeId, Oom};
use client_state::Made;
use cluster_law::ClientOutput;
use message::{DecodeError, Message, decode, one_spelling};
use session::{Packet, Session};
use std::alloc::Global;

/// The byte that spells an Ask.
const ASK: u8 = 10;

impl Ends {
    /// Hears a packet: its session, or that of a higher view to which it moves the client, takes it.
    #[tactic(auto, unfolding(crate::specs::Node::turn_in, crate::specs::Node::hearing_at), using(crate::proofs::Counts::calls_room, crate::proofs::Counts::flushes_room, crate::proofs::Counts::hearing_room, crate::proofs::Counts::packet_room, crate::proofs::Turns::heard_on, crate::proofs::Turns::gives_heard, crate::proofs::Turns::spelled_turn))]
    pub(crate) fn hear(&mut self, packet: &Packet) -> Result<ClientOutput, Oom>
        requires node { IsNode self.old }
        requires steps { self.old.steps < 2 ^ 48 }
        ensures state { OnOk result (self.new ≡ goes_on_at self.old (Comes packet.now)) }
        ensures gives { IfOk result (Gives self.old (Comes packet.now)) }
        ensures spelled { OnOk result (HasSpelling (turn_in self.old (Comes packet.now))) }
    {
        let message = message_in(self.alloc, packet)?;
        self.move_by(packet)?;
        let output = self.hear_in_session(packet, message)?;
        Ok(output)
    }

    /// Hears a packet in the session as it is.
    fn hear_in_session(
        &mut self,
        packet: &Packet,
        message: Option<Message>,
    ) -> Result<ClientOutput, Oom>
        requires client { IsClient self.old.client }
        requires message { IfSome message IsMessage }
        requires calls { self.old.client.calls < 2 ^ 63 }
        requires flushes { self.old.client.memory.known.last_flush + length self.old.client.memory.remembered < 2 ^ 63 }
        requires hearing { self.old.session.steps < 2 ^ 60 }
        requires sending { (heard self.old.session packet.now).steps + length (bodies_for self.old packet.now message) < 2 ^ 60 }
        ensures state { OnOk result (self.new ≡ hears_packet self.old packet.now message) }
        ensures gives { IfOk result (GivesBack self.old packet.now message) }
    {
        let owes = self.owes(packet);
        let taken = self.session.on_packet(packet)?;
        let bare = self.session.bare_ack();
        let next = taken.body.is_some();
        let made = self.take(next, message)?;
        let mut output = self.send(taken.opened, made)?;
        acknowledge(owes, &mut output.sent, bare)?;
        Ok(output)
    }

    /// Whether a packet is to be acknowledged: it is of the session, and has a number.
    fn owes(&self, packet: &Packet) -> bool
        ensures { result ≡ (is_of_session self.now.session packet.now && nat_lt 0 packet.now.seq) }
    {
        self.session.is_of_session(packet) && packet.seq > 0
    }

    /// Begins the session of a higher view, if the packet is the Ask with which that begins.
    fn move_by(&mut self, packet: &Packet) -> Result<(), Oom>
        requires { self.old.session.me ≡ IsClientId self.old.id }
        ensures { OnOk result (self.new ≡ record self.old { session = session_for self.old packet.now }) }
    {
        if self.moves(packet) {
            let me = NodeId::Client(self.id);
            self.session = Session::new(self.alloc, me, packet.from, packet.view)?;
        }
        Ok(())
    }

    /// Whether the packet brings the next message, in the session in which it is heard.
    pub(crate) fn takes(&self, packet: &Packet) -> bool
        requires { self.now.session.me ≡ IsClientId self.now.id }
        ensures { result ≡ takes_packet self.now packet.now }
    {
        self.moves(packet) || brings_next(&self.session, packet)
    }

    /// Whether the packet is the Ask with which the session of a higher view begins.
    fn moves(&self, packet: &Packet) -> bool
        requires { self.now.session.me ≡ IsClientId self.now.id }
        ensures { result ≡ moves self.now packet.now }
    {
        is_server(packet.from)
            && packet.to == NodeId::Client(self.id)
            && self.session.view().0 < packet.view.0
            && packet.seq == 1
            && spells_ask(packet.body.as_slice())
    }

    /// Takes the message, if it is the next one.
    #[tactic(auto, using(crate::proofs::Turns::idle_value, crate::proofs::Turns::idle_made))]
    fn take(&mut self, next: bool, message: Option<Message>) -> Result<Made, Oom>
        requires client { IsClient self.old.client }
        requires message { IfSome message IsMessage }
        requires calls { self.old.client.calls < 2 ^ 63 }
        requires flushes { self.old.client.memory.known.last_flush + length self.old.client.memory.remembered < 2 ^ 63 }
        ensures state { OnOk result (self.new ≡ record self.old { client = value_after self.old.client (takes_next next message) }) }
        ensures made { IfOk result (λ made. made ≡ made_at self.old.client (takes_next next message)) }
    {
        if next {
            let made = self.take_any(message)?;
            return Ok(made);
        }
        Ok(Made::nothing(self.alloc))
    }

    /// Takes the message, if there is one.
    #[tactic(auto, using(crate::proofs::Turns::idle_value, crate::proofs::Turns::idle_made))]
    fn take_any(&mut self, message: Option<Message>) -> Result<Made, Oom>
        requires client { IsClient self.old.client }
        requires message { IfSome message IsMessage }
        requires calls { self.old.client.calls < 2 ^ 63 }
        requires flushes { self.old.client.memory.known.last_flush + length self.old.client.memory.remembered < 2 ^ 63 }
        ensures state { OnOk result (self.new ≡ record self.old { client = value_after self.old.client (takes message) }) }
        ensures made { IfOk result (λ made. made ≡ made_at self.old.client (takes message)) }
    {
        match message {
            Some(message) => {
                let made = self.client.take(message)?;
                Ok(made)
            }
            None => Ok(Made::nothing(self.alloc)),
        }
    }
}

fn is_server(node: NodeId) -> bool
    ensures { result ≡ is_server node }
{
    match node {
        NodeId::Client(_) => false,
        NodeId::Server(_) => true,
    }
}

/// Whether bytes spell an Ask, which has one spelling. It takes no memory.
fn spells_ask(bytes: &[u8]) -> bool
    ensures { result ≡ is_ask (message_if (message_of bytes.now)) }
{
    // this law tells that no other bytes spell an Ask
    one_spelling();
    bytes.len() == 1 && bytes[0] == ASK
}

/// The message that a packet spells, if it spells one.
fn message_in(alloc: Global, packet: &Packet) -> Result<Option<Message>, Oom>
    ensures value { IfOk result (λ message. message ≡ message_in packet.now) }
    ensures spelled { IfOk result (λ message. IfSome message IsMessage) }
{
    match decode(alloc, packet.body.as_slice()) {
        Ok(message) => Ok(Some(message)),
        Err(DecodeError::BadMessage { at: _ }) => Ok(None),
        Err(DecodeError::OutOfMemory) => Err(Oom),
    }
}

/// Whether the packet brings the next message of a session, which that takes. It takes no memory.
fn brings_next(session: &Session, packet: &Packet) -> bool
    ensures { result ≡ is_some (body_of session.now packet.now) }
{
    let taken = session.bare_ack().ack;
    session.is_of_session(packet) && packet.seq > 0 && packet.seq - 1 == taken
}
