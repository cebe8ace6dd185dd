ghost use Rattle.std.specs.Prelude.{◌≡◌, ◌==◌, ◌≤◌, ◌<◌, ◌+◌, ◌-◌, ◌^◌, ◌↔◌, [], Some, None, if◌then◌else◌, min, length, take, drop, IsTrue, IsNone, IfOk, OnOk, OnErr};
ghost use Rattle.session.specs.Session.{IsCounted, IsOfSession, is_of_session, heard, body_of, let_out, after_packet, after_send, bare_ack_of, is_next, new_session, newly_acknowledged, numbered, opened_packets, packet_of, packets_from, queued, sent_packet, taken_after, taken_body, tick_packet, unacknowledged};

use crate::body::Body;
use crate::packet::{Packet, Taken};
use cal_base::{Items, NodeId, Oom, UNACKNOWLEDGED, View};
use std::alloc::Global;
use std::collections::VecDeque;
use std::marker::Model;

/// One end of a session.
#[derive(Drop)]
pub struct Session {
    alloc: Global,
    me: NodeId,
    peer: NodeId,
    view: View,
    acknowledged: u64,
    taken: u64,
    bodies: VecDeque<Body>,
    steps: u64,
}

impl Model for Session {
    ghost use Rattle.session.specs.Session.{IsCounted, SessionState};
    ghost use Rattle.session.specs.SessionFields.{session_state};

    ghost Value = { SessionState };

    ghost view = { session_state };

    ghost invariant = { λ it. IsCounted (session_state it) };
}

impl Session {
    /// A session of `me` with `peer`, of which nothing is sent or taken.
    pub fn new(alloc: Global, me: NodeId, peer: NodeId, view: View) -> Result<Session, Oom>
        ensures { IfOk result (λ session. session ≡ new_session me peer view) }
    {
        let bodies = VecDeque::with_capacity(alloc, UNACKNOWLEDGED)?;
        Ok(Session {
            alloc,
            me,
            peer,
            view,
            acknowledged: 0,
            taken: 0,
            bodies,
            steps: 0,
        })
    }

    /// Sends a message, which has the next number: answers its packet, or `None` where eight are
    /// unacknowledged and it waits. After `Oom` the session is as it was.
    pub fn send(&mut self, body: Vec<u8>) -> Result<Option<Packet>, Oom>
        requires { self.old.steps < 2 ^ 60 }
        ensures packet { IfOk result (λ packet. packet ≡ sent_packet self.old body.items) }
        ensures none { IfOk result (λ packet. IsNone packet ↔ (length (unacknowledged self.old) ≡ UNACKNOWLEDGED)) }
        ensures new { OnOk result (self.new ≡ after_send self.old body.items) }
        ensures err { OnErr result (self.new ≡ self.old) }
    {
        let body = Body::new(self.alloc, body)?;
        let packet = self.first_packet(&body)?;
        self.bodies.push_back(body)?;
        self.steps += 1;
        Ok(packet)
    }

    /// Takes a packet's message where it is the next one, and then its acknowledgement, which lets as
    /// many messages out of the queue as it acknowledges. One above what was sent acknowledges all
    /// that was sent, and nothing that is sent later. A packet of another session does nothing.
    /// After `Oom` the session is as it was.
    pub fn on_packet(&mut self, packet: &Packet) -> Result<Taken, Oom>
        requires { self.old.steps < 2 ^ 60 }
        ensures new { OnOk result (self.new ≡ heard self.old packet.now) }
        ensures body { IfOk result (λ taken. taken.body ≡ body_of self.old packet.now) }
        ensures opened { IfOk result (λ taken. taken.opened ≡ let_out self.old packet.now) }
        ensures err { OnErr result (self.new ≡ self.old) }
    {
        if !self.is_of_session(packet) {
            return Ok(Taken {
                body: None,
                opened: Items::new(self.alloc),
            });
        }
        let next = packet.seq == self.taken + 1;
        let body = body_if(next, &packet.body)?;
        let taken = self.taken + u64::from(next);
        let count = self.newly_acknowledged(packet.ack);
        let opened = self.opened(count, taken)?;
        drop_front(&mut self.bodies, count);
        self.acknowledged += count as u64;
        self.taken = taken;
        self.steps += u64::from(next || count > 0);
        Ok(Taken { body, opened })
    }

    /// The packet of the oldest message that is not acknowledged, to be sent again; `None` exactly
    /// where all is acknowledged.
    pub fn tick(&self) -> Result<Option<Packet>, Oom>
        ensures packet { IfOk result (λ packet. packet ≡ tick_packet self.now) }
        ensures none { IfOk result (λ packet. IsNone packet ↔ (unacknowledged self.now ≡ [])) }
    {
        let Some(body) = self.bodies.get(0) else {
            return Ok(None);
        };
        let body = body.share()?;
        Ok(Some(self.packet(self.taken, self.acknowledged + 1, body)))
    }

    /// A packet that acknowledges what was taken, and carries no message.
    pub fn bare_ack(&self) -> Packet
        ensures { result ≡ bare_ack_of self.now }
    {
        self.packet(self.taken, 0, Body::empty())
    }

    /// Whether the packet is of this session: from the peer, for this end, and of the view. No other
    /// packet is heard.
    pub fn is_of_session(&self, packet: &Packet) -> bool
        ensures test { result ≡ is_of_session self.now packet.now }
        ensures meaning { IsTrue result ↔ IsOfSession self.now packet.now }
    {
        packet.from == self.peer && packet.to == self.me && packet.view == self.view
    }

    /// Whether all that was sent is acknowledged, so that a tick sends nothing. It takes no memory.
    pub fn is_quiet(&self) -> bool
        ensures { IsTrue result ↔ (unacknowledged self.now ≡ []) }
    {
        self.bodies.is_empty()
    }

    /// The other end.
    pub fn peer(&self) -> NodeId
        ensures { result ≡ self.now.peer }
    {
        self.peer
    }

    /// The view of the session.
    pub fn view(&self) -> View
        ensures { result ≡ self.now.view }
    {
        self.view
    }

    /// How many calls have changed the session. Neither count of its messages is above it.
    pub fn steps(&self) -> u64
        ensures steps { result ≡ self.now.steps }
        ensures counted { IsCounted self.now }
    {
        self.steps
    }

    fn packet(&self, taken: u64, number: u64, body: Body) -> Packet
        ensures { result ≡ packet_of self.now taken number body }
    {
        Packet {
            from: self.me,
            to: self.peer,
            view: self.view,
            seq: number,
            ack: taken,
            body,
        }
    }

    /// The packet of a message as it is sent first, where fewer than eight are unacknowledged.
    fn first_packet(&self, body: &Body) -> Result<Option<Packet>, Oom>
        requires { self.now.steps < 2 ^ 60 }
        ensures { IfOk result (λ packet. packet ≡ sent_packet self.now body.now) }
    {
        let before = self.bodies.len();
        if before < UNACKNOWLEDGED {
            let number = self.acknowledged + before as u64 + 1;
            return Ok(Some(self.packet(self.taken, number, body.share()?)));
        }
        Ok(None)
    }

    /// How many more messages an acknowledgement acknowledges, of those that were sent.
    fn newly_acknowledged(&self, ack: u64) -> usize
        ensures { result ≡ min (ack - self.now.acknowledged) (length (unacknowledged self.now)) }
    {
        let sent = self.bodies.len().min(UNACKNOWLEDGED);
        ack.saturating_sub(self.acknowledged).min(sent as u64) as usize
    }

    /// The packets of the first `count` queued messages.
    fn opened(&self, count: usize, taken: u64) -> Result<Items<Packet>, Oom>
        requires { self.now.steps < 2 ^ 60 }
        ensures { IfOk result (λ opened. opened ≡ packets_from self.now taken (numbered self.now + 1) (take count (queued self.now))) }
    {
        let mut opened = Items::new(self.alloc);
        let queued = self.bodies.len().saturating_sub(UNACKNOWLEDGED);
        for place in 0..count.min(queued) {
            let at = UNACKNOWLEDGED + place;
            let body = self.bodies[at].share()?;
            opened.push(self.packet(taken, self.acknowledged + at as u64 + 1, body))?;
        }
        Ok(opened)
    }
}

/// The body, where it is taken.
fn body_if(takes: bool, body: &Body) -> Result<Option<Body>, Oom>
    ensures { IfOk result (λ taken. taken ≡ (if takes then Some body.now else None)) }
{
    if takes {
        return Ok(Some(body.share()?));
    }
    Ok(None)
}

/// Drops the first bodies.
fn drop_front(bodies: &mut VecDeque<Body>, count: usize)
    ensures { bodies.new.items ≡ drop count bodies.old.items }
{
    for _ in 0..count {
        let _ = bodies.pop_front();
    }
}
