ghost use Rattle.std.specs.Prelude.{◌≡◌, ◌<◌, ◌^◌, ◌++◌, ◌↔◌, [], is_some, not, IsTrue, IfOk, IfSome, OnOk};
ghost use Rattle.std.specs.List.{list_any};
ghost use Rattle.cal_base.specs.Limits.{clients};
ghost use Rattle.message.specs.Range.{IsMessage};
ghost use Rattle.message.specs.Spelling.{message_bytes};
ghost use Rattle.session.specs.Session.{IsCounted, body_of, unacknowledged};
ghost use Rattle.client_sessions.specs.Mail.{after_acknowledging, after_hearing, after_replacing, after_resending, after_sending, after_taking, first_mail, has_sent_in, heard_as, heard_in, is_to, new_sessions, not_to, session_at, with_session};

use cal_base::{CLIENTS, ClientId, Items, NodeId, Oom, ServerId, View};
use message::{Message, encode};
use session::{Body, Packet, Session, Taken};
use std::alloc::Global;
use std::marker::Model;
use std::mem;

/// A server's ends of the sessions with the 16 clients, and the packets that a step sends. After want of memory in
/// a call nothing is promised of them.
#[derive(Drop)]
pub struct ClientSessions {
    alloc: Global,
    /// By the number of the client.
    sessions: Vec<Session>,
    sent: Items<Packet>,
}

impl Model for ClientSessions {
    ghost use Rattle.std.specs.Prelude.{◌≡◌, length};
    ghost use Rattle.cal_base.specs.Limits.{clients};
    ghost use Rattle.client_sessions.specs.Mail.{Mail};

    ghost Value = { Mail };

    ghost view = { λ it. record { sessions = it.sessions.items; sent = it.sent } };

    ghost invariant = { λ it. length it.sessions.items ≡ clients };
}

impl ClientSessions {
    /// The sessions of a server as a view begins: all are new, and nothing is sent.
    pub fn new(alloc: Global, server: ServerId, view: View) -> Result<ClientSessions, Oom>
        ensures { IfOk result (λ all. all ≡ first_mail server view) }
    {
        let sessions = new_sessions(alloc, server, view)?;
        Ok(ClientSessions {
            alloc,
            sessions,
            sent: Items::new(alloc),
        })
    }

    /// The client's session hears a packet: the body of its message, if that is the next. What its
    /// acknowledgement lets out of the queue is sent. A packet of another session does nothing.
    pub fn hear(&mut self, client: ClientId, packet: &Packet) -> Result<Option<Body>, Oom>
        requires client { client.0 < clients }
        requires steps { (session_at self.old client).steps < 2 ^ 60 }
        ensures state { OnOk result (self.new ≡ after_hearing self.old client packet.now) }
        ensures body { IfOk result (λ body. body ≡ body_of (session_at self.old client) packet.now) }
    {
        let Taken { body, opened } = self.sessions[client.0 as usize].on_packet(packet)?;
        send_all(&mut self.sent, opened)?;
        Ok(body)
    }

    /// Hands a message to the client's session, as the next by its number. Its packet is sent, unless eight
    /// messages to that client are unacknowledged: then it waits.
    pub fn send(&mut self, client: ClientId, message: &Message) -> Result<(), Oom>
        requires client { client.0 < clients }
        requires message { IsMessage message.now }
        requires steps { (session_at self.old client).steps < 2 ^ 60 }
        ensures { OnOk result (self.new ≡ after_sending self.old client (message_bytes message.now)) }
    {
        let body = encode(self.alloc, message)?;
        match self.sessions[client.0 as usize].send(body)? {
            None => Ok(()),
            Some(packet) => self.sent.push(packet),
        }
    }

    /// Takes the client's session from others, which get this one, and takes back what this step sends to the
    /// client. It takes no memory.
    pub fn replace(&mut self, client: ClientId, others: &mut ClientSessions)
        requires { client.0 < clients }
        ensures state { self.new ≡ after_replacing self.old client (session_at others.old client) }
        ensures others { others.new ≡ with_session others.old client (session_at self.old client) }
    {
        let sent = self.take_sent();
        self.sent = not_to(client, sent);
        let place = client.0 as usize;
        mem::swap(&mut self.sessions[place], &mut others.sessions[place]);
    }

    /// Sends the oldest unacknowledged message to the client again, if there is one.
    pub fn resend(&mut self, client: ClientId) -> Result<(), Oom>
        requires { client.0 < clients }
        ensures { OnOk result (self.new ≡ after_resending self.old client) }
    {
        match self.session(client).tick()? {
            None => Ok(()),
            Some(packet) => self.sent.push(packet),
        }
    }

    /// Sends a packet to the client that acknowledges what was taken, and carries no message.
    pub fn acknowledge(&mut self, client: ClientId) -> Result<(), Oom>
        requires { client.0 < clients }
        ensures { OnOk result (self.new ≡ after_acknowledging self.old client) }
    {
        let bare = self.session(client).bare_ack();
        self.sent.push(bare)
    }

    /// The client in whose session the packet is heard; none where it is of no client of this view.
    pub fn hears(&self, packet: &Packet) -> Option<ClientId>
        ensures value { result ≡ heard_in self.now packet.now }
        ensures bound { IfSome result (λ client. client.0 < clients) }
    {
        match packet.from {
            NodeId::Server(_) => None,
            NodeId::Client(client) => self.hears_client(client, packet),
        }
    }

    /// Whether the packet brings the client's next message, which `hear` takes. It takes no memory.
    pub fn brings_next(&self, client: ClientId, packet: &Packet) -> bool
        requires { client.0 < clients }
        ensures { result ≡ is_some (body_of (session_at self.now client) packet.now) }
    {
        brings_next(self.session(client), packet)
    }

    /// Whether a packet to the client is sent in this step: only where none is, a bare acknowledgement is owed.
    pub fn has_sent(&self, client: ClientId) -> bool
        ensures { result ≡ has_sent_in self.now client }
    {
        self.sent
            .as_slice()
            .iter()
            .any(|packet| is_to(client, packet))
    }

    /// Whether all that was sent to the client is acknowledged, so that nothing is sent again. It takes no
    /// memory.
    pub fn is_quiet(&self, client: ClientId) -> bool
        requires { client.0 < clients }
        ensures { IsTrue result ↔ (unacknowledged (session_at self.now client) ≡ []) }
    {
        self.session(client).is_quiet()
    }

    /// Takes the packets of the step, in the order in which they are sent: nothing is sent any more. It takes no
    /// memory.
    pub fn take_sent(&mut self) -> Items<Packet>
        ensures packets { result ≡ self.old.sent }
        ensures state { self.new ≡ after_taking self.old }
    {
        mem::replace(&mut self.sent, Items::new(self.alloc))
    }

    /// How many calls have changed the client's session, and what a session's type keeps.
    pub fn steps(&self, client: ClientId) -> u64
        requires { client.0 < clients }
        ensures steps { result ≡ (session_at self.now client).steps }
        ensures counted { IsCounted (session_at self.now client) }
    {
        self.session(client).steps()
    }

    fn session(&self, client: ClientId) -> &Session
        requires { client.0 < clients }
        ensures { result.now ≡ session_at self.now client }
    {
        &self.sessions[client.0 as usize]
    }

    fn hears_client(&self, client: ClientId, packet: &Packet) -> Option<ClientId>
        ensures value { result ≡ heard_as self.now packet.now (NodeId.Client client) }
        ensures bound { IfSome result (λ client. client.0 < clients) }
    {
        if client.0 < CLIENTS && self.session(client).is_of_session(packet) {
            return Some(client);
        }
        None
    }
}

/// The new sessions of a server with the 16 clients.
fn new_sessions(alloc: Global, server: ServerId, view: View) -> Result<Vec<Session>, Oom>
    ensures { IfOk result (λ sessions. sessions.items ≡ new_sessions server view clients) }
{
    let mut sessions = Vec::with_capacity(alloc, CLIENTS as usize)?;
    for number in 0..CLIENTS {
        let client = NodeId::Client(ClientId(number));
        sessions.push(Session::new(alloc, NodeId::Server(server), client, view)?)?;
    }
    Ok(sessions)
}

/// Puts packets behind others.
fn send_all(sent: &mut Items<Packet>, packets: Items<Packet>) -> Result<(), Oom>
    ensures { OnOk result (sent.new ≡ sent.old ++ packets) }
{
    for packet in packets.into_vec() {
        sent.push(packet)?;
    }
    Ok(())
}

/// The packets that aren't for the client.
fn not_to(client: ClientId, sent: Items<Packet>) -> Items<Packet>
    ensures { result ≡ not_to client sent }
{
    let mut packets = sent.into_vec();
    packets.retain(
        |packet: &Packet| -> bool
            ensures { result ≡ not (is_to client packet.now) }
        { !is_to(client, packet) },
    );
    Items::from_vec(packets)
}

fn is_to(client: ClientId, packet: &Packet) -> bool
    ensures { result ≡ is_to client packet.now }
{
    packet.to == NodeId::Client(client)
}

/// Whether the packet brings the next message of a session, which that takes. It takes no memory.
fn brings_next(session: &Session, packet: &Packet) -> bool
    ensures { result ≡ is_some (body_of session.now packet.now) }
{
    let taken = session.bare_ack().ack;
    session.is_of_session(packet) && packet.seq > 0 && packet.seq - 1 == taken
}
