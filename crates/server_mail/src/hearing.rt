ghost use Rattle.std.specs.Prelude.{◌≡◌, ◌≤◌, ◌<◌, ◌+◌, ◌^◌, ◌++◌, List, IfOk, IfSome, OnOk};
ghost use Rattle.cal_base.specs.Limits.{clients};
ghost use Rattle.cal_base.specs.declared.identity.ClientId.{ClientId};
ghost use Rattle.cal_base.specs.declared.identity.ServerId.{ServerId};
ghost use Rattle.cal_base.specs.declared.identity.View.{View};
ghost use Rattle.client_sessions.specs.Mail.{AreBetween, after_hearing, session_at};
ghost use Rattle.cluster_law.specs.Ends.{hearing};
ghost use Rattle.lane_facts.specs.Speaking.{opened_by};
ghost use Rattle.message.specs.Bodies.{message_of};
ghost use Rattle.message.specs.Range.{IsMessage};
ghost use Rattle.session.specs.Session.{body_of};
ghost use Rattle.server_mail.specs.Step.{AllGoOut, after_coming, brought, from_client, heard_from, is_purged, message_if, owed, packets_to, part_of, spelled, takes};

use cal_base::{ClientId, Oom};
use client_sessions::ClientSessions;
use image::Image;
use message::{DecodeError, Message, decode};
use session::{Body, Packet};
use std::alloc::Global;

/// A message of a client.
#[derive(Drop)]
pub struct FromClient {
    /// Who sent it: a client of the cluster.
    pub client: ClientId,
    /// What it says.
    pub message: Message,
}

/// What a step hears of a packet.
#[derive(Drop)]
pub struct Heard {
    /// The message that the server takes, if the packet brings one.
    pub took: Option<FromClient>,
    /// The client that is owed an acknowledgement, if one is.
    pub answers: Option<ClientId>,
}

/// Hears a packet in the session of its client, unless the client's purge is marked in the volume. A packet of no
/// session does nothing. The message is taken, if it is the next one; bytes that are no message are taken and come
/// to nothing. A client whose packet with a number is heard is owed an acknowledgement. Each session has made fewer
/// than 2^60 steps, and makes at most one more.
pub fn hear(
    alloc: Global,
    mail: &mut ClientSessions,
    image: &Image,
    packet: &Packet,
) -> Result<Heard, Oom>
    requires { (client : ClientId) → client.0 < clients → (session_at mail.old client).steps < 2 ^ 60 }
    ensures state { OnOk result (mail.new ≡ after_coming mail.old packet.now (heard_from mail.old image.now packet.now)) }
    ensures took { IfOk result (λ heard. heard.took ≡ brought mail.old packet.now (heard_from mail.old image.now packet.now)) }
    ensures spelled { IfOk result (λ heard. IfSome heard.took (λ from. (from.client.0 < clients) × IsMessage from.message)) }
    ensures answers { IfOk result (λ heard. heard.answers ≡ owed packet.now (heard_from mail.old image.now packet.now)) }
    ensures bound { IfOk result (λ heard. IfSome heard.answers (λ client. client.0 < clients)) }
    ensures between { OnOk result ((server : ServerId) (view : View) → AreBetween server view mail.old → AreBetween server view mail.new) }
    ensures out { OnOk result ((server : ServerId) (view : View) → AreBetween server view mail.old → AllGoOut server view mail.old → AllGoOut server view mail.new) }
    ensures session { OnOk result ((server : ServerId) (view : View) (client : ClientId) → AreBetween server view mail.old → client.0 < clients
        → session_at mail.new client ≡ hearing (session_at mail.old client) (part_of client packet.now (heard_from mail.old image.now packet.now))) }
    ensures steps { OnOk result ((client : ClientId) → (session_at mail.new client).steps ≤ (session_at mail.old client).steps + 1) }
    ensures sent { OnOk result ((server : ServerId) (view : View) (client : ClientId) → AreBetween server view mail.old → client.0 < clients
        → packets_to client mail.new ≡ packets_to client mail.old ++ opened_by (session_at mail.old client) (part_of client packet.now (heard_from mail.old image.now packet.now))) }
{
    let from = heard_from(mail, image, packet);
    let took = take(alloc, mail, from, packet)?;
    let answers = owed(from, packet);
    Ok(Heard { took, answers })
}

/// Whether a packet brings the next message of a client whose purge isn't marked, which `hear` takes. Bytes that are no
/// message count too. It takes no memory.
pub fn takes(mail: &ClientSessions, image: &Image, packet: &Packet) -> bool
    ensures { result ≡ takes mail.now image.now packet.now }
{
    match heard_from(mail, image, packet) {
        None => false,
        Some(client) => mail.brings_next(client, packet),
    }
}

/// The client in whose session a packet is heard.
fn heard_from(mail: &ClientSessions, image: &Image, packet: &Packet) -> Option<ClientId>
    ensures value { result ≡ heard_from mail.now image.now packet.now }
    ensures bound { IfSome result (λ client. client.0 < clients) }
{
    match mail.hears(packet) {
        None => None,
        Some(client) => {
            if is_purged(image, client) {
                None
            } else {
                Some(client)
            }
        }
    }
}

/// Whether a client's purge is marked in the volume.
pub(crate) fn is_purged(image: &Image, client: ClientId) -> bool
    requires { client.0 < clients }
    ensures { result ≡ is_purged image.now client }
{
    image.slot(client).purged
}

/// Takes a packet in the session in which it is heard, if it is.
fn take(
    alloc: Global,
    mail: &mut ClientSessions,
    from: Option<ClientId>,
    packet: &Packet,
) -> Result<Option<FromClient>, Oom>
    requires from { IfSome from (λ client. client.0 < clients) }
    requires steps { (client : ClientId) → client.0 < clients → (session_at mail.old client).steps < 2 ^ 60 }
    ensures state { OnOk result (mail.new ≡ after_coming mail.old packet.now from) }
    ensures took { IfOk result (λ took. took ≡ brought mail.old packet.now from) }
    ensures spelled { IfOk result (λ took. IfSome took (λ from. (from.client.0 < clients) × IsMessage from.message)) }
{
    match from {
        None => Ok(None),
        Some(client) => {
            let took = take_from(alloc, mail, client, packet)?;
            Ok(took)
        }
    }
}

/// Takes a packet in the session with a client.
fn take_from(
    alloc: Global,
    mail: &mut ClientSessions,
    client: ClientId,
    packet: &Packet,
) -> Result<Option<FromClient>, Oom>
    requires client { client.0 < clients }
    requires steps { (session_at mail.old client).steps < 2 ^ 60 }
    ensures state { OnOk result (mail.new ≡ after_hearing mail.old client packet.now) }
    ensures took { IfOk result (λ took. took ≡ from_client client (spelled (body_of (session_at mail.old client) packet.now))) }
    ensures spelled { IfOk result (λ took. IfSome took (λ from. (from.client.0 < clients) × IsMessage from.message)) }
{
    let body = mail.hear(client, packet)?;
    let message = read(alloc, body)?;
    Ok(from_client(client, message))
}

/// A message with its client, if there is one.
fn from_client(client: ClientId, message: Option<Message>) -> Option<FromClient>
    requires client { client.0 < clients }
    requires message { IfSome message IsMessage }
    ensures value { result ≡ from_client client message }
    ensures spelled { IfSome result (λ from. (from.client.0 < clients) × IsMessage from.message) }
{
    match message {
        None => None,
        Some(message) => Some(FromClient { client, message }),
    }
}

/// The message of a body, if there is one and it spells a message.
fn read(alloc: Global, body: Option<Body>) -> Result<Option<Message>, Oom>
    ensures value { IfOk result (λ message. message ≡ spelled body) }
    ensures spelled { IfOk result (λ message. IfSome message IsMessage) }
{
    match body {
        None => Ok(None),
        Some(body) => {
            let message = message_of(alloc, body.as_slice())?;
            Ok(message)
        }
    }
}

/// The message that bytes spell, if they spell one.
fn message_of(alloc: Global, bytes: &[u8]) -> Result<Option<Message>, Oom>
    ensures value { IfOk result (λ message. message ≡ message_if (message_of bytes.now)) }
    ensures spelled { IfOk result (λ message. IfSome message IsMessage) }
{
    match decode(alloc, bytes) {
        Ok(message) => Ok(Some(message)),
        Err(DecodeError::BadMessage { at: _ }) => Ok(None),
        Err(DecodeError::OutOfMemory) => Err(Oom),
    }
}

/// The client that is owed an acknowledgement for a packet.
fn owed(from: Option<ClientId>, packet: &Packet) -> Option<ClientId>
    requires { IfSome from (λ client. client.0 < clients) }
    ensures value { result ≡ owed packet.now from }
    ensures bound { IfSome result (λ client. client.0 < clients) }
{
    if packet.seq > 0 { from } else { None }
}
