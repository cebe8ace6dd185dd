ghost use Rattle.std.specs.Prelude.{◌≡◌, ◌<◌, ℕ, IfOk, OnOk, is_none};
ghost use Rattle.cal_base.specs.Limits as limits;
ghost use Rattle.message.specs.Range.{IsMessage, IsPiece, IsWant};
ghost use Rattle.message.specs.declared.message.Message.TheVariants.{Acquire, Piece as PieceOf};
ghost use Rattle.rebuild.specs.Collecting.{missing_of};
ghost use Rattle.revocation.specs.Waiting.{IsRequest};
ghost use Rattle.cluster_law.specs.ServerState.{ServerState, arriving, as_request, hearing, uses_want};
ghost use Rattle.server_desk.specs.Desk.{IsLike, with_desk};
ghost use Rattle.server_opening.specs.Owed.{owed_for, owed_request};

use cal_base::{ClientId, Ino, Oom};
use image::Image;
use message::Message;
use server_desk::Desk;
use token_kind::{Class, Flush, Hold, Piece};
use tree_law::{Asked, Request, Want};

/// What a server owes a client for a message that it has heard.
#[derive(Drop)]
pub(crate) enum Owed {
    /// Nothing: what is to be done stands at the desk.
    Nothing,
    /// The request of this number is to wait for reports.
    Wait(u64),
    /// The flush is to be committed, or told again.
    Flush(Flush),
}

/// Hears a message of a client. A request goes to the end of the line of an admitted server; what a client gives
/// up is lowered; and a piece of a report is taken, where it fits. An Acquire of bytes of what is no file is passed
/// over, and so is a message that no client makes.
#[tactic(auto, unfolding(cluster_law::specs::ServerState::hearing))]
pub(crate) fn hear(
    desk: &mut Desk,
    image: &Image,
    client: ClientId,
    message: Message,
) -> Result<Owed, Oom>
    requires client { client.0 < limits.clients }
    requires message { IsMessage message }
    ensures heard { OnOk result ((server : ServerState) → IsLike desk.old server → image.now ≡ server.volume → IsLike desk.new (hearing server client message)) }
    ensures owed { IfOk result (λ owed. owed ≡ owed_for desk.old image.now message) }
{
    match message {
        Message::Acquire { number, want } => {
            let owed = hear_want(desk, image, client, number, want)?;
            Ok(owed)
        }
        Message::Change { number, call } => {
            let owed = arrive(desk, client, number, Asked::Change(call))?;
            Ok(owed)
        }
        Message::Flush(flush) => Ok(Owed::Flush(flush)),
        Message::Release(release) => {
            desk.release(client, &release);
            Ok(Owed::Nothing)
        }
        Message::Piece(piece) => {
            hear_piece(desk, image, client, &piece)?;
            Ok(Owed::Nothing)
        }
        Message::Grant { .. }
        | Message::Refuse { .. }
        | Message::Done { .. }
        | Message::Flushed { .. }
        | Message::Revoke(_)
        | Message::Ask
        | Message::Wait { .. }
        | Message::Admit => Ok(Owed::Nothing),
    }
}

/// Hears an Acquire.
fn hear_want(
    desk: &mut Desk,
    image: &Image,
    client: ClientId,
    number: u64,
    want: Want,
) -> Result<Owed, Oom>
    requires client { client.0 < limits.clients }
    requires message { IsMessage (Acquire number want) }
    ensures heard { OnOk result ((server : ServerState) → IsLike desk.old server → image.now ≡ server.volume → IsLike desk.new (hearing server client (Acquire number want))) }
    ensures owed { IfOk result (λ owed. owed ≡ owed_for desk.old image.now (Acquire number want)) }
{
    if is_used(image, &want) {
        let owed = arrive(desk, client, number, Asked::Want(want))?;
        Ok(owed)
    } else {
        Ok(Owed::Nothing)
    }
}

/// Whether what a client wants can be wanted: bytes are of a file.
fn is_used(image: &Image, want: &Want) -> bool
    requires { IsWant want.now }
    ensures { (server : ServerState) → image.now ≡ server.volume → result ≡ uses_want server want.now }
{
    match want {
        Want::Stat(_) => true,
        Want::Open(_) => true,
        Want::Readdir(_) => true,
        Want::Read(ino) => image.is_file(*ino),
        Want::Write(ino) => image.is_file(*ino),
    }
}

/// Puts a request into the line of an admitted server; one that waits for reports owes its Wait.
fn arrive(desk: &mut Desk, client: ClientId, number: u64, asked: Asked) -> Result<Owed, Oom>
    requires { IsRequest (as_request client number asked) }
    ensures heard { OnOk result ((server : ServerState) → IsLike desk.old server → IsLike desk.new (arriving server (as_request client number asked))) }
    ensures owed { IfOk result (λ owed. owed ≡ owed_request desk.old number) }
{
    if desk.missing().is_some() {
        return Ok(Owed::Wait(number));
    }
    desk.arrive(Request {
        client,
        number,
        asked,
    })?;
    Ok(Owed::Nothing)
}

/// Takes a piece of a report, where it fits.
fn hear_piece(desk: &mut Desk, image: &Image, client: ClientId, piece: &Piece) -> Result<(), Oom>
    requires client { client.0 < limits.clients }
    requires piece { IsPiece piece.now }
    ensures { OnOk result ((server : ServerState) → IsLike desk.old server → image.now ≡ server.volume → IsLike desk.new (hearing server client (PieceOf piece.now))) }
{
    prove!(desk.table().held(ClientId(0), Ino::ROOT, Class::Names) != Hold::Write);
    let slot = image.slot(client);
    if desk.fits(client, piece, slot) {
        desk.take_piece(client, piece, slot)?;
    }
    Ok(())
}
