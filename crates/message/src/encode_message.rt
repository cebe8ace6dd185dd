ghost use Rattle.std.specs.Prelude.{◌≡◌, ◌++◌, ◌∷◌, [], ℕ, List, IfOk, OnOk, Ok};
ghost use Rattle.cal_fields.specs.BigEndian.{big_endian};
ghost use Rattle.message.specs.Bodies.{message_of};
ghost use Rattle.message.specs.Range.{IsChange, IsMessage, IsNumber, IsWant};
ghost use Rattle.message.specs.Spelling.{message_bytes};
ghost use Rattle.token_kind.specs.Flush.{IsFlush};

use crate::message::Message;
use crate::put::{
    put_change, put_flush, put_grant_items, put_inode, put_items, put_piece, put_want,
};
use cal_base::Oom;
use cal_fields::{put_u8, put_u16, put_u64};
use change_reply::put_reply;
use std::alloc::Global;
use token_kind::Flush;
use tree_law::{Call, Want};

/// Puts the byte of a message's kind, and the number of its call.
fn put_head(out: &mut Vec<u8>, kind: u8, number: u64) -> Result<(), Oom>
    ensures { OnOk result (out.new.items ≡ out.old.items ++ kind ∷ [] ++ big_endian 8 number) }
{
    put_u8(out, kind)?;
    put_u64(out, number)
}

fn put_refuse(out: &mut Vec<u8>, number: u64, free: u16, needed: u16) -> Result<(), Oom>
    ensures { OnOk result (out.new.items ≡ out.old.items ++ message_bytes (Message.Refuse number free needed)) }
{
    put_head(out, 3, number)?;
    put_u16(out, free)?;
    put_u16(out, needed)
}

fn put_acquire(out: &mut Vec<u8>, number: u64, want: &Want) -> Result<(), Oom>
    requires { IsWant want.now }
    ensures { OnOk result (out.new.items ≡ out.old.items ++ message_bytes (Message.Acquire number want.now)) }
{
    put_head(out, 1, number)?;
    put_want(out, want)
}

fn put_change_message(out: &mut Vec<u8>, number: u64, call: &Call) -> Result<(), Oom>
    requires { IsChange call.now }
    ensures { OnOk result (out.new.items ≡ out.old.items ++ message_bytes (Message.Change number call.now)) }
{
    put_head(out, 4, number)?;
    put_change(out, call)
}

fn put_flush_message(out: &mut Vec<u8>, flush: &Flush) -> Result<(), Oom>
    requires { IsFlush flush.now }
    ensures { OnOk result (out.new.items ≡ out.old.items ++ message_bytes (Message.Flush flush.now)) }
{
    put_u8(out, 6)?;
    put_flush(out, flush)
}

fn put_message(out: &mut Vec<u8>, message: &Message) -> Result<(), Oom>
    requires { IsMessage message.now }
    ensures { OnOk result (out.new.items ≡ out.old.items ++ message_bytes message.now) }
{
    match message {
        Message::Acquire { number, want } => put_acquire(out, *number, want),
        Message::Grant { number, items } => {
            put_head(out, 2, *number)?;
            put_grant_items(out, items.as_slice())
        }
        Message::Refuse {
            number,
            free,
            needed,
        } => put_refuse(out, *number, *free, *needed),
        Message::Change { number, call } => put_change_message(out, *number, call),
        Message::Done { number, reply } => {
            put_head(out, 5, *number)?;
            put_reply(out, reply)
        }
        Message::Flush(flush) => put_flush_message(out, flush),
        Message::Flushed { number } => put_head(out, 7, *number),
        Message::Revoke(revoke) => {
            put_u8(out, 8)?;
            put_inode(out, revoke.ino)?;
            put_items(out, revoke.items.as_slice())
        }
        Message::Release(release) => {
            put_u8(out, 9)?;
            put_inode(out, release.ino)?;
            put_items(out, release.items.as_slice())
        }
        Message::Ask => put_u8(out, 10),
        Message::Piece(piece) => {
            put_u8(out, 11)?;
            put_piece(out, piece)
        }
        Message::Wait { number, client } => {
            put_head(out, 12, *number)?;
            put_u8(out, client.0)
        }
        Message::Admit => put_u8(out, 13),
    }
}

/// The bytes that spell a message, from which `decode` reads it again.
pub fn encode(alloc: Global, message: &Message) -> Result<Vec<u8>, Oom>
    requires { IsMessage message.now }
    ensures spelled { IfOk result (λ bytes. bytes.items ≡ message_bytes message.now) }
    ensures again { IfOk result (λ bytes. message_of bytes.items ≡ Ok message.now) }
{
    let mut out = Vec::new(alloc);
    put_message(&mut out, message)?;
    Ok(out)
}

/// The bytes of an Acquire: those that `encode` gives, of a want that stays with the caller.
pub fn encode_acquire(alloc: Global, number: u64, want: &Want) -> Result<Vec<u8>, Oom>
    requires number { IsNumber number }
    requires want { IsWant want.now }
    ensures spelled { IfOk result (λ bytes. bytes.items ≡ message_bytes (Message.Acquire number want.now)) }
    ensures again { IfOk result (λ bytes. message_of bytes.items ≡ Ok (Message.Acquire number want.now)) }
{
    let mut out = Vec::new(alloc);
    put_acquire(&mut out, number, want)?;
    Ok(out)
}

/// The bytes of a Change: those that `encode` gives, of a call that stays with the caller.
pub fn encode_change(alloc: Global, number: u64, call: &Call) -> Result<Vec<u8>, Oom>
    requires number { IsNumber number }
    requires change { IsChange call.now }
    ensures spelled { IfOk result (λ bytes. bytes.items ≡ message_bytes (Message.Change number call.now)) }
    ensures again { IfOk result (λ bytes. message_of bytes.items ≡ Ok (Message.Change number call.now)) }
{
    let mut out = Vec::new(alloc);
    put_change_message(&mut out, number, call)?;
    Ok(out)
}

/// The bytes of a Flush: those that `encode` gives, of a flush that stays with the caller, who may have
/// to send it again.
pub fn encode_flush(alloc: Global, flush: &Flush) -> Result<Vec<u8>, Oom>
    requires { IsFlush flush.now }
    ensures spelled { IfOk result (λ bytes. bytes.items ≡ message_bytes (Message.Flush flush.now)) }
    ensures again { IfOk result (λ bytes. message_of bytes.items ≡ Ok (Message.Flush flush.now)) }
{
    let mut out = Vec::new(alloc);
    put_flush_message(&mut out, flush)?;
    Ok(out)
}
