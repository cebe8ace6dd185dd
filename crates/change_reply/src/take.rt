ghost use Rattle.std.specs.Prelude.{◌≡◌, ◌++◌, ◌<◌, ℕ, List, Ok, Err, Some, None, length, IfOk, IfErr, OnErr};
ghost use Rattle.change_reply.specs.ReplyAt.{plain_reply, reply_at, no_space_at, plain_at};
ghost use Rattle.change_reply.specs.ReplyBytes.{IsChangeReply, reply_bytes};
ghost use Rattle.tree_law.specs.declared.reply.Reply.{Reply};

use cal_fields::{take_u8, take_u16};
use tree_law::{Reply, Why};

/// Why no reply of a change was taken.
#[derive(Clone, Copy, Debug, PartialEq, Eq)]
pub enum BadReply {
    /// The first byte is that of no reply of a change.
    Unknown,
    /// The bytes end before the reply does.
    Short,
}

/// The reply that one byte spells by itself.
#[tactic(auto, unfolding(crate::specs::ReplyAt::plain_reply))]
fn plain_reply(byte: u8) -> Option<Reply>
    ensures { result ≡ plain_reply byte }
{
    match byte {
        0 => Some(Reply::Done),
        1 => Some(Reply::Refused(Why::NoEnt)),
        2 => Some(Reply::Refused(Why::NotDir)),
        3 => Some(Reply::Refused(Why::IsDir)),
        4 => Some(Reply::Refused(Why::Exist)),
        5 => Some(Reply::Refused(Why::Inval)),
        6 => Some(Reply::Refused(Why::NotEmpty)),
        7 => Some(Reply::Refused(Why::Busy)),
        12 => Some(Reply::Refused(Why::NoInode)),
        13 => Some(Reply::Refused(Why::DirFull)),
        _ => None,
    }
}

/// The numbers of blocks behind the byte of want of blocks.
fn take_no_space(from: &mut &[u8]) -> Result<Reply, BadReply>
    ensures ok { IfOk result (λ reply. no_space_at from.old.now ≡ Ok (reply, from.new.now)) }
    ensures bad { IfErr result (λ bad. no_space_at from.old.now ≡ Err bad) }
{
    if from.len() < 4 {
        return Err(BadReply::Short);
    }
    let free = take_u16(from).unwrap();
    let needed = take_u16(from).unwrap();
    Ok(Reply::Refused(Why::NoSpace { free, needed }))
}

/// The reply of a change at the front, and the bytes behind it.
fn reply_of(bytes: &[u8]) -> Result<(Reply, &[u8]), BadReply>
    ensures ok { IfOk result (λ read. reply_at bytes.now ≡ Ok (read.0, read.1.now)) }
    ensures bad { IfErr result (λ bad. reply_at bytes.now ≡ Err bad) }
{
    let mut rest = bytes;
    let Ok(byte) = take_u8(&mut rest) else {
        return Err(BadReply::Short);
    };
    if byte == 11 {
        return match take_no_space(&mut rest) {
            Ok(reply) => Ok((reply, rest)),
            Err(error) => Err(error),
        };
    }
    match plain_reply(byte) {
        Some(reply) => Ok((reply, rest)),
        None => Err(BadReply::Unknown),
    }
}

/// The same, in the words of the grammar.
fn spelled_reply_of(bytes: &[u8]) -> Result<(Reply, &[u8]), BadReply>
    ensures ok { IfOk result (λ read. reply_at bytes.now ≡ Ok (read.0, read.1.now)) }
    ensures bad { IfErr result (λ bad. reply_at bytes.now ≡ Err bad) }
    ensures taken { IfOk result (λ read. IsChangeReply read.0 × (bytes.now ≡ reply_bytes read.0 ++ read.1.now)) }
{
    reply_of(bytes)
}

/// Takes the reply of a change from the front. After an error nothing is taken.
pub fn take_reply(from: &mut &[u8]) -> Result<Reply, BadReply>
    ensures ok { IfOk result (λ reply. reply_at from.old.now ≡ Ok (reply, from.new.now)) }
    ensures bad { IfErr result (λ bad. reply_at from.old.now ≡ Err bad) }
    ensures err { OnErr result (from.new.now ≡ from.old.now) }
    ensures taken { IfOk result (λ reply. IsChangeReply reply × (from.old.now ≡ reply_bytes reply ++ from.new.now)) }
    ensures again { (reply : Reply) (rest : List ℕ) → IsChangeReply reply → from.old.now ≡ reply_bytes reply ++ rest
        → (result ≡ Ok reply) × (from.new.now ≡ rest) }
{
    match spelled_reply_of(*from) {
        Ok((reply, rest)) => {
            *from = rest;
            Ok(reply)
        }
        Err(error) => Err(error),
    }
}
