ghost use Rattle.std.specs.Prelude.{◌-◌, ◌≡◌, ◌≢◌, ◌↔◌, ◌≤◌, ◌<◌, ◌+◌, ◌^◌, ◌++◌, ◌∷◌, ℕ, List, Ok, length, IsErr, IsTrue, IfOk, OnErr};
ghost use Rattle.cal_base.specs.Limits.{block_size};
ghost use Rattle.cal_fields.specs.Padded.{zeros};
ghost use Rattle.tree_law.specs.declared.reply.Reply.{Reply};
ghost use Rattle.change_reply.specs.ReplyBytes.{IsChangeReply, reply_bytes};
ghost use Rattle.request_log.specs.declared.slot.Slot.{Slot};
ghost use Rattle.cal_fields.specs.Flag.{bool_byte};
ghost use Rattle.request_log.specs.Slot.{IsKept, SpellsSlot, head_bytes, head_size, kept_bytes};
ghost use Rattle.request_log.specs.Kept.{IsLast, StandsBehind};

use crate::slot::Slot;
use cal_base::Sector;
use cal_fields::{is_zeros, take_u8, take_u16, take_u64};
use change_reply::take_reply;
use tree_law::Reply;

/// A sector spells no slot.
#[derive(Clone, Copy, Debug, PartialEq, Eq)]
pub struct BadSlot;

/// The slot that a sector spells; `BadSlot` exactly where it spells none.
pub fn read_slot(from: &Sector) -> Result<Slot, BadSlot>
    ensures found { IfOk result (λ slot. SpellsSlot from.now slot) }
    ensures again { (slot : Slot) → SpellsSlot from.now slot → result ≡ Ok slot }
{
    let head = head_of(from);
    let Ok(purged) = bool_of(head.purged) else {
        return Err(BadSlot);
    };
    match kept_reply(head.call, head.size, head.behind) {
        Ok(reply) => Ok(Slot {
            purged,
            call: head.call,
            flush: head.flush,
            reply,
        }),
        Err(bad) => Err(bad),
    }
}

/// The numbers at the front of a slot, and the bytes behind them.
#[derive(Drop)]
struct Head<'a> {
    purged: u8,
    call: u64,
    flush: u64,
    size: u16,
    behind: &'a [u8],
}

fn head_of(bytes: &[u8]) -> Head<'_>
    requires { length bytes.now ≡ block_size }
    ensures head { bytes.now ≡ head_bytes result.purged result.call result.flush result.size ++ result.behind.now }
    ensures length { length result.behind.now ≡ block_size - head_size }
{
    let mut behind = bytes;
    let purged = take_u8(&mut behind).unwrap();
    let call = take_u64(&mut behind).unwrap();
    let flush = take_u64(&mut behind).unwrap();
    let size = take_u16(&mut behind).unwrap();
    Head {
        purged,
        call,
        flush,
        size,
        behind,
    }
}

fn bool_of(byte: u8) -> Result<bool, BadSlot>
    ensures found { IfOk result (λ value. byte ≡ bool_byte value) }
    ensures bad { IsErr result ↔ (2 ≤ byte) }
{
    match byte {
        0 => Ok(false),
        1 => Ok(true),
        _ => Err(BadSlot),
    }
}

/// The reply of a slot, where it has this number and this length of the reply.
fn kept_reply(call: u64, size: u16, behind: &[u8]) -> Result<Reply, BadSlot>
    ensures found { IfOk result (StandsBehind call size behind.now) }
    ensures bad { OnErr result ((reply : Reply) → ¬ (StandsBehind call size behind.now reply)) }
{
    if call != 0 {
        return last_reply(size, behind);
    }
    if !ends(0, size, behind) {
        return Err(BadSlot);
    }
    Ok(Reply::Done)
}

/// The reply of a change of this length, behind which zeros stand.
fn last_reply(size: u16, behind: &[u8]) -> Result<Reply, BadSlot>
    ensures found { IfOk result (IsLast size behind.now) }
    ensures bad { OnErr result ((reply : Reply) → ¬ (IsLast size behind.now reply)) }
{
    let mut rest = behind;
    let Ok(reply) = take_reply(&mut rest) else {
        return Err(BadSlot);
    };
    if !ends(behind.len() - rest.len(), size, rest) {
        return Err(BadSlot);
    }
    Ok(reply)
}

/// Whether a reply of so many bytes has the stated size, and zeros stand behind it.
fn ends(taken: usize, size: u16, rest: &[u8]) -> bool
    ensures { IsTrue result ↔ (taken ≡ size) × (rest.now ≡ zeros (length rest.now)) }
{
    taken == size as usize && is_zeros(rest)
}
