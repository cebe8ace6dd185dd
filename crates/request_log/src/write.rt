ghost use Rattle.std.specs.Prelude.{◌≡◌, ◌≤◌, ◌+◌, ◌++◌, length};
ghost use Rattle.cal_base.specs.Limits.{block_size};
ghost use Rattle.change_reply.specs.ReplyBytes.{IsChangeReply, IsChangeWhy, longest_reply, reply_bytes, why_bytes};
ghost use Rattle.request_log.specs.Slot.{IsKept, IsSlot, SpellsSlot, head_bytes, kept_bytes};

use crate::slot::Slot;
use cal_base::Sector;
use cal_fields::SectorFields;
use tree_law::{Reply, Why};

/// Writes the one sector that spells a slot.
pub fn write_slot(slot: &Slot, into: &mut Sector)
    requires { IsSlot slot.now }
    ensures { SpellsSlot into.new slot.now }
{
    let mut fields = SectorFields::new();
    fields.put_u8(u8::from(slot.purged));
    fields.put_u64(slot.call);
    fields.put_u64(slot.flush);
    fields.put_u16(kept_size(slot.call, &slot.reply));
    put_kept(&mut fields, slot.call, &slot.reply);
    fields.finish(into);
}

/// How many bytes the reply of a slot has.
fn kept_size(call: u64, reply: &Reply) -> u16
    requires { IsKept call reply.now }
    ensures { result ≡ length (kept_bytes call reply.now) }
{
    if call == 0 {
        return 0;
    }
    reply_size(reply)
}

/// How many bytes the reply of a change has.
fn reply_size(reply: &Reply) -> u16
    requires { IsChangeReply reply.now }
    ensures { result ≡ length (reply_bytes reply.now) }
{
    match reply {
        Reply::Done => 1,
        Reply::Refused(why) => why_size(*why),
        _ => 0,
    }
}

fn why_size(why: Why) -> u16
    requires { IsChangeWhy why }
    ensures { result ≡ length (why_bytes why) }
{
    match why {
        Why::NoSpace { .. } => 5,
        Why::NoEnt
        | Why::NotDir
        | Why::IsDir
        | Why::Exist
        | Why::Inval
        | Why::NotEmpty
        | Why::Busy
        | Why::NoInode
        | Why::DirFull => 1,
        Why::MFile | Why::BadF | Why::FBig => 0,
    }
}

/// Puts the reply of a slot.
fn put_kept(fields: &mut SectorFields, call: u64, reply: &Reply)
    requires room { length fields.old + longest_reply ≤ block_size }
    requires reply { IsKept call reply.now }
    ensures { fields.new ≡ fields.old ++ kept_bytes call reply.now }
{
    if call != 0 {
        put_reply(fields, reply);
    }
}

/// Puts the reply of a change.
fn put_reply(fields: &mut SectorFields, reply: &Reply)
    requires room { length fields.old + longest_reply ≤ block_size }
    requires reply { IsChangeReply reply.now }
    ensures { fields.new ≡ fields.old ++ reply_bytes reply.now }
{
    match reply {
        Reply::Done => fields.put_u8(0),
        Reply::Refused(why) => put_why(fields, *why),
        _ => {}
    }
}

fn put_why(fields: &mut SectorFields, why: Why)
    requires room { length fields.old + longest_reply ≤ block_size }
    requires why { IsChangeWhy why }
    ensures { fields.new ≡ fields.old ++ why_bytes why }
{
    match why {
        Why::NoEnt => fields.put_u8(1),
        Why::NotDir => fields.put_u8(2),
        Why::IsDir => fields.put_u8(3),
        Why::Exist => fields.put_u8(4),
        Why::Inval => fields.put_u8(5),
        Why::NotEmpty => fields.put_u8(6),
        Why::Busy => fields.put_u8(7),
        Why::NoSpace { free, needed } => {
            fields.put_u8(11);
            fields.put_u16(free);
            fields.put_u16(needed);
        }
        Why::NoInode => fields.put_u8(12),
        Why::DirFull => fields.put_u8(13),
        Why::MFile | Why::BadF | Why::FBig => {}
    }
}
