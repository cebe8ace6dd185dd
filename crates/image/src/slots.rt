ghost use Rattle.std.specs.Prelude.{◌≡◌, ◌<◌, length, IfSome};
ghost use Rattle.change_reply.specs.ReplyBytes.{IsChangeReply};
ghost use Rattle.image.specs.Applying.{CanPutSlot};
ghost use Rattle.volume_edit.specs.Edit.{with_slot};

use request_log::Slot;
use tree_law::Reply;
use volume_edit::SlotEdit;

/// Puts a client's slot in its place.
pub(crate) fn put_slot(slots: &mut [Slot], edit: &Option<SlotEdit>)
    requires { IfSome edit.now (CanPutSlot slots.old) }
    ensures { slots.new ≡ with_slot slots.old edit.now }
{
    if let Some(edit) = edit {
        slots[edit.client.0 as usize] = slot_again(&edit.slot);
    }
}

/// A slot once more.
pub(crate) fn slot_again(slot: &Slot) -> Slot
    requires { IsChangeReply slot.now.reply }
    ensures { result ≡ slot.now }
{
    Slot {
        purged: slot.purged,
        call: slot.call,
        flush: slot.flush,
        reply: reply_again(&slot.reply),
    }
}

/// The reply of a change once more.
fn reply_again(reply: &Reply) -> Reply
    requires { IsChangeReply reply.now }
    ensures { result ≡ reply.now }
{
    match reply {
        Reply::Refused(why) => Reply::Refused(*why),
        Reply::Done => Reply::Done,
        Reply::Fd(_)
        | Reply::Bytes(_)
        | Reply::Count(_)
        | Reply::File(_)
        | Reply::Dir
        | Reply::Names(_) => unreachable!(),
    }
}
