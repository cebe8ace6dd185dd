ghost use Rattle.std.specs.Prelude.{◌≡◌, ◌<◌, ◌↔◌};
ghost use Rattle.change_reply.specs.ReplyBytes.{IsChangeReply};
ghost use Rattle.request_log.specs.Slot.{IsSlot};
ghost use Rattle.request_log.specs.Judge.{judged};

use crate::slot::Slot;
use tree_law::Reply;

/// What a slot says of the number of a change.
#[derive(Clone, Debug, Drop, PartialEq, Eq)]
pub enum Judged {
    /// It is above the number of the last change: the change wasn't made.
    New,
    /// It is the number of the last change, whose reply was kept.
    Kept(Reply),
    /// It is below: the change was answered long ago.
    Old,
}

impl Slot {
    /// What the slot says of the number of a change, which is at least 1. It takes no memory.
    pub fn judge(&self, number: u64) -> Judged
        requires { IsSlot self.now }
        ensures judged { result ≡ judged self.now number }
        ensures kept { (result ≡ Judged.Kept self.now.reply) ↔ (number ≡ self.now.call) }
        ensures old { (result ≡ Judged.Old) ↔ (number < self.now.call) }
        ensures new { (result ≡ Judged.New) ↔ (self.now.call < number) }
    {
        if number == self.call {
            return Judged::Kept(copy_reply(&self.reply));
        }
        if number < self.call {
            return Judged::Old;
        }
        Judged::New
    }
}

/// A copy of a change's reply, which takes no memory.
fn copy_reply(reply: &Reply) -> Reply
    requires { IsChangeReply reply.now }
    ensures { result ≡ reply.now }
{
    match reply {
        Reply::Done => Reply::Done,
        Reply::Refused(why) => Reply::Refused(*why),
        Reply::Fd(_) => unreachable!(),
        Reply::Bytes(_) => unreachable!(),
        Reply::Count(_) => unreachable!(),
        Reply::File(_) => unreachable!(),
        Reply::Dir => unreachable!(),
        Reply::Names(_) => unreachable!(),
    }
}
