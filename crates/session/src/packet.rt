ghost use Rattle.std.specs.Prelude.{◌≡◌, IfOk};

use crate::body::Body;
use cal_base::{Items, NodeId, Oom, View};

/// A packet of the session of two nodes in one view.
#[derive(Debug, Drop, PartialEq, Eq)]
pub struct Packet {
    /// Who sent it.
    pub from: NodeId,
    /// For whom it is.
    pub to: NodeId,
    /// The view of the session.
    pub view: View,
    /// The number of its message, from 1; 0 where it carries none.
    pub seq: u64,
    /// How many messages of the receiver its sender has taken.
    pub ack: u64,
    /// The message, empty where it carries none.
    pub body: Body,
}

impl Packet {
    /// The same packet once more; the bytes of its body are not copied.
    pub fn share(&self) -> Result<Packet, Oom>
        ensures { IfOk result (λ packet. packet ≡ self.now) }
    {
        Ok(Packet {
            from: self.from,
            to: self.to,
            view: self.view,
            seq: self.seq,
            ack: self.ack,
            body: self.body.share()?,
        })
    }
}

/// What a packet brought.
#[derive(Debug, Drop)]
pub struct Taken {
    /// The body of its message, where that was the next one.
    pub body: Option<Body>,
    /// The packets of the messages that leave the queue, in order, as an acknowledgement makes room.
    pub opened: Items<Packet>,
}
