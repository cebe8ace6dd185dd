use cal_base::{ClientId, Items, NodeId, Sector, ServerId, View};
use session::Packet;
use shared_disk::Stop;
use token_kind::Block;
use tree_law::{Call, Entry, Reply};

/// A write of the disk: the sector's number and its bytes.
pub type SectorWrite = (u32, Sector);

/// What may happen in a cluster.
#[derive(Debug, Drop)]
pub enum Event {
    /// A client starts a call.
    Start {
        client: ClientId,
        call: Call,
    },
    /// The packet of this number comes to its receiver, also if it came before or was lost.
    Deliver {
        packet: u64,
        stop: Option<Stop>,
    },
    /// A node's time for resending is over.
    Tick {
        node: NodeId,
        stop: Option<Stop>,
    },
    /// A node ends; what it had in memory is gone.
    Crash {
        node: NodeId,
    },
    /// The next view is opened, and this server boots for it.
    NewView {
        server: ServerId,
        stop: Option<Stop>,
    },
    /// A crashed client is declared gone: it will not return.
    Gone {
        client: ClientId,
    },
    /// A client flushes the file behind a descriptor.
    WriteBack {
        client: ClientId,
        fd: u8,
    },
}

/// Why a server halts. It makes no further step.
#[derive(Clone, Copy, Debug, PartialEq, Eq)]
pub enum Halt {
    /// The disk is under the key of another view.
    Fenced { mine: View, current: View },
    /// A call of the disk failed; so often it had failed by then.
    Failed { faults: u64 },
    /// The stop that was armed on it is due.
    Stopped,
    /// This sector, as it was read, is outside its grammar.
    Damaged { sector: u32 },
}

/// The answer to a client's call of this number.
#[derive(Debug, Drop)]
pub struct Answer {
    pub number: u64,
    pub reply: Reply,
}

/// One step, as it is printed.
#[derive(Debug, Drop)]
pub struct TraceStep {
    /// The node whose step it is, if it is one's.
    pub node: Option<NodeId>,
    pub event: Event,
    /// The writes that the disk accepted, in order.
    pub writes: Items<SectorWrite>,
    /// The entries of the history, in order.
    pub entries: Items<Entry>,
    /// The packets that went out, in order.
    pub sent: Items<Packet>,
    pub answer: Option<Answer>,
    /// What blocks the head of a server's line after the step.
    pub head: Option<Block>,
    pub halt: Option<Halt>,
}
