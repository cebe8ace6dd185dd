use cal_base::{Blob, ClientId, Ino, NodeId, View};
use cluster_law::{Halt, SectorWrite};
use session::Packet;
use shared_disk::Stop;
use token_kind::Block;
use trace_text::{Cause, Settled};
use tree_law::Call;

/// The event of a step, as its line tells it: whose step it is stands in front of it.
#[derive(Debug, Drop)]
pub enum StepEvent {
    /// A client starts its call of this number.
    Start { number: u64, call: Call },
    /// The packet of this number comes to its receiver.
    Deliver { packet: u64, stop: Option<Stop> },
    /// A node's time for resending is over.
    Tick { stop: Option<Stop> },
    /// A node ends.
    Crash,
    /// This view is opened.
    NewView { view: View, stop: Option<Stop> },
    /// A crashed client is declared gone.
    Gone { client: ClientId },
    /// A client flushes the file behind a descriptor.
    WriteBack { fd: u8 },
}

/// A line of the text of a run, but for the first and the last.
#[derive(Debug, Drop)]
pub enum TraceLine {
    /// The step of this index, a node's or the list of members'.
    Step {
        index: u64,
        actor: Option<NodeId>,
        event: StepEvent,
    },
    /// The disk accepted a write.
    Write(SectorWrite),
    /// A call of this number of a client happened to the file tree. The reply's text is not read: that
    /// takes the call, which another line tells.
    CallEntry {
        client: ClientId,
        number: u64,
        new_ino: Option<Ino>,
        reply: Blob,
    },
    /// A client's flush of a file happened.
    FlushEntry {
        client: ClientId,
        ino: Ino,
    },
    /// A client's descriptors were closed.
    PurgeEntry {
        client: ClientId,
    },
    /// The packet of this number was sent. Its body is any bytes.
    Send {
        number: u64,
        packet: Packet,
    },
    /// A client's call of this number is answered. The reply's text is not read.
    Answer {
        client: ClientId,
        number: u64,
        reply: Blob,
    },
    /// The head of a server's line is blocked.
    Head(Block),
    /// A node halts.
    Halt {
        actor: Option<NodeId>,
        halt: Halt,
    },
    /// The event of this line of the script is refused.
    Refused {
        line: u32,
        cause: Cause,
    },
    /// The `settle` of this line of the script ends after so many cycles.
    Settled {
        line: u32,
        cycles: u64,
        how: Settled,
    },
}
