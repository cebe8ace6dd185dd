use cal_base::{Blob, ClientId, Items, NodeId, ServerId};
use tree_law::Call;

/// What the sector holds that a stopped server was about to write.
#[derive(Clone, Debug, Drop, PartialEq, Eq)]
pub enum How {
    /// What it held before: no byte was written.
    Clean,
    /// This byte, 4,096 times.
    Fill(u8),
    /// These 1 to 4,096 bytes, and then zeros.
    Hex(Blob),
}

/// A line of a script that makes something happen.
#[derive(Clone, Debug, Drop, PartialEq, Eq)]
pub enum Line {
    /// A client makes a call.
    Call(ClientId, Call),
    /// The packet of this number is delivered, also if it was before.
    Deliver(u64),
    /// The packet of this number counts as lost.
    Drop(u64),
    /// The lowest undelivered packet that isn't lost, from the first node to the second, is delivered.
    Pass(NodeId, NodeId),
    /// All undelivered packets from the first node to the second, and all that are sent until this is
    /// mended, count as lost.
    Cut(NodeId, NodeId),
    /// Ends a cut for later packets.
    Mend(NodeId, NodeId),
    /// A node's tick.
    Tick(NodeId),
    /// A node ends between two steps.
    Crash(NodeId),
    /// A client is declared gone.
    Gone(ClientId),
    /// The next view, with this server.
    View(ServerId),
    /// A client writes back the file of a descriptor.
    WriteBack(ClientId, u8),
    /// A server stops before the write that follows this count of writes, counted from here.
    Stop {
        server: ServerId,
        after: u32,
        how: How,
    },
    /// The cluster runs until it is idle.
    Settle,
}

/// What a line says.
#[derive(Clone, Debug, Drop, PartialEq, Eq)]
pub enum Said {
    /// Nothing: it is empty or a comment.
    Nothing,
    /// The count of clients, 1 to 16.
    Clients(u8),
    /// How many clients a server asks for their holds at a time, 1 to 8.
    Window(u8),
    /// It makes something happen.
    Line(Line),
}

/// A script.
#[derive(Clone, Debug, Drop, PartialEq, Eq)]
pub struct Script {
    /// The count of clients, 1 to 16.
    pub clients: u8,
    /// How many clients a server asks for their holds at a time, 1 to 8.
    pub window: u8,
    /// The lines that make something happen, each with its number from 1.
    pub lines: Items<(u32, Line)>,
}
