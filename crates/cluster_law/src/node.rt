use crate::step::{Answer, Halt, SectorWrite};
use cal_base::Items;
use session::Packet;
use token_kind::Block;
use tree_law::{Call, Entry};

/// What comes to a client.
#[derive(Debug, Drop)]
pub enum ClientInput {
    Start(Call),
    Packet(Packet),
    Tick,
    /// The file behind this descriptor is to be flushed.
    WriteBack(u8),
}

/// What a client's step gives.
#[derive(Debug, Drop)]
pub struct ClientOutput {
    pub sent: Items<Packet>,
    pub answer: Option<Answer>,
    /// The entry of a call that the client answered by itself.
    pub entry: Option<Entry>,
}

/// What comes to a server.
#[derive(Debug, Drop)]
pub enum ServerInput {
    Packet(Packet),
    Tick,
}

/// What a server's step gives.
#[derive(Debug, Drop)]
pub struct ServerOutput {
    pub sent: Items<Packet>,
    pub writes: Items<SectorWrite>,
    pub entries: Items<Entry>,
    pub head: Option<Block>,
}

/// What a server's step gives that halts: what it had written by then, a torn write with its bytes
/// included, and the entries of the commits that became final. It sends nothing.
#[derive(Debug, Drop)]
pub struct ServerHalted {
    pub writes: Items<SectorWrite>,
    pub entries: Items<Entry>,
    pub halt: Halt,
}
