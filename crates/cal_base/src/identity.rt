use crate::limits::BLOCK_SIZE;

/// A client, 0 to 15.
#[derive(Clone, Copy, Debug, PartialEq, Eq, PartialOrd, Ord, Hash)]
pub struct ClientId(pub u8);

/// One of the two servers on the shared disk.
#[derive(Clone, Copy, Debug, PartialEq, Eq, PartialOrd, Ord, Hash)]
pub enum ServerId {
    A,
    B,
}

/// A node of the cluster: an end of a session, and a place where a step is made.
#[derive(Clone, Copy, Debug, PartialEq, Eq, PartialOrd, Ord, Hash)]
pub enum NodeId {
    Client(ClientId),
    Server(ServerId),
}

/// The number of a view, from 1. Each takeover opens the next one; a disk under a view's key takes
/// the writes of that view alone.
#[derive(Clone, Copy, Debug, PartialEq, Eq, PartialOrd, Ord, Hash)]
pub struct View(pub u64);

/// The number of an inode, 0 to 511. Inode 0 is the root directory.
#[derive(Clone, Copy, Debug, PartialEq, Eq, PartialOrd, Ord, Hash)]
pub struct Ino(pub u32);

impl Ino {
    /// The root directory.
    pub const ROOT: Ino = Ino(0);
}

/// The bytes of one sector of the disk.
pub type Sector = [u8; BLOCK_SIZE];
