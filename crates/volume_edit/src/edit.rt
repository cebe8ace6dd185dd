use cal_base::{ClientId, Ino};
use directory::DirEntry;
use inode::Inode;
use request_log::Slot;

/// A client's slot, as it is then.
#[derive(Debug, Drop)]
pub struct SlotEdit {
    pub client: ClientId,
    pub slot: Slot,
}

/// An inode that is made, freed, flushed or left without a name, as it is then. If it was a directory
/// it has no entry, and its blocks go.
#[derive(Clone, Copy, Debug)]
pub struct InodeEdit {
    pub ino: Ino,
    pub inode: Inode,
}

/// A directory gets one block more, behind its others.
#[derive(Clone, Copy, Debug)]
pub struct Growth {
    pub directory: Ino,
    /// The data block, below 2,048.
    pub block: u16,
}

/// The slot at this place of a directory is empty then.
#[derive(Clone, Copy, Debug)]
pub struct Leaving {
    pub directory: Ino,
    pub place: u16,
}

/// An entry stands in the slot at this place of a directory then.
#[derive(Debug, Drop)]
pub struct Entering {
    pub directory: Ino,
    pub place: u16,
    pub entry: DirEntry,
}

/// What one transaction alters of a volume. An entry goes before another one comes.
#[derive(Debug, Drop)]
pub struct Edit {
    pub slot: Option<SlotEdit>,
    pub inode: Option<InodeEdit>,
    pub growth: Option<Growth>,
    pub leaving: Option<Leaving>,
    pub entering: Option<Entering>,
}
