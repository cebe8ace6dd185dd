/// The head of the volume.
pub const AT_HEAD: u32 = 0;

/// The gate of the journal.
pub const AT_GATE: u32 = 1;

/// The header of the journal.
pub const AT_HEADER: u32 = 2;

/// The first of the journal's contents, one sector for each home of a transaction.
pub const FIRST_CONTENT: u32 = 3;

/// The journal's own sectors: the gate, the header and the contents.
pub const JOURNAL_SECTORS: u32 = 18;

/// The block map.
pub const AT_MAP: u32 = 19;

/// The slot of client 0. Those of the other clients stand behind it.
pub const FIRST_SLOT: u32 = 20;

/// Inode 0, the root. The other inodes stand behind it.
pub const FIRST_INODE: u32 = 36;

/// Data block 0. The other blocks stand behind it.
pub const FIRST_BLOCK: u32 = 548;
