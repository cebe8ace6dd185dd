/// Clients of one cluster.
pub const CLIENTS: u8 = 16;

/// Descriptors of one client; they are numbered from 0.
pub const DESCRIPTORS: u8 = 32;

/// Clients that a server asks for their holds at a time, at most.
pub const WINDOW: u8 = 8;

/// Clients that a server asks for their holds at a time, where a script names no window.
pub const DEFAULT_WINDOW: u8 = 4;

/// Bytes of a name.
pub const NAME_BYTES: usize = 27;

/// Names of a path.
pub const PATH_NAMES: usize = 16;

/// Bytes of a block and of a sector.
pub const BLOCK_SIZE: usize = 4_096;

/// Blocks of one file.
pub const FILE_BLOCKS: usize = 64;

/// Bytes of one file.
pub const FILE_SIZE: u64 = 262_144;

/// Bytes of one write, at least 1.
pub const WRITE_SIZE: usize = 32_768;

/// Blocks of one file that a client may keep unflushed.
pub const UNFLUSHED_BLOCKS: u8 = 16;

/// Entries of one directory.
pub const DIRECTORY_ENTRIES: usize = 1_024;

/// Blocks of one directory.
pub const DIRECTORY_BLOCKS: usize = 8;

/// Bytes of the blocks of one directory.
pub const DIRECTORY_SIZE: u32 = 32_768;

/// Slots of one block of a directory.
pub const SLOTS_PER_BLOCK: usize = 128;

/// Bytes of one slot of a directory.
pub const SLOT_SIZE: usize = 32;

/// Inodes of the volume.
pub const INODES: usize = 512;

/// The greatest inode; the least is 0, the root.
pub const LAST_INODE: u32 = 511;

/// Data blocks of the volume.
pub const BLOCKS: usize = 2_048;

/// Bytes of the block map, a bit for each data block.
pub const MAP_SIZE: usize = 256;

/// Sectors of the disk.
pub const SECTORS: u32 = 2_596;

/// Homes of one transaction, at least 1.
pub const TRANSACTION_HOMES: usize = 16;

/// Messages of one session that may be sent and not yet acknowledged.
pub const UNACKNOWLEDGED: usize = 8;

/// Holds in one piece of a client's report.
pub const HOLDS_PER_PIECE: usize = 32;

/// Lines of a script.
pub const SCRIPT_LINES: usize = 65_536;

/// Bytes of one line of a script, its line feed not counted.
pub const LINE_BYTES: usize = 70_000;

/// Bytes of a script.
pub const SCRIPT_BYTES: usize = 67_108_864;
