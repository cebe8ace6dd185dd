use crate::hold::Hold;
use cal_base::{Ino, Items, Sector};

/// Blocks of a file, each with its index in the file.
pub type PieceList = Items<(u8, Sector)>;

/// The unflushed writes of a client to one file, on their way to the server.
#[derive(Clone, Debug, Drop, PartialEq, Eq)]
pub struct Flush {
    /// The number of the flush; a client counts its flushes from 1.
    pub number: u64,
    pub ino: Ino,
    /// The size of the file in bytes, at most 262,144.
    pub size: u32,
    /// The least size in bytes that the file had since the flush before, at most `size`.
    pub cut: u32,
    /// What of Data the client keeps: Read or none.
    pub leave_data: Hold,
    /// What of Attr the client keeps: Read or none.
    pub leave_attr: Hold,
    /// At most 16 blocks, by rising index; each begins before `size`.
    pub pieces: PieceList,
}
