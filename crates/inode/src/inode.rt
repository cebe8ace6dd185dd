use cal_base::FILE_BLOCKS;

/// What an inode is.
#[derive(Clone, Copy, Debug, PartialEq, Eq)]
pub enum Kind {
    Free,
    File,
    Dir,
}

/// An inode: a file, a directory, or free.
#[derive(Clone, Copy, Debug, PartialEq, Eq)]
pub struct Inode {
    /// What it is.
    pub kind: Kind,
    /// Whether a directory names it; a file that none names is an orphan. The root counts as named.
    pub named: bool,
    /// Its size in bytes: of a file at most 262,144, of a directory whole blocks, at most 8.
    pub size: u32,
    /// Where its blocks are: 0 is a hole, and p from 1 to 2,048 is data block p - 1.
    pub blocks: [u16; FILE_BLOCKS],
}
