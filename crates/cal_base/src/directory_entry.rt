use crate::identity::Ino;
use crate::items::Blob;

/// What an entry of a directory names.
#[derive(Clone, Copy, Debug, PartialEq, Eq)]
pub enum EntryKind {
    File,
    Directory,
}

/// An entry of a directory.
#[derive(Clone, Debug, Drop, PartialEq, Eq)]
pub struct DirectoryEntry {
    /// Its name, 1 to 27 bytes.
    pub name: Blob,
    /// The inode that it names.
    pub ino: Ino,
    /// What that inode is.
    pub kind: EntryKind,
}
