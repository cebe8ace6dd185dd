use cal_base::{Blob, NameList};

/// Why a call is refused. Unless said, the cause is that of POSIX.1's error of that name.
#[derive(Clone, Copy, Debug, PartialEq, Eq)]
pub enum Why {
    /// EEXIST: the name stands already, or the path is the root.
    Exist,
    /// ENOENT: a name on the path isn't there.
    NoEnt,
    /// ENOTDIR: a name on the path before the last, or what has to be a directory, is a file.
    NotDir,
    /// EISDIR: what has to be a file is a directory.
    IsDir,
    /// ENOTEMPTY: the directory has entries.
    NotEmpty,
    /// EINVAL: a directory would be moved into itself.
    Inval,
    /// EBUSY: the root is neither removed nor moved.
    Busy,
    /// EMFILE: the client has its 32 descriptors in use.
    MFile,
    /// EBADF: the descriptor isn't open, or not for this.
    BadF,
    /// EFBIG: the file would pass 262,144 bytes.
    FBig,
    /// ENOSPC: fewer blocks are free than the call needs.
    NoSpace { free: u16, needed: u16 },
    /// ENOSPC, of inodes: all 512 are in use.
    NoInode,
    /// ENOSPC, of one directory: it has its 1,024 entries.
    DirFull,
}

/// The answer of a call.
#[derive(Clone, Debug, Drop, PartialEq, Eq)]
pub enum Reply {
    /// The call was carried out, and has nothing to tell.
    Done,
    /// The file is open under this descriptor.
    Fd(u8),
    /// The bytes read; none at or past the end of the file.
    Bytes(Blob),
    /// How many bytes were written: all that were handed in.
    Count(u32),
    /// The path names a file of this size in bytes.
    File(u32),
    /// The path names a directory.
    Dir,
    /// The names of a directory, sorted by their bytes.
    Names(NameList),
    /// The call is refused, and changed nothing.
    Refused(Why),
}
