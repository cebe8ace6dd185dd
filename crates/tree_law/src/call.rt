use crate::mode::Mode;
use crate::path::Path;
use cal_base::Blob;

/// A file call.
#[derive(Clone, Debug, Drop, PartialEq, Eq)]
pub enum Call {
    /// Makes an empty file. Unlike POSIX.1's `open` with `O_CREAT` it opens nothing, and a name that
    /// stands is `EEXIST`.
    Create(Path),
    /// Makes an empty directory.
    Mkdir(Path),
    /// Takes a file's name away. Its contents stay until its last descriptor is closed.
    Unlink(Path),
    /// Removes an empty directory.
    Rmdir(Path),
    /// Moves an entry from the first path to the second, in place of what may stand there.
    Rename(Path, Path),
    /// Opens a file. Unlike POSIX.1's `open`, a directory is `EISDIR` in every mode.
    Open(Path, Mode),
    /// Gives a descriptor back. Those of a client are 0 to 31; no greater one is ever open.
    Close(u8),
    /// Reads `len` bytes from a stated offset, as POSIX.1's `pread`.
    Read { fd: u8, offset: u64, len: u32 },
    /// Writes 1 to 32,768 bytes at a stated offset, as POSIX.1's `pwrite`. One that would end past
    /// the limit of a file is refused whole.
    Write { fd: u8, offset: u64, bytes: Blob },
    /// Sets a file's size in bytes, as POSIX.1's `ftruncate`.
    Truncate { fd: u8, size: u64 },
    /// Tells what a path names, and the size of a file.
    Stat(Path),
    /// Lists the names of a directory, sorted by their bytes.
    Readdir(Path),
    /// Makes what the caller wrote to a file last.
    Fsync(u8),
}
