ghost use Rattle.std.specs.Prelude.{◌≡◌, ◌+◌, nat_lt};
ghost use Rattle.cal_base.specs.Limits.{file_size};
ghost use Rattle.tree_law.specs.Tree.{table_of};
ghost use Rattle.tree_law.specs.Descriptors.{opened, readable, reads, writable, writes, within_limit};

use crate::mode::Mode;
use crate::plain_tree::PlainTree;
use crate::reply::Why;
use cal_base::{ClientId, FILE_SIZE, Ino};

impl PlainTree {
    /// The file behind a descriptor that is open, or EBADF.
    pub(crate) fn opened(&self, client: ClientId, fd: u8) -> Result<Ino, Why>
        ensures { result ≡ opened (table_of self.now client) fd }
    {
        match self.descriptor(client, fd) {
            Some(descriptor) => Ok(descriptor.ino),
            None => Err(Why::BadF),
        }
    }

    /// The file behind a descriptor that is open for reading, or EBADF.
    pub(crate) fn readable(&self, client: ClientId, fd: u8) -> Result<Ino, Why>
        ensures { result ≡ readable (table_of self.now client) fd }
    {
        match self.descriptor(client, fd) {
            Some(descriptor) => {
                if reads(descriptor.mode) {
                    Ok(descriptor.ino)
                } else {
                    Err(Why::BadF)
                }
            }
            None => Err(Why::BadF),
        }
    }

    /// The file behind a descriptor that is open for writing, or EBADF.
    pub(crate) fn writable(&self, client: ClientId, fd: u8) -> Result<Ino, Why>
        ensures { result ≡ writable (table_of self.now client) fd }
    {
        match self.descriptor(client, fd) {
            Some(descriptor) => {
                if writes(descriptor.mode) {
                    Ok(descriptor.ino)
                } else {
                    Err(Why::BadF)
                }
            }
            None => Err(Why::BadF),
        }
    }

    /// The file that a write makes reach at least to this end, or EBADF or EFBIG.
    pub(crate) fn write_place(
        &self,
        client: ClientId,
        fd: u8,
        offset: u64,
        len: usize,
    ) -> Result<Ino, Why>
        ensures { result ≡ within_limit (offset + len) (writable (table_of self.now client) fd) }
    {
        match self.writable(client, fd) {
            Ok(ino) => {
                if is_past_limit(offset, len) {
                    Err(Why::FBig)
                } else {
                    Ok(ino)
                }
            }
            Err(why) => Err(why),
        }
    }

    /// The file that a truncate gives this size, or EBADF or EFBIG.
    pub(crate) fn truncate_place(&self, client: ClientId, fd: u8, size: u64) -> Result<Ino, Why>
        ensures { result ≡ within_limit size (writable (table_of self.now client) fd) }
    {
        match self.writable(client, fd) {
            Ok(ino) => {
                if size > FILE_SIZE {
                    Err(Why::FBig)
                } else {
                    Ok(ino)
                }
            }
            Err(why) => Err(why),
        }
    }
}

/// Whether bytes from an offset on end past the limit of a file.
pub(crate) fn is_past_limit(offset: u64, len: usize) -> bool
    ensures { result ≡ nat_lt file_size (offset + len) }
{
    offset > FILE_SIZE || len as u64 > FILE_SIZE - offset
}

/// Whether a descriptor of this mode reads.
fn reads(mode: Mode) -> bool
    ensures { result ≡ reads mode }
{
    match mode {
        Mode::R => true,
        Mode::W => false,
        Mode::Rw => true,
    }
}

/// Whether a descriptor of this mode writes.
fn writes(mode: Mode) -> bool
    ensures { result ≡ writes mode }
{
    match mode {
        Mode::R => false,
        Mode::W => true,
        Mode::Rw => true,
    }
}
