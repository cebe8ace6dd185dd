ghost use Rattle.std.specs.Prelude.{◌≡◌, ◌+◌, ◌<◌, ◌≤◌, IfOk, IfSome, length, nat_lt, find, nat_eq, option_map, position, is_none, slice_index_or};
ghost use Rattle.std.specs.Cmp.Lexicographic.{pointwise};
ghost use Rattle.cal_base.specs.Limits.{file_size, inodes};
ghost use Rattle.tree_law.specs.Descriptors.{opened, readable, reads, within_limit, writable, writes};
ghost use Rattle.tree_law.specs.Part.{found_in, looked_up_in, place_of, resolved_in, root_place, stepped_in, walked_in};
ghost use Rattle.tree_law.specs.Tree.{least_unused};
ghost use Rattle.client_cache.specs.Covered.{file_of, target_of};
ghost use Rattle.client_cache.specs.IsKnown.{IsPlace};
ghost use Rattle.client_cache.specs.Known.{part_of};

use crate::cache::Cache;
use crate::entries::Entries;
use crate::holds::is_held;
use cal_base::{Blob, EntryKind, FILE_SIZE, Ino};
use tree_law::{Descriptor, Mode, Path, Why};

/// Where resolving stands: an inode and what it is, or the first refusal; none where entries on the
/// way aren't held.
pub(crate) type Reached = Option<Result<(Ino, EntryKind), Why>>;

impl Cache {
    /// The file at which resolving ends; none exactly where a Names that resolving needs isn't held, or
    /// it ends at no file.
    pub fn target(&self, path: &Path) -> Option<Ino>
        ensures value { result ≡ target_of (resolved_in (part_of self.now) path.now) }
        ensures bound { IfSome result (λ ino. ino.0 < inodes) }
    {
        match self.place(path.names()) {
            Some(Ok((ino, EntryKind::File))) => Some(ino),
            Some(Ok((_, EntryKind::Directory))) => None,
            Some(Err(_)) => None,
            None => None,
        }
    }

    /// What a path names, as far as the held entries tell: an inode of the volume.
    pub(crate) fn place(&self, path: &[Blob]) -> Reached
        ensures value { result ≡ resolved_in (part_of self.now) path.now }
        ensures bound { IsPlace result }
    {
        // That held entries are of the volume is kept by the type, and told where a field is used.
        let _ = &self.inodes;
        self.resolve(path)
    }

    /// What a path names, as far as the held entries tell.
    pub(crate) fn resolve(&self, path: &[Blob]) -> Reached
        ensures { result ≡ resolved_in (part_of self.now) path.now }
    {
        let mut at = Some(Ok((Ino::ROOT, EntryKind::Directory)));
        for name in path {
            at = self.step(at, name);
        }
        at
    }

    /// One name further.
    fn step(&self, at: Reached, name: &Blob) -> Reached
        ensures { result ≡ stepped_in (part_of self.now) at name.now }
    {
        match at {
            Some(Ok((ino, kind))) => self.look_up(ino, kind, name),
            Some(Err(why)) => Some(Err(why)),
            None => None,
        }
    }

    /// A name looked up in an inode; none where its entries aren't held.
    fn look_up(&self, ino: Ino, kind: EntryKind, name: &Blob) -> Reached
        ensures { result ≡ looked_up_in (part_of self.now) ino kind name.now }
    {
        match kind {
            EntryKind::Directory => match self.entries(ino) {
                Some(entries) => Some(found_in(entries, name)),
                None => None,
            },
            EntryKind::File => Some(Err(Why::NotDir)),
        }
    }

    /// The entries of a directory, where they are held.
    pub(crate) fn entries(&self, ino: Ino) -> Option<&Entries>
        ensures { option_map (λ entries. entries.now) result ≡ (part_of self.now).entries ino }
    {
        match self.inodes.get(ino.0 as usize) {
            Some(inode) => {
                if is_held(inode.holds.names) {
                    Some(&inode.entries)
                } else {
                    None
                }
            }
            None => None,
        }
    }

    /// The file behind a descriptor that is open, or EBADF.
    pub(crate) fn opened(&self, fd: u8) -> Result<Ino, Why>
        ensures { result ≡ opened self.now.table fd }
    {
        match self.descriptor(fd) {
            Some(descriptor) => Ok(descriptor.ino),
            None => Err(Why::BadF),
        }
    }

    /// The file behind a descriptor that is open for reading, or EBADF.
    pub(crate) fn readable(&self, fd: u8) -> Result<Ino, Why>
        ensures { result ≡ readable self.now.table fd }
    {
        match self.descriptor(fd) {
            Some(descriptor) => {
                if reads(descriptor.mode) {
                    Ok(descriptor.ino)
                } else {
                    Err(Why::BadF)
                }
            }
            None => Err(Why::BadF),
        }
    }

    /// The file behind a descriptor that is open for writing, or EBADF.
    fn writable(&self, fd: u8) -> Result<Ino, Why>
        ensures { result ≡ writable self.now.table fd }
    {
        match self.descriptor(fd) {
            Some(descriptor) => {
                if writes(descriptor.mode) {
                    Ok(descriptor.ino)
                } else {
                    Err(Why::BadF)
                }
            }
            None => Err(Why::BadF),
        }
    }

    /// The file that a write makes reach at least to this end, or EBADF or EFBIG.
    pub(crate) fn write_place(&self, fd: u8, offset: u64, len: usize) -> Result<Ino, Why>
        ensures value { result ≡ within_limit (offset + len) (writable self.now.table fd) }
        ensures limit { IfOk result (λ _. offset + len ≤ file_size) }
    {
        match self.writable(fd) {
            Ok(ino) => {
                if is_past_limit(offset, len) {
                    Err(Why::FBig)
                } else {
                    Ok(ino)
                }
            }
            Err(why) => Err(why),
        }
    }

    /// The file that a truncate gives this size, or EBADF or EFBIG.
    pub(crate) fn truncate_place(&self, fd: u8, size: u64) -> Result<Ino, Why>
        ensures value { result ≡ within_limit size (writable self.now.table fd) }
        ensures limit { IfOk result (λ _. size ≤ file_size) }
    {
        match self.writable(fd) {
            Ok(ino) => {
                if size > FILE_SIZE {
                    Err(Why::FBig)
                } else {
                    Ok(ino)
                }
            }
            Err(why) => Err(why),
        }
    }

    /// The lowest unused descriptor; none where all 32 are in use.
    pub(crate) fn least_unused(&self) -> Option<u8>
        ensures { result ≡ least_unused self.now.table }
    {
        match first_unused(&self.table) {
            Some(place) => Some(place as u8),
            None => None,
        }
    }
}

/// The lowest place with nothing.
fn first_unused(table: &[Option<Descriptor>]) -> Option<usize>
    ensures value { result ≡ least_unused table.now }
    ensures bound { IfSome result (λ place. place < length table.now) }
{
    table.iter().position(|place| place.is_none())
}

/// What an entry with a name tells.
fn found_in(entries: &Entries, name: &Blob) -> Result<(Ino, EntryKind), Why>
    ensures { result ≡ found_in entries.now name.now }
{
    match entries.find(name) {
        Some(entry) => Ok((entry.ino, entry.kind)),
        None => Err(Why::NoEnt),
    }
}

/// Whether bytes from an offset on end past the limit of a file.
fn is_past_limit(offset: u64, len: usize) -> bool
    ensures { result ≡ nat_lt file_size (offset + len) }
{
    offset > FILE_SIZE || len as u64 > FILE_SIZE - offset
}

/// Whether a descriptor of this mode reads.
fn reads(mode: Mode) -> bool
    ensures { result ≡ reads mode }
{
    match mode {
        Mode::R => true,
        Mode::W => false,
        Mode::Rw => true,
    }
}

/// Whether a descriptor of this mode writes.
fn writes(mode: Mode) -> bool
    ensures { result ≡ writes mode }
{
    match mode {
        Mode::R => false,
        Mode::W => true,
        Mode::Rw => true,
    }
}
