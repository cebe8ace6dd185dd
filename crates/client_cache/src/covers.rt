ghost use Rattle.std.specs.Prelude.{◌≡◌, ◌≤◌, ◌+◌, length, count_by};
ghost use Rattle.cal_base.specs.Limits.{file_size};
ghost use Rattle.token_kind.specs.Class.{class_number};
ghost use Rattle.token_kind.specs.Hold.{hold_number};
ghost use Rattle.tree_law.specs.Descriptors.{opened, readable, within_limit, writable};
ghost use Rattle.tree_law.specs.Needs.{want_open, want_read, want_write};
ghost use Rattle.tree_law.specs.Part.{look_needs_in, needs_of_want_in, open_needs_in, path_needs_in, stat_needs_in};
ghost use Rattle.tree_law.specs.Tree.{least_unused};
ghost use Rattle.client_cache.specs.Covered.{IsSpelled, are_met, covered, is_end_met, is_met, is_synced, stays_open, truncate_room, write_room};
ghost use Rattle.client_cache.specs.Known.{inode_at, part_of};
ghost use Rattle.delayed_write.specs.Marks.{marked_by_truncate, marked_by_write, marked_count};
ghost use Rattle.tree_law.specs.Idle.{opens_it};

use crate::cache::Cache;
use crate::cached_inode::CachedInode;
use crate::resolve::Reached;
use cal_base::{Blob, EntryKind, Ino, UNFLUSHED_BLOCKS};
use token_kind::{Class, Hold};
use tree_law::{Call, Descriptor, Why};

impl Cache {
    /// Whether the client answers a call by itself. A change of the tree is never covered; `close`
    /// where it is EBADF or another descriptor stays for the file; `fsync` where it is EBADF or nothing
    /// of the file is unflushed or under way; every other call where its needs are held, no flush is
    /// outstanding of a file whose Data or Attr it needs, and at most 16 blocks of a file are unflushed
    /// after it.
    pub fn covers(&self, call: &Call) -> bool
        requires { IsSpelled call.now }
        ensures { result ≡ covered self.now call.now }
    {
        match call {
            Call::Create(_) => false,
            Call::Mkdir(_) => false,
            Call::Unlink(_) => false,
            Call::Rmdir(_) => false,
            Call::Rename(_, _) => false,
            Call::Open(path, _) => self.covers_open(path.names()),
            Call::Close(fd) => self.stays_open(self.opened(*fd)),
            Call::Read {
                fd,
                offset: _,
                len: _,
            } => self.covers_read(self.readable(*fd)),
            Call::Write { fd, offset, bytes } => {
                self.meets_write(self.write_place(*fd, *offset, bytes.len()))
                    && self.write_room(*fd, *offset, bytes.len())
            }
            Call::Truncate { fd, size } => {
                self.meets_write(self.truncate_place(*fd, *size)) && self.truncate_room(*fd, *size)
            }
            Call::Stat(path) => self.covers_stat(path.names()),
            Call::Readdir(path) => self.covers_readdir(path.names()),
            Call::Fsync(fd) => self.is_synced(self.opened(*fd)),
        }
    }

    /// Whether at least this hold is held, and for Data and Attr no flush of the file is outstanding.
    fn meets(&self, ino: Ino, class: Class, hold: Hold) -> bool
        ensures { result ≡ is_met self.now (ino, class_number class, hold_number hold) }
    {
        let held = self.held(ino, class).number() >= hold.number();
        match class {
            Class::Names => held,
            Class::Data => held && !self.flushing(ino),
            Class::Attr => held && !self.flushing(ino),
            Class::Open => held,
        }
    }

    fn covers_stat(&self, path: &[Blob]) -> bool
        ensures { result ≡ are_met self.now (path_needs_in stat_needs_in (part_of self.now) path.now) }
    {
        let at = self.resolve(path);
        self.meets_stat(at)
    }

    fn meets_stat(&self, at: Reached) -> bool
        ensures { result ≡ is_end_met (is_met self.now) stat_needs_in at }
    {
        match at {
            None => false,
            Some(Err(_)) => true,
            Some(Ok((_, EntryKind::Directory))) => true,
            Some(Ok((ino, EntryKind::File))) => self.meets(ino, Class::Attr, Hold::Read),
        }
    }

    fn covers_readdir(&self, path: &[Blob]) -> bool
        ensures { result ≡ are_met self.now (path_needs_in look_needs_in (part_of self.now) path.now) }
    {
        let at = self.resolve(path);
        self.meets_readdir(at)
    }

    fn meets_readdir(&self, at: Reached) -> bool
        ensures { result ≡ is_end_met (is_met self.now) look_needs_in at }
    {
        match at {
            None => false,
            Some(Err(_)) => true,
            Some(Ok((ino, EntryKind::Directory))) => self.meets(ino, Class::Names, Hold::Read),
            Some(Ok((_, EntryKind::File))) => true,
        }
    }

    fn covers_open(&self, path: &[Blob]) -> bool
        ensures { result ≡ are_met self.now (needs_of_want_in (part_of self.now) (want_open (least_unused self.now.table) path.now)) }
    {
        match self.least_unused() {
            Some(_) => self.covers_opening(path),
            None => true,
        }
    }

    fn covers_opening(&self, path: &[Blob]) -> bool
        ensures { result ≡ are_met self.now (path_needs_in open_needs_in (part_of self.now) path.now) }
    {
        let at = self.resolve(path);
        self.meets_open(at)
    }

    fn meets_open(&self, at: Reached) -> bool
        ensures { result ≡ is_end_met (is_met self.now) open_needs_in at }
    {
        match at {
            None => false,
            Some(Err(_)) => true,
            Some(Ok((_, EntryKind::Directory))) => true,
            Some(Ok((ino, EntryKind::File))) => self.meets(ino, Class::Open, Hold::Read),
        }
    }

    fn covers_read(&self, file: Result<Ino, Why>) -> bool
        ensures { result ≡ are_met self.now (needs_of_want_in (part_of self.now) (want_read file)) }
    {
        match file {
            Ok(ino) => {
                self.meets(ino, Class::Data, Hold::Read) && self.meets(ino, Class::Attr, Hold::Read)
            }
            Err(_) => true,
        }
    }

    fn meets_write(&self, file: Result<Ino, Why>) -> bool
        ensures { result ≡ are_met self.now (needs_of_want_in (part_of self.now) (want_write file)) }
    {
        match file {
            Ok(ino) => {
                self.meets(ino, Class::Data, Hold::Write)
                    && self.meets(ino, Class::Attr, Hold::Write)
            }
            Err(_) => true,
        }
    }

    /// Whether at most 16 blocks are unflushed after a write that isn't refused.
    pub(crate) fn write_room(&self, fd: u8, offset: u64, len: usize) -> bool
        requires { len ≤ 32768 }
        ensures { result ≡ write_room self.now offset len (within_limit (offset + len) (writable self.now.table fd)) }
    {
        match self.write_place(fd, offset, len) {
            Ok(ino) => self.blocks_after(ino, offset as u32, len as u32) <= UNFLUSHED_BLOCKS,
            Err(_) => true,
        }
    }

    fn blocks_after(&self, ino: Ino, offset: u32, len: u32) -> u8
        requires few { len ≤ 32768 }
        requires end { offset + len ≤ file_size }
        ensures { result ≡ marked_count (marked_by_write (inode_at self.now ino).file.marks offset len) }
    {
        match self.inodes.get(ino.0 as usize) {
            Some(inode) => inode.file.blocks_after(offset, len),
            None => CachedInode::new(*self.inodes.allocator())
                .file
                .blocks_after(offset, len),
        }
    }

    /// Whether at most 16 blocks are unflushed after a truncate that isn't refused.
    pub(crate) fn truncate_room(&self, fd: u8, size: u64) -> bool
        ensures { result ≡ truncate_room self.now size (within_limit size (writable self.now.table fd)) }
    {
        match self.truncate_place(fd, size) {
            Ok(ino) => self.blocks_after_truncate(ino, size as u32) <= UNFLUSHED_BLOCKS,
            Err(_) => true,
        }
    }

    fn blocks_after_truncate(&self, ino: Ino, size: u32) -> u8
        requires { size ≤ file_size }
        ensures { result ≡ marked_count (marked_by_truncate (inode_at self.now ino).file.marks (length (inode_at self.now ino).file.contents) size) }
    {
        match self.inodes.get(ino.0 as usize) {
            Some(inode) => inode.file.blocks_after_truncate(size),
            None => CachedInode::new(*self.inodes.allocator())
                .file
                .blocks_after_truncate(size),
        }
    }

    /// Whether another descriptor stays for the file, or the call is refused.
    fn stays_open(&self, file: Result<Ino, Why>) -> bool
        ensures { result ≡ stays_open self.now file }
    {
        match file {
            Ok(ino) => count_open(&self.table, ino) > 1,
            Err(_) => true,
        }
    }

    /// Whether nothing of the file is unflushed or under way, or the call is refused.
    fn is_synced(&self, file: Result<Ino, Why>) -> bool
        ensures { result ≡ is_synced self.now file }
    {
        match file {
            Ok(ino) => !self.unflushed(ino) && !self.flushing(ino),
            Err(_) => true,
        }
    }
}

/// How many descriptors stand for a file.
fn count_open(table: &[Option<Descriptor>], ino: Ino) -> usize
    ensures { result ≡ count_by (opens_it ino.0) table.now }
{
    table.iter().filter(|place| is_of(place, ino)).count()
}

/// Whether a descriptor stands for a file.
fn is_of(place: &Option<Descriptor>, ino: Ino) -> bool
    ensures { result ≡ opens_it ino.0 place.now }
{
    match place {
        Some(descriptor) => descriptor.ino == ino,
        None => false,
    }
}
