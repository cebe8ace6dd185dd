ghost use Rattle.std.specs.Prelude.{◌≡◌, ◌≤◌, ◌+◌, true, Some, None, Ok, IfOk, OnOk, OnErr, length, map};
ghost use Rattle.cal_base.specs.Limits.{file_size, unflushed_blocks};
ghost use Rattle.delayed_write.specs.Delayed.{after_truncate, after_write};
ghost use Rattle.delayed_write.specs.Marks.{marked_by_truncate, marked_by_write, marked_count};
ghost use Rattle.tree_law.specs.Answer.{counted, made};
ghost use Rattle.file_bytes.specs.Bytes.{read_at};
ghost use Rattle.tree_law.specs.Descriptors.{opened, readable, within_limit, writable};
ghost use Rattle.tree_law.specs.Needs.{want_open, want_read};
ghost use Rattle.tree_law.specs.Part.{answer_in, bytes_in, listing_in, look_needs_in, needs_of_want_in, open_needs_in, opened_in, opening_in, path_needs_in, resolved_in, stat_needs_in, status_in, told_in};
ghost use Rattle.cal_base.specs.declared.directory_entry.EntryKind.TheVariants.{Directory as IsDirectory};
ghost use Rattle.tree_law.specs.Tree.{least_unused};
ghost use Rattle.client_cache.specs.AfterAnswer.{after_answer, with_change, with_descriptor, with_file, with_open};
ghost use Rattle.client_cache.specs.Covered.{IsSpelled, are_met, is_answerable, is_end_met, is_met, target_of, truncate_room, write_room};
ghost use Rattle.client_cache.specs.IsKnown.{IsCached, IsOpenFile, IsPlace};
ghost use Rattle.client_cache.specs.Known.{inode_at, part_of};

use crate::cache::Cache;
use crate::cached_inode::CachedInode;
use crate::resolve::Reached;
use cal_base::{Blob, DESCRIPTORS, DirectoryEntry, EntryKind, INODES, Ino, NameList, Oom};
use std::alloc::Global;
use tree_law::{Call, Descriptor, Mode, Reply, Why};

impl Cache {
    /// Answers a covered call, or carries out a last `close`. The reply is the one that what is held
    /// gives: by the rules of calls that is the whole tree's. `open` uses the lowest unused descriptor.
    /// After a last `close` the caller lowers its Open hold. After want of memory all is as it was.
    pub fn answer(&mut self, call: &Call) -> Result<Reply, Oom>
        requires spelled { IsSpelled call.now }
        requires answerable { is_answerable self.old call.now ≡ true }
        ensures reply { IfOk result (λ reply. answer_in (part_of self.old) call.now ≡ Some reply) }
        ensures state { OnOk result (self.new ≡ after_answer self.old call.now) }
        ensures err { OnErr result (self.new ≡ self.old) }
    {
        match call {
            Call::Create(_) => unreachable!(),
            Call::Mkdir(_) => unreachable!(),
            Call::Unlink(_) => unreachable!(),
            Call::Rmdir(_) => unreachable!(),
            Call::Rename(_, _) => unreachable!(),
            Call::Open(path, mode) => Ok(self.open(path.names(), *mode)),
            Call::Close(fd) => Ok(self.close(*fd)),
            Call::Read { fd, offset, len } => self.read(self.readable(*fd), *offset, *len),
            Call::Write { fd, offset, bytes } => self.write(*fd, *offset, bytes),
            Call::Truncate { fd, size } => self.truncate(*fd, *size),
            Call::Stat(path) => Ok(self.stat(path.names())),
            Call::Readdir(path) => self.list(path.names()),
            Call::Fsync(fd) => Ok(reply_of(self.opened(*fd))),
        }
    }

    fn stat(&self, path: &[Blob]) -> Reply
        requires { are_met self.now (path_needs_in stat_needs_in (part_of self.now) path.now) ≡ true }
        ensures { told_in (status_in (part_of self.now)) (resolved_in (part_of self.now) path.now) ≡ Some result }
    {
        let at = self.resolve(path);
        self.status(at)
    }

    /// What stands where resolving ends, as `stat` tells it.
    fn status(&self, at: Reached) -> Reply
        requires { is_end_met (is_met self.now) stat_needs_in at ≡ true }
        ensures { told_in (status_in (part_of self.now)) at ≡ Some result }
    {
        match at {
            None => unreachable!(),
            Some(Err(why)) => Reply::Refused(why),
            Some(Ok((_, EntryKind::Directory))) => Reply::Dir,
            Some(Ok((ino, EntryKind::File))) => Reply::File(self.size(ino)),
        }
    }

    /// The size of a file in bytes.
    fn size(&self, ino: Ino) -> u32
        requires { is_met self.now (ino, 3, 1) ≡ true }
        ensures { (part_of self.now).size ino ≡ Some result }
    {
        self.known_size(ino)
    }

    fn known_size(&self, ino: Ino) -> u32
        ensures { result ≡ (inode_at self.now ino).size }
    {
        match self.inodes.get(ino.0 as usize) {
            Some(inode) => inode.size,
            None => 0,
        }
    }

    fn list(&self, path: &[Blob]) -> Result<Reply, Oom>
        requires { are_met self.now (path_needs_in look_needs_in (part_of self.now) path.now) ≡ true }
        ensures { IfOk result (λ reply. told_in (listing_in (part_of self.now)) (resolved_in (part_of self.now) path.now) ≡ Some reply) }
    {
        let at = self.resolve(path);
        self.listing(at)
    }

    /// The names of a directory, as `readdir` tells them.
    fn listing(&self, at: Reached) -> Result<Reply, Oom>
        requires { is_end_met (is_met self.now) look_needs_in at ≡ true }
        ensures { IfOk result (λ reply. told_in (listing_in (part_of self.now)) at ≡ Some reply) }
    {
        match at {
            None => unreachable!(),
            Some(Err(why)) => Ok(Reply::Refused(why)),
            Some(Ok((ino, EntryKind::Directory))) => self.names(ino),
            Some(Ok((_, EntryKind::File))) => Ok(Reply::Refused(Why::NotDir)),
        }
    }

    fn names(&self, ino: Ino) -> Result<Reply, Oom>
        requires { is_met self.now (ino, 1, 1) ≡ true }
        ensures { IfOk result (λ reply. listing_in (part_of self.now) ino IsDirectory ≡ Some reply) }
    {
        match self.entries(ino) {
            Some(entries) => Ok(Reply::Names(names_of(
                *self.inodes.allocator(),
                entries.as_slice(),
            )?)),
            None => unreachable!(),
        }
    }

    /// Opens what a path names under the lowest unused descriptor.
    fn open(&mut self, path: &[Blob], mode: Mode) -> Reply
        requires { are_met self.old (needs_of_want_in (part_of self.old) (want_open (least_unused self.old.table) path.now)) ≡ true }
        ensures reply { opening_in (least_unused self.old.table) (resolved_in (part_of self.old) path.now) ≡ Some result }
        ensures state { self.new ≡ with_open self.old mode (least_unused self.old.table) (target_of (resolved_in (part_of self.old) path.now)) }
    {
        match self.least_unused() {
            Some(fd) => self.open_as(fd, path, mode),
            None => Reply::Refused(Why::MFile),
        }
    }

    fn open_as(&mut self, fd: u8, path: &[Blob], mode: Mode) -> Reply
        requires { are_met self.old (path_needs_in open_needs_in (part_of self.old) path.now) ≡ true }
        ensures reply { told_in (λ ino kind. opened_in fd kind) (resolved_in (part_of self.old) path.now) ≡ Some result }
        ensures state { self.new ≡ with_open self.old mode (Some fd) (target_of (resolved_in (part_of self.old) path.now)) }
    {
        let at = self.place(path);
        self.open_at(fd, at, mode)
    }

    /// Opens the file where resolving ends.
    fn open_at(&mut self, fd: u8, at: Reached, mode: Mode) -> Reply
        requires met { is_end_met (is_met self.old) open_needs_in at ≡ true }
        requires bound { IsPlace at }
        ensures reply { told_in (λ ino kind. opened_in fd kind) at ≡ Some result }
        ensures state { self.new ≡ with_open self.old mode (Some fd) (target_of at) }
    {
        match at {
            None => unreachable!(),
            Some(Err(why)) => Reply::Refused(why),
            Some(Ok((_, EntryKind::Directory))) => Reply::Refused(Why::IsDir),
            Some(Ok((ino, EntryKind::File))) => {
                self.put_descriptor(fd, Some(Descriptor { ino, mode }));
                Reply::Fd(fd)
            }
        }
    }

    fn close(&mut self, fd: u8) -> Reply
        ensures reply { result ≡ made (opened self.old.table fd) }
        ensures state { self.new ≡ with_descriptor self.old fd None }
    {
        let file = self.opened(fd);
        self.put_descriptor(fd, None);
        reply_of(file)
    }

    /// Makes a descriptor stand for something else, or for nothing.
    fn put_descriptor(&mut self, fd: u8, descriptor: Option<Descriptor>)
        requires { IsOpenFile descriptor }
        ensures { self.new ≡ with_descriptor self.old fd descriptor }
    {
        if fd < DESCRIPTORS {
            self.table[usize::from(fd)] = descriptor;
        }
    }

    fn read(&self, file: Result<Ino, Why>, offset: u64, len: u32) -> Result<Reply, Oom>
        requires { are_met self.now (needs_of_want_in (part_of self.now) (want_read file)) ≡ true }
        ensures { IfOk result (λ reply. bytes_in (part_of self.now) offset len file ≡ Some reply) }
    {
        match file {
            Ok(ino) => self.bytes(ino, offset, len),
            Err(why) => Ok(Reply::Refused(why)),
        }
    }

    fn bytes(&self, ino: Ino, offset: u64, len: u32) -> Result<Reply, Oom>
        requires { is_met self.now (ino, 2, 1) ≡ true }
        ensures { IfOk result (λ reply. bytes_in (part_of self.now) offset len (Ok ino) ≡ Some reply) }
    {
        Ok(Reply::Bytes(self.known_bytes(ino, offset, len)?))
    }

    fn known_bytes(&self, ino: Ino, offset: u64, len: u32) -> Result<Blob, Oom>
        ensures { IfOk result (λ bytes. bytes ≡ read_at (inode_at self.now ino).file.contents offset len) }
    {
        match self.inodes.get(ino.0 as usize) {
            Some(inode) => inode.read(offset, len),
            None => Ok(Blob::new(*self.inodes.allocator())),
        }
    }

    fn write(&mut self, fd: u8, offset: u64, bytes: &Blob) -> Result<Reply, Oom>
        requires some { 1 ≤ length bytes.now }
        requires few { length bytes.now ≤ 32768 }
        requires room { write_room self.old offset (length bytes.now) (within_limit (offset + length bytes.now) (writable self.old.table fd)) ≡ true }
        ensures reply { IfOk result (λ reply. reply ≡ counted (length bytes.now) (within_limit (offset + length bytes.now) (writable self.old.table fd))) }
        ensures state { OnOk result (self.new ≡ with_change self.old (λ file. after_write file offset bytes.now) (within_limit (offset + length bytes.now) (writable self.old.table fd))) }
        ensures err { OnErr result (self.new ≡ self.old) }
    {
        match self.write_place(fd, offset, bytes.len()) {
            Ok(ino) => {
                self.write_file(ino, offset as u32, bytes.as_slice())?;
                Ok(Reply::Count(bytes.len() as u32))
            }
            Err(why) => Ok(Reply::Refused(why)),
        }
    }

    fn write_file(&mut self, ino: Ino, offset: u32, bytes: &[u8]) -> Result<(), Oom>
        requires some { 1 ≤ length bytes.now }
        requires few { length bytes.now ≤ 32768 }
        requires end { offset + length bytes.now ≤ file_size }
        requires marks { marked_count (marked_by_write (inode_at self.old ino).file.marks offset (length bytes.now)) ≤ unflushed_blocks }
        ensures ok { OnOk result (self.new ≡ with_change self.old (λ file. after_write file offset bytes.now) (Ok ino)) }
        ensures err { OnErr result (self.new ≡ self.old) }
    {
        if (ino.0 as usize) < INODES {
            self.inodes[ino.0 as usize].write(offset, bytes)?;
        }
        Ok(())
    }

    fn truncate(&mut self, fd: u8, size: u64) -> Result<Reply, Oom>
        requires room { truncate_room self.old size (within_limit size (writable self.old.table fd)) ≡ true }
        ensures reply { IfOk result (λ reply. reply ≡ made (within_limit size (writable self.old.table fd))) }
        ensures state { OnOk result (self.new ≡ with_change self.old (λ file. after_truncate file size) (within_limit size (writable self.old.table fd))) }
        ensures err { OnErr result (self.new ≡ self.old) }
    {
        match self.truncate_place(fd, size) {
            Ok(ino) => {
                self.truncate_file(ino, size as u32)?;
                Ok(Reply::Done)
            }
            Err(why) => Ok(Reply::Refused(why)),
        }
    }

    fn truncate_file(&mut self, ino: Ino, size: u32) -> Result<(), Oom>
        requires size { size ≤ file_size }
        requires marks { marked_count (marked_by_truncate (inode_at self.old ino).file.marks (length (inode_at self.old ino).file.contents) size) ≤ unflushed_blocks }
        ensures ok { OnOk result (self.new ≡ with_change self.old (λ file. after_truncate file size) (Ok ino)) }
        ensures err { OnErr result (self.new ≡ self.old) }
    {
        if (ino.0 as usize) < INODES {
            self.inodes[ino.0 as usize].truncate(size)?;
        }
        Ok(())
    }
}

impl CachedInode {
    /// The bytes of the file from an offset on, at most so many.
    fn read(&self, offset: u64, len: u32) -> Result<Blob, Oom>
        ensures { IfOk result (λ bytes. bytes ≡ read_at self.now.file.contents offset len) }
    {
        let size = self.file.size();
        let start = offset.min(u64::from(size)) as u32;
        self.file.read(start, len)
    }

    /// Writes bytes to the file.
    #[tactic(auto, using(crate::proofs::KnownLemmas::written_cached))]
    fn write(&mut self, offset: u32, bytes: &[u8]) -> Result<(), Oom>
        requires some { 1 ≤ length bytes.now }
        requires few { length bytes.now ≤ 32768 }
        requires end { offset + length bytes.now ≤ file_size }
        requires marks { marked_count (marked_by_write self.old.file.marks offset (length bytes.now)) ≤ unflushed_blocks }
        ensures ok { OnOk result (self.new ≡ with_file self.old (after_write self.old.file offset bytes.now)) }
        ensures cached { IsCached self.old → IsCached self.new }
        ensures err { OnErr result (self.new ≡ self.old) }
    {
        self.file.write(offset, bytes)?;
        self.size = self.file.size();
        Ok(())
    }

    /// Sets the size of the file in bytes.
    #[tactic(auto, using(crate::proofs::KnownLemmas::written_cached))]
    fn truncate(&mut self, size: u32) -> Result<(), Oom>
        requires size { size ≤ file_size }
        requires marks { marked_count (marked_by_truncate self.old.file.marks (length self.old.file.contents) size) ≤ unflushed_blocks }
        ensures ok { OnOk result (self.new ≡ with_file self.old (after_truncate self.old.file size)) }
        ensures cached { IsCached self.old → IsCached self.new }
        ensures err { OnErr result (self.new ≡ self.old) }
    {
        self.file.truncate(size)?;
        self.size = self.file.size();
        Ok(())
    }
}

/// The reply of a call that tells nothing.
fn reply_of(file: Result<Ino, Why>) -> Reply
    ensures { result ≡ made file }
{
    match file {
        Ok(_) => Reply::Done,
        Err(why) => Reply::Refused(why),
    }
}

/// The names of entries, in their order.
fn names_of(alloc: Global, entries: &[DirectoryEntry]) -> Result<NameList, Oom>
    ensures { IfOk result (λ names. names ≡ map (λ entry. entry.name) entries.now) }
{
    let mut names = NameList::new(alloc);
    for entry in entries {
        names.push(copy_name(alloc, entry.name.as_slice())?)?;
    }
    Ok(names)
}

/// A copy of a name's bytes.
fn copy_name(alloc: Global, name: &[u8]) -> Result<Blob, Oom>
    ensures { IfOk result (λ copy. copy ≡ name.now) }
{
    Ok(Blob::from_vec(Vec::from_slice(alloc, name)?))
}
