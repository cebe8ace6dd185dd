ghost use Rattle.std.specs.Prelude.{◌≡◌, ◌<◌, ◌≤◌, IfOk, IfSome, OnOk, OnErr, List, [], Option, Some, None, true, false, not, map, replicate, option_map, slice_index_or};
ghost use Rattle.cal_base.specs.Limits.{inodes};
ghost use Rattle.client_cache.specs.Holds.{hold_in};
ghost use Rattle.client_cache.specs.IsKnown.{IsKnown, IsOpenFile};
ghost use Rattle.client_cache.specs.Known.{first_known, flush_at, inode_at, is_settled, nothing_known};
ghost use Rattle.client_cache.specs.Changes.{IsContent, after_lower, after_take, is_expected, leaving, raised};
ghost use Rattle.token_kind.specs.Token.{may_hold};

use crate::cached_inode::CachedInode;
use cal_base::{DESCRIPTORS, INODES, Ino, Oom};
use std::alloc::Global;
use std::marker::Model;
use token_kind::{Class, Flush, GrantItem, Hold};
use tree_law::Descriptor;

/// What a client knows: its holds, by inode and class, with what came under them; its descriptors, 0
/// to 31; its outstanding flushes, at most one of a file; and the number of its last flush.
#[derive(Drop)]
pub struct Cache {
    pub(crate) inodes: Vec<CachedInode>,
    pub(crate) table: Vec<Option<Descriptor>>,
    pub(crate) flushes: Vec<Flush>,
    pub(crate) last_flush: u64,
}

impl Model for Cache {
    ghost use Rattle.client_cache.specs.IsKnown.{IsKnown};
    ghost use Rattle.client_cache.specs.Known.{Known};

    ghost Value = { Known };

    ghost view = { λ cache. record { inodes = cache.inodes.items; table = cache.table.items; flushes = cache.flushes.items; last_flush = cache.last_flush } };

    ghost invariant = { λ cache. IsKnown (record { inodes = cache.inodes.items; table = cache.table.items; flushes = cache.flushes.items; last_flush = cache.last_flush }) };
}

impl Cache {
    /// Nothing is held, no descriptor is in use, and no flush was made.
    #[tactic(auto, unfolding(crate::specs::Known::first_known))]
    pub fn new(alloc: Global) -> Result<Cache, Oom>
        ensures value { IfOk result (λ cache. cache ≡ first_known) }
        ensures known { IfOk result IsKnown }
    {
        let inodes = unknown_inodes(alloc)?;
        let table = vec![in alloc; None; DESCRIPTORS as usize]?;
        Ok(Cache {
            inodes,
            table,
            flushes: Vec::new(alloc),
            last_flush: 0,
        })
    }

    /// What is held of an inode in a class.
    pub fn held(&self, ino: Ino, class: Class) -> Hold
        ensures { result ≡ hold_in (inode_at self.now ino).holds class }
    {
        match self.inodes.get(ino.0 as usize) {
            Some(inode) => inode.holds.get(class),
            None => Hold::None,
        }
    }

    /// Whether something of the file was written or truncated since its last flush was started.
    pub fn unflushed(&self, ino: Ino) -> bool
        ensures { result ≡ (inode_at self.now ino).file.unflushed }
    {
        match self.inodes.get(ino.0 as usize) {
            Some(inode) => inode.file.unflushed(),
            None => false,
        }
    }

    /// Whether a flush of the file is outstanding.
    pub fn flushing(&self, ino: Ino) -> bool
        ensures { result ≡ not (is_settled self.now ino) }
    {
        self.flush(ino).is_some()
    }

    /// The outstanding flush of a file.
    pub(crate) fn flush(&self, ino: Ino) -> Option<&Flush>
        ensures { option_map (λ flush. flush.now) result ≡ flush_at self.now ino }
    {
        self.flushes.iter().find(|flush| flush.ino == ino)
    }

    /// The file behind a descriptor; none exactly where that isn't open.
    pub fn behind(&self, fd: u8) -> Option<Ino>
        ensures value { result ≡ option_map (λ descriptor. descriptor.ino) (slice_index_or self.now.table fd None) }
        ensures bound { IfSome result (λ ino. ino.0 < inodes) }
    {
        match self.descriptor(fd) {
            Some(descriptor) => Some(descriptor.ino),
            None => None,
        }
    }

    /// What a descriptor stands for, if it is open.
    pub(crate) fn descriptor(&self, fd: u8) -> Option<Descriptor>
        ensures value { result ≡ slice_index_or self.now.table fd None }
        ensures bound { IsOpenFile result }
    {
        match self.table.get(usize::from(fd)) {
            Some(place) => *place,
            None => None,
        }
    }

    /// Takes an item of a grant: its hold is that of its class, and what came along is known. Where a
    /// flush of the file is outstanding, it leaves the granted hold too, at most Read: a server that serves
    /// the call before it takes the flush again counts on the hold, which would otherwise be lost as the
    /// flush is done. The item is one that a message spells: Write is of Data and Attr alone, and entries
    /// that come along are of the volume and strictly ascend by name. An item without content is of a class
    /// in which something is held, or of Open. It takes no memory.
    pub fn take(&mut self, item: GrantItem)
        requires ino { item.ino.0 < inodes }
        requires hold { may_hold item.class item.hold ≡ true }
        requires content { IsContent item.content }
        requires expected { is_expected (inode_at self.old item.ino) item.class item.content ≡ true }
        ensures { self.new ≡ after_take self.old item }
    {
        let GrantItem {
            ino,
            class,
            hold,
            fresh: _,
            content,
        } = item;
        self.inodes[ino.0 as usize].grant(class, hold, content);
        raise_all(&mut self.flushes, ino, class, hold.lesser(Hold::Read));
    }

    /// Lowers a hold to the lesser of what it is and another. What is no longer held is forgotten, and
    /// with Data the unflushed writes too.
    pub fn lower(&mut self, ino: Ino, class: Class, to: Hold)
        ensures { self.new ≡ after_lower self.old ino class to }
    {
        let alloc = *self.inodes.allocator();
        if (ino.0 as usize) < INODES {
            self.inodes[ino.0 as usize].lower(alloc, class, to);
        }
    }
}

/// The inodes of the volume, of none of which anything is known.
fn unknown_inodes(alloc: Global) -> Result<Vec<CachedInode>, Oom>
    ensures { IfOk result (λ made. made.items ≡ replicate inodes nothing_known) }
{
    let mut inodes = Vec::with_capacity(alloc, INODES)?;
    for _ in 0..INODES {
        inodes.push(CachedInode::new(alloc))?;
    }
    Ok(inodes)
}

/// Makes the outstanding flush of a file leave a granted hold.
fn raise_all(flushes: &mut Vec<Flush>, ino: Ino, class: Class, hold: Hold)
    ensures { flushes.new.items ≡ map (raised ino class hold) flushes.old.items }
{
    raise(flushes, ino, class, hold);
}

fn raise(flushes: &mut [Flush], ino: Ino, class: Class, hold: Hold)
    ensures { flushes.new ≡ map (raised ino class hold) flushes.old }
{
    for flush in flushes.iter_mut() {
        raise_flush(flush, ino, class, hold);
    }
}

/// Makes a flush leave a granted hold, if it is of this file.
fn raise_flush(flush: &mut Flush, ino: Ino, class: Class, hold: Hold)
    ensures { flush.new ≡ raised ino class hold flush.old }
{
    if flush.ino == ino {
        match class {
            Class::Names => {}
            Class::Data => flush.leave_data = hold,
            Class::Attr => flush.leave_attr = hold,
            Class::Open => {}
        }
    }
}
