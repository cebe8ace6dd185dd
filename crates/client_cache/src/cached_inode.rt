ghost use Rattle.std.specs.Prelude.{◌≡◌};
ghost use Rattle.token_kind.specs.declared.«class».Class.TheVariants.{Attr, Data};
ghost use Rattle.client_cache.specs.Known.{nothing_known};
ghost use Rattle.client_cache.specs.Changes.{IsContent, cleaned, flushed_inode, forgotten, granted, holding, left_with, lowered, with_content};

use crate::entries::Entries;
use crate::holds::Holds;
use cal_base::Blob;
use delayed_write::Delayed;
use std::alloc::Global;
use token_kind::{Class, Content, Hold};

/// What a client holds of one inode, and what it knows by that: of a directory its entries, of a file
/// its bytes, with the unflushed writes to it, and its size in bytes. What isn't held is empty.
#[derive(Drop)]
pub struct CachedInode {
    pub(crate) holds: Holds,
    pub(crate) entries: Entries,
    pub(crate) file: Delayed,
    pub(crate) size: u32,
}

impl CachedInode {
    /// Nothing is held. It takes no memory.
    pub(crate) fn new(alloc: Global) -> CachedInode
        ensures { result ≡ nothing_known }
    {
        CachedInode {
            holds: Holds::none(),
            entries: Entries::none(alloc),
            file: Delayed::new(Blob::new(alloc)),
            size: 0,
        }
    }

    /// Takes a granted hold, and what comes with it.
    pub(crate) fn grant(&mut self, class: Class, hold: Hold, content: Content)
        requires { IsContent content }
        ensures { self.new ≡ granted self.old class hold content }
    {
        self.put(content);
        self.holds.set(class, hold);
    }

    /// Puts contents in the place of those that were known.
    fn put(&mut self, content: Content)
        requires { IsContent content }
        ensures { self.new ≡ with_content self.old content }
    {
        match content {
            Content::Nothing => {}
            Content::Names(entries) => self.entries = Entries::new(entries),
            Content::Bytes(bytes) => self.file = Delayed::new(bytes),
            Content::Size(size) => self.size = size,
        }
    }

    /// Lowers a hold to the lesser of what it is and another.
    pub(crate) fn lower(&mut self, alloc: Global, class: Class, to: Hold)
        ensures { self.new ≡ lowered class to self.old }
    {
        let left = self.holds.get(class).lesser(to);
        self.leave(alloc, class, left);
    }

    /// Takes what was unflushed as handed to a flush.
    pub(crate) fn clean(&mut self)
        ensures { self.new ≡ cleaned self.old }
    {
        self.file.flushed();
    }

    /// Makes the holds of a file's bytes and size what its flush leaves.
    pub(crate) fn flushed(&mut self, alloc: Global, leave_data: Hold, leave_attr: Hold)
        ensures { self.new ≡ flushed_inode leave_data leave_attr self.old }
    {
        self.leave(alloc, Class::Data, leave_data);
        self.leave(alloc, Class::Attr, leave_attr);
    }

    /// Makes a hold another one; where that is none, what was known by it is forgotten.
    fn leave(&mut self, alloc: Global, class: Class, hold: Hold)
        ensures { self.new ≡ left_with class hold self.old }
    {
        self.holds.set(class, hold);
        match hold {
            Hold::None => self.forget(alloc, class),
            Hold::Read => {}
            Hold::Write => {}
        }
    }

    /// Forgets what is known in a class.
    fn forget(&mut self, alloc: Global, class: Class)
        ensures { self.new ≡ forgotten class self.old }
    {
        match class {
            Class::Names => self.entries = Entries::none(alloc),
            Class::Data => self.file = Delayed::new(Blob::new(alloc)),
            Class::Attr => self.size = 0,
            Class::Open => {}
        }
    }
}
