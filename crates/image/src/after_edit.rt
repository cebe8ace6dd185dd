ghost use Rattle.std.specs.Prelude.{◌<◌, ◌≡◌, ◌≤◌, slice_index};
ghost use Rattle.cal_base.specs.Limits as limits;
ghost use Rattle.directory.specs.Changed.{placed};
ghost use Rattle.image.specs.Applying.{CanMark};
ghost use Rattle.image.specs.Writing.{CanGrowAt, IsBlockThen, entering_at, grown_at, grows_of, leaving_at, put_at};
ghost use Rattle.inode.specs.Inode.{IsInode, SpellsInode};
ghost use Rattle.directory.specs.Block.{SpellsBlock};
ghost use Rattle.directory.specs.Directory.{block_slots};
ghost use Rattle.space_map.specs.SpaceMap.{SpellsMap};
ghost use Rattle.volume.specs.Volume.{slots_of};
ghost use Rattle.volume_edit.specs.Edit.{IsEdit, edited, inode_at};

use crate::image::Image;
use crate::inodes::grown_inode;
use crate::marking::mark_map;
use cal_base::{Ino, Sector};
use directory::{PlacedEntry, SlotChanges};
use inode::{Inode, write_inode};
use volume_edit::{Edit, Entering, Growth, InodeEdit, Leaving};

impl Image {
    /// Writes the sector of the map as it is after an edit.
    pub(crate) fn write_map(&self, edit: &Edit, into: &mut Sector)
        requires { IsEdit self.now edit.now }
        ensures { SpellsMap into.new (edited self.now edit.now).free }
    {
        let mut map = self.map.copy();
        mark_map(&mut map, &self.inodes, edit);
        map.write(into);
    }

    /// The inode of a number as it is after an edit.
    pub(crate) fn inode_after(&self, edit: &Edit, ino: Ino) -> Inode
        requires edit { IsEdit self.now edit.now }
        requires within { ino.0 < limits.inodes }
        ensures at { result ≡ inode_at (edited self.now edit.now).inodes ino.0 }
        ensures inode { IsInode result }
    {
        let put = inode_put(&edit.inode, ino, &self.inodes[ino.0 as usize]);
        inode_grown(&edit.growth, ino, put)
    }

    /// A pointer of a directory's inode as it is after an edit.
    pub(crate) fn pointer_after(&self, edit: &Edit, ino: Ino, index: u8) -> u32
        requires edit { IsEdit self.now edit.now }
        requires block { IsBlockThen self.now edit.now ino.0 index }
        ensures at { result ≡ slice_index (inode_at (edited self.now edit.now).inodes ino.0).blocks index }
        ensures small { result ≤ limits.blocks }
    {
        u32::from(self.inode_after(edit, ino).blocks[index as usize])
    }

    /// Writes the sector of an inode as it is after an edit.
    pub(crate) fn write_inode_after(&self, edit: &Edit, ino: Ino, into: &mut Sector)
        requires edit { IsEdit self.now edit.now }
        requires within { ino.0 < limits.inodes }
        ensures { SpellsInode into.new (inode_at (edited self.now edit.now).inodes ino.0) }
    {
        write_inode(&self.inode_after(edit, ino), into);
    }

    /// Writes the sector of a directory's block as it is after an edit.
    pub(crate) fn write_block_after(&self, edit: &Edit, ino: Ino, index: u8, into: &mut Sector)
        requires edit { IsEdit self.now edit.now }
        requires block { IsBlockThen self.now edit.now ino.0 index }
        ensures { SpellsBlock into.new (block_slots (slots_of (edited self.now edit.now) ino.0) index) }
    {
        self.directories[ino.0 as usize].store_changed(index, changes_of(edit, ino), into);
    }
}

/// The inode of an edit, if it is that of this number; else the one that stands.
fn inode_put(edit: &Option<InodeEdit>, ino: Ino, inode: &Inode) -> Inode
    ensures { result ≡ put_at edit.now ino.0 inode.now }
{
    match edit {
        Some(edit) => { if edit.ino == ino { edit.inode } else { *inode } }
        None => *inode,
    }
}

/// The inode with a block more, if it is that of the directory which grows.
fn inode_grown(growth: &Option<Growth>, ino: Ino, inode: Inode) -> Inode
    requires { CanGrowAt growth.now ino.0 inode }
    ensures { result ≡ grown_at growth.now ino.0 inode }
{
    match growth {
        Some(growth) => {
            if growth.directory == ino {
                grown_inode(&inode, growth.block)
            } else {
                inode
            }
        }
        None => inode,
    }
}

/// What an edit changes of the slots of a directory.
fn changes_of(edit: &Edit, ino: Ino) -> SlotChanges<'_>
    ensures grows { result.grows ≡ grows_of edit.now.growth ino.0 }
    ensures leaving { result.leaving ≡ leaving_at edit.now.leaving ino.0 }
    ensures entering { placed result.entering ≡ entering_at edit.now.entering ino.0 }
{
    SlotChanges {
        grows: grows(&edit.growth, ino),
        leaving: leaving_place(&edit.leaving, ino),
        entering: entering_place(&edit.entering, ino),
    }
}

/// Whether a directory gets a block more.
fn grows(growth: &Option<Growth>, ino: Ino) -> bool
    ensures { result ≡ grows_of growth.now ino.0 }
{
    match growth {
        Some(growth) => growth.directory == ino,
        None => false,
    }
}

/// The place in a directory at which an entry goes.
fn leaving_place(leaving: &Option<Leaving>, ino: Ino) -> Option<usize>
    ensures { result ≡ leaving_at leaving.now ino.0 }
{
    match leaving {
        Some(leaving) => {
            if leaving.directory == ino {
                Some(leaving.place as usize)
            } else {
                None
            }
        }
        None => None,
    }
}

/// The entry that comes into a directory, with its place.
fn entering_place(entering: &Option<Entering>, ino: Ino) -> Option<PlacedEntry<'_>>
    ensures { placed result ≡ entering_at entering.now ino.0 }
{
    match entering {
        Some(entering) => {
            if entering.directory == ino {
                Some(PlacedEntry {
                    place: entering.place as usize,
                    entry: &entering.entry,
                })
            } else {
                None
            }
        }
        None => None,
    }
}
