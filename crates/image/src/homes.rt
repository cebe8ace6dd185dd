ghost use Rattle.std.specs.Prelude.{◌≡◌, ◌<◌, ◌||◌, ◌∷◌, [], IfOk, IfSome, OnOk, Some, is_some, nat_eq};
ghost use Rattle.cal_base.specs.Limits as limits;
ghost use Rattle.std.specs.Option.{option_map};
ghost use Rattle.std.specs.Cmp.Lexicographic.{pointwise};
ghost use Rattle.image.specs.Applying.{CanMark, CanPut};
ghost use Rattle.image.specs.Writing.{Adds, IsHome, entering_home, growth_home, inode_home, leaving_home, part_of};
ghost use Rattle.volume_edit.specs.Edit.{IsEdit, IsVolume, edited};
ghost use Rattle.volume_edit.specs.Homes.{AreHomes, SpellsPart, block_parts, has_other_blocks, in_order, inode_parts, map_parts, sector_of, slot_parts};
ghost use Rattle.volume_edit.specs.declared.edit.Entering.{Entering};
ghost use Rattle.volume_edit.specs.declared.edit.Leaving.{Leaving};

use crate::home::Home;
use crate::image::Image;
use crate::read_parts::BEFORE_BLOCKS;
use cal_base::{BLOCK_SIZE, Oom, SLOTS_PER_BLOCK, Sector};
use inode::Inode;
use request_log::write_slot;
use shared_disk::{AT_MAP, FIRST_INODE, FIRST_SLOT, Txn};
use std::alloc::Global;
use volume_edit::{Edit, Entering, Growth, InodeEdit, Leaving};

impl Image {
    /// The homes of an edit, at most six: each part of the volume that it alters, as it is then.
    pub fn homes_of(&self, alloc: Global, edit: &Edit) -> Result<Txn, Oom>
        requires { IsEdit self.now edit.now }
        ensures { IfOk result (λ homes. AreHomes self.now edit.now homes) }
    {
        let mut homes = Vec::new(alloc);
        self.put_map(edit, &mut homes)?;
        self.put_slot(edit, &mut homes)?;
        self.put_inodes(edit, &mut homes)?;
        self.put_blocks(edit, &mut homes)?;
        Ok(Txn::new(homes))
    }

    /// Puts the map, where the edit frees or takes blocks.
    fn put_map(&self, edit: &Edit, homes: &mut Vec<(u32, Sector)>) -> Result<(), Oom>
        requires { IsEdit self.now edit.now }
        ensures put { OnOk result (Adds (edited self.now edit.now) (map_parts self.now edit.now) homes.old.items homes.new.items) }
        ensures volume { IsVolume self.now }
    {
        if changes_map(&self.inodes, edit) {
            let mut sector = [0; BLOCK_SIZE];
            self.write_map(edit, &mut sector);
            homes.push((AT_MAP, sector))?;
        }
        Ok(())
    }

    /// Puts the slot of a client.
    fn put_slot(&self, edit: &Edit, homes: &mut Vec<(u32, Sector)>) -> Result<(), Oom>
        requires edit { IsEdit self.now edit.now }
        requires volume { IsVolume self.now }
        ensures { OnOk result (Adds (edited self.now edit.now) (slot_parts edit.now.slot) homes.old.items homes.new.items) }
    {
        if let Some(edit) = &edit.slot {
            let mut sector = [0; BLOCK_SIZE];
            write_slot(&edit.slot, &mut sector);
            homes.push((FIRST_SLOT + u32::from(edit.client.0), sector))?;
        }
        Ok(())
    }

    /// Puts the inode that the edit puts, and that of the directory that grows.
    fn put_inodes(&self, edit: &Edit, homes: &mut Vec<(u32, Sector)>) -> Result<(), Oom>
        requires { IsEdit self.now edit.now }
        ensures { OnOk result (Adds (edited self.now edit.now) (inode_parts self.now edit.now) homes.old.items homes.new.items) }
    {
        let put = inode_home(&edit.inode);
        let grown = growth_home(&edit.growth);
        self.put_two(edit, put, grown, homes)?;
        Ok(())
    }

    /// Puts the blocks in which an entry goes or comes.
    fn put_blocks(&self, edit: &Edit, homes: &mut Vec<(u32, Sector)>) -> Result<(), Oom>
        requires edit { IsEdit self.now edit.now }
        requires volume { IsVolume self.now }
        ensures { OnOk result (Adds (edited self.now edit.now) (block_parts self.now edit.now) homes.old.items homes.new.items) }
    {
        let left = leaving_home(&edit.leaving);
        let entered = entering_home(&edit.entering);
        self.put_two(edit, left, entered, homes)?;
        Ok(())
    }

    /// Puts two parts in the order of their sectors, and a part that is both once.
    fn put_two(
        &self,
        edit: &Edit,
        a: Option<Home>,
        b: Option<Home>,
        homes: &mut Vec<(u32, Sector)>,
    ) -> Result<(), Oom>
        requires edit { IsEdit self.now edit.now }
        requires first { IfSome a (IsHome self.now edit.now) }
        requires second { IfSome b (IsHome self.now edit.now) }
        ensures { OnOk result (Adds (edited self.now edit.now) (in_order (edited self.now edit.now) (option_map part_of a) (option_map part_of b)) homes.old.items homes.new.items) }
    {
        match (a, b) {
            (Some(a), Some(b)) => self.put_both(edit, a, b, homes)?,
            (Some(a), None) => self.put(edit, a, homes)?,
            (None, Some(b)) => self.put(edit, b, homes)?,
            (None, None) => {}
        }
        Ok(())
    }

    /// Puts two parts in the order of their sectors, or one that is both.
    fn put_both(
        &self,
        edit: &Edit,
        a: Home,
        b: Home,
        homes: &mut Vec<(u32, Sector)>,
    ) -> Result<(), Oom>
        requires edit { IsEdit self.now edit.now }
        requires first { IsHome self.now edit.now a }
        requires second { IsHome self.now edit.now b }
        ensures { OnOk result (Adds (edited self.now edit.now) (in_order (edited self.now edit.now) (Some (part_of a)) (Some (part_of b))) homes.old.items homes.new.items) }
    {
        let first = self.sector_of(edit, a);
        let second = self.sector_of(edit, b);
        if first == second {
            self.put(edit, a, homes)?;
        } else if first < second {
            self.put(edit, a, homes)?;
            self.put(edit, b, homes)?;
        } else {
            self.put(edit, b, homes)?;
            self.put(edit, a, homes)?;
        }
        Ok(())
    }

    /// Puts one part.
    fn put(&self, edit: &Edit, home: Home, homes: &mut Vec<(u32, Sector)>) -> Result<(), Oom>
        requires edit { IsEdit self.now edit.now }
        requires home { IsHome self.now edit.now home }
        ensures { OnOk result (Adds (edited self.now edit.now) (part_of home ∷ []) homes.old.items homes.new.items) }
    {
        let mut sector = [0; BLOCK_SIZE];
        self.write_home(edit, home, &mut sector);
        homes.push((self.sector_of(edit, home), sector))?;
        Ok(())
    }

    /// Writes the sector of a part as it is after the edit.
    fn write_home(&self, edit: &Edit, home: Home, into: &mut Sector)
        requires edit { IsEdit self.now edit.now }
        requires home { IsHome self.now edit.now home }
        ensures { SpellsPart (edited self.now edit.now) (part_of home) into.new }
    {
        match home {
            Home::Inode(ino) => self.write_inode_after(edit, ino, into),
            Home::Block(ino, index) => self.write_block_after(edit, ino, index, into),
        }
    }

    /// The sector of a part after the edit.
    fn sector_of(&self, edit: &Edit, home: Home) -> u32
        requires edit { IsEdit self.now edit.now }
        requires home { IsHome self.now edit.now home }
        ensures { result ≡ sector_of (edited self.now edit.now) (part_of home) }
    {
        match home {
            Home::Inode(ino) => FIRST_INODE + ino.0,
            Home::Block(ino, index) => BEFORE_BLOCKS + self.pointer_after(edit, ino, index),
        }
    }
}

/// Whether an edit frees or takes blocks.
fn changes_map(inodes: &[Inode], edit: &Edit) -> bool
    requires { CanMark inodes.now edit.now }
    ensures { result ≡ (has_other_blocks inodes.now edit.now.inode || is_some edit.now.growth) }
{
    has_other_blocks(inodes, &edit.inode) || edit.growth.is_some()
}

/// Whether an inode has other blocks than the one in its place before.
fn has_other_blocks(inodes: &[Inode], edit: &Option<InodeEdit>) -> bool
    requires { IfSome edit.now (CanPut inodes.now) }
    ensures { result ≡ has_other_blocks inodes.now edit.now }
{
    match edit {
        Some(edit) => !same_pointers(&inodes[edit.ino.0 as usize].blocks, &edit.inode.blocks),
        None => false,
    }
}

/// Whether two inodes have the same blocks at the same places.
fn same_pointers(a: &[u16], b: &[u16]) -> bool
    ensures { result ≡ pointwise nat_eq a.now b.now }
{
    a == b
}

/// The inode that an edit puts.
fn inode_home(edit: &Option<InodeEdit>) -> Option<Home>
    ensures { result ≡ inode_home edit.now }
{
    match edit {
        Some(edit) => Some(Home::Inode(edit.ino)),
        None => None,
    }
}

/// The inode of the directory that grows.
fn growth_home(growth: &Option<Growth>) -> Option<Home>
    ensures { result ≡ growth_home growth.now }
{
    match growth {
        Some(growth) => Some(Home::Inode(growth.directory)),
        None => None,
    }
}

/// The block in which an entry goes.
fn leaving_home(leaving: &Option<Leaving>) -> Option<Home>
    requires { IfSome leaving.now (λ (l : Leaving). l.place < limits.directory_entries) }
    ensures { result ≡ leaving_home leaving.now }
{
    match leaving {
        Some(leaving) => Some(Home::Block(
            leaving.directory,
            (leaving.place as usize / SLOTS_PER_BLOCK) as u8,
        )),
        None => None,
    }
}

/// The block in which an entry comes.
fn entering_home(entering: &Option<Entering>) -> Option<Home>
    requires { IfSome entering.now (λ (n : Entering). n.place < limits.directory_entries) }
    ensures { result ≡ entering_home entering.now }
{
    match entering {
        Some(entering) => Some(Home::Block(
            entering.directory,
            (entering.place as usize / SLOTS_PER_BLOCK) as u8,
        )),
        None => None,
    }
}
