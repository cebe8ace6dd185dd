ghost use Rattle.std.specs.Prelude.{◌≡◌, ◌↔◌, ◌≤◌, ◌<◌, IfOk, IfSome, IfNone, IsTrue};
ghost use Rattle.cal_base.specs.Limits as limits;
ghost use Rattle.std.specs.Option.{option_map};
ghost use Rattle.inode.specs.declared.inode.Kind.TheVariants.{File};
ghost use Rattle.inode.specs.Inode.{IsInode};
ghost use Rattle.request_log.specs.Slot.{IsSlot};
ghost use Rattle.volume.specs.Volume.{slots_of};
ghost use Rattle.volume_edit.specs.Edit.{IsVolume, inode_at, slot_at};
ghost use Rattle.volume_plan.specs.Plans.{free_count, least_block, least_inode};
ghost use Rattle.image.specs.Image.{HasNoOrphan, IsLeastOrphan, fresh_volume};

use crate::room::{room_for_directories, room_for_inodes, room_for_slots};
use crate::search::{first_free, first_orphan};
use cal_base::{ClientId, INODES, Ino, Oom};
use directory::DirBlocks;
use inode::{Inode, Kind};
use request_log::Slot;
use space_map::SpaceMap;
use std::alloc::Global;
use std::marker::Model;

/// The volume in a server's memory. Contracts see the volume that the sectors spell.
#[derive(Debug, Drop)]
pub struct Image {
    pub(crate) clients: u8,
    pub(crate) map: SpaceMap,
    pub(crate) slots: Vec<Slot>,
    pub(crate) inodes: Vec<Inode>,
    pub(crate) directories: Vec<DirBlocks>,
    /// No inode below this number is free.
    pub(crate) least_free: usize,
    /// No inode below this number is a file without a name.
    pub(crate) least_orphan: usize,
}

impl Model for Image {
    ghost use Rattle.volume.specs.Volume.{Volume};
    ghost use Rattle.image.specs.Image.{IsImage};

    ghost Value = { Volume };

    ghost view = { λ it. record { clients = it.clients; free = it.map; slots = it.slots.items; inodes = it.inodes.items; directories = it.directories.items } };

    ghost invariant = { λ it. IsImage (record { clients = it.clients; free = it.map; slots = it.slots.items; inodes = it.inodes.items; directories = it.directories.items }) it.least_free it.least_orphan };
}

impl Image {
    /// The volume of a fresh format for one client. It takes all memory that an image will ever need.
    pub fn room(alloc: Global) -> Result<Image, Oom>
        ensures { IfOk result (λ image. image ≡ fresh_volume 1) }
    {
        let slots = room_for_slots(alloc)?;
        let inodes = room_for_inodes(alloc)?;
        let directories = room_for_directories(alloc)?;
        Ok(Image {
            clients: 1,
            map: SpaceMap::new(),
            slots,
            inodes,
            directories,
            least_free: 1,
            least_orphan: INODES,
        })
    }

    /// For how many clients the volume is, 1 to 16.
    pub fn clients(&self) -> u8
        ensures clients { result ≡ self.now.clients }
        ensures volume { IsVolume self.now }
    {
        self.clients
    }

    /// How many data blocks are free.
    pub fn free(&self) -> u16
        ensures free { result ≡ free_count self.now }
        ensures volume { IsVolume self.now }
    {
        self.map.free()
    }

    /// The slot of a client.
    pub fn slot(&self, client: ClientId) -> &Slot
        requires { client.0 < limits.clients }
        ensures at { result.now ≡ slot_at self.now.slots client.0 }
        ensures slot { IsSlot result.now }
        ensures volume { IsVolume self.now }
    {
        &self.slots[client.0 as usize]
    }

    /// The inode of a number.
    pub fn inode(&self, ino: Ino) -> &Inode
        requires { ino.0 < limits.inodes }
        ensures at { result.now ≡ inode_at self.now.inodes ino.0 }
        ensures inode { IsInode result.now }
    {
        &self.inodes[ino.0 as usize]
    }

    /// Whether the inode of a number is a file.
    pub fn is_file(&self, ino: Ino) -> bool
        requires { ino.0 < limits.inodes }
        ensures { IsTrue result ↔ ((inode_at self.now.inodes ino.0).kind ≡ File) }
    {
        self.inodes[ino.0 as usize].kind == Kind::File
    }

    /// The size of the file or directory of a number, in bytes.
    pub fn size(&self, ino: Ino) -> u32
        requires { ino.0 < limits.inodes }
        ensures { result ≡ (inode_at self.now.inodes ino.0).size }
    {
        self.inodes[ino.0 as usize].size
    }

    /// The slots of a directory; none where the inode is another.
    pub fn entries_of(&self, ino: Ino) -> &DirBlocks
        requires { ino.0 < limits.inodes }
        ensures { result.now ≡ slots_of self.now ino.0 }
    {
        &self.directories[ino.0 as usize]
    }

    /// The least free data block, if one is free.
    pub fn least_block(&self) -> Option<u16>
        ensures { result ≡ least_block self.now }
    {
        self.map.least()
    }

    /// The least free inode, if one is free.
    pub fn least_inode(&self) -> Option<Ino>
        ensures { option_map (λ ino. ino.0) result ≡ least_inode self.now }
    {
        let number = first_free(&self.inodes, self.least_free);
        if number == INODES {
            return None;
        }
        Some(Ino(number as u32))
    }

    /// The least file from a number on that no directory names, if there is one.
    pub fn least_orphan(&self, from: Ino) -> Option<Ino>
        requires { from.0 ≤ limits.inodes }
        ensures found { IfSome result (λ ino. IsLeastOrphan self.now.inodes from.0 ino.0) }
        ensures none { IfNone result (HasNoOrphan self.now.inodes from.0) }
    {
        let number = first_orphan(&self.inodes, self.least_orphan.max(from.0 as usize));
        if number == INODES {
            return None;
        }
        Some(Ino(number as u32))
    }
}
