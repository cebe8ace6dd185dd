ghost use Rattle.std.specs.Prelude.{◌≡◌, ◌≤◌, [], length, replicate, OnErr, OnOk};
ghost use Rattle.cal_base.specs.Limits as limits;
ghost use Rattle.fence.specs.Writes.{Runs};
ghost use Rattle.volume.specs.Format.{format_length, format_writes};
ghost use Rattle.volume_edit.specs.Edit.{first_slot, free_inode};
ghost use Rattle.image.specs.EntryPlans.{TellsFresh};
ghost use Rattle.image.specs.Image.{fresh_inodes, fresh_slots, fresh_volume, no_directories};
ghost use Rattle.image.specs.Mount.{Told};

use crate::image::Image;
use crate::room::{blank_inode, first_slot};
use cal_base::INODES;
use directory::DirBlocks;
use fence::{Port, PortHalt};
use inode::{Inode, Kind};
use request_log::Slot;
use shared_disk::PortDisk;
use space_map::SpaceMap;
use volume::format;

/// Formats a disk for so many clients, 1 to 16, and makes the image that of the fresh volume. It takes
/// no memory. After a halt the image is as it was.
pub fn mkfs<D: PortDisk>(
    image: &mut Image,
    port: &mut Port,
    disk: &mut D,
    clients: u8,
) -> Result<(), PortHalt>
    requires some { 1 ≤ clients }
    requires few { clients ≤ limits.clients }
    requires room { format_length ≤ (D.means disk.old).room }
    ensures runs { Runs port.old (D.means disk.old) (D.fault_count disk.old) (format_writes clients) result port.new (D.means disk.new) (D.fault_count disk.new) }
    ensures image { OnOk result (image.new ≡ fresh_volume clients) }
    ensures kept { OnErr result (image.new ≡ image.old) }
    ensures stands { Told (D.means disk.old) (λ sectors. length sectors ≡ limits.sectors → OnOk result (TellsFresh (D.means disk.new) clients)) }
{
    match format(port, disk, clients) {
        Ok(()) => {}
        Err(halt) => return Err(halt),
    }
    image.make_fresh(clients);
    Ok(())
}

impl Image {
    /// Becomes the volume of a fresh format for so many clients.
    fn make_fresh(&mut self, clients: u8)
        requires some { 1 ≤ clients }
        requires few { clients ≤ limits.clients }
        ensures { self.new ≡ fresh_volume clients }
    {
        self.clients = clients;
        self.map = SpaceMap::new();
        clear_slots(&mut self.slots);
        clear_nodes(&mut self.inodes, &mut self.directories);
        self.least_free = 1;
        self.least_orphan = INODES;
    }
}

/// Makes all slots those of clients that made no change.
fn clear_slots(slots: &mut [Slot])
    requires { length slots.old ≡ limits.clients }
    ensures { slots.new ≡ fresh_slots }
{
    for slot in slots.iter_mut() {
        *slot = first_slot();
    }
}

/// Makes the first inode the root without blocks, frees the others, and takes all slots from all
/// directories.
pub(crate) fn clear_nodes(inodes: &mut [Inode], directories: &mut [DirBlocks])
    requires inode_count { length inodes.old ≡ limits.inodes }
    requires directory_count { length directories.old ≡ limits.inodes }
    ensures inodes { inodes.new ≡ fresh_inodes }
    ensures directories { directories.new ≡ no_directories }
{
    clear_inodes(inodes);
    clear_directories(directories);
}

/// Makes the first inode the root without blocks, and frees the others.
fn clear_inodes(inodes: &mut [Inode])
    requires { length inodes.old ≡ limits.inodes }
    ensures { inodes.new ≡ fresh_inodes }
{
    free_inodes(inodes);
    inodes[0] = blank_inode(Kind::Dir, true);
}

/// Makes all inodes free.
fn free_inodes(inodes: &mut [Inode])
    ensures { inodes.new ≡ replicate (length inodes.old) free_inode }
{
    for inode in inodes.iter_mut() {
        *inode = blank_inode(Kind::Free, false);
    }
}

/// Takes all slots from all directories.
fn clear_directories(directories: &mut [DirBlocks])
    requires { length directories.old ≡ limits.inodes }
    ensures { directories.new ≡ no_directories }
{
    for directory in directories.iter_mut() {
        directory.clear_all();
    }
}
