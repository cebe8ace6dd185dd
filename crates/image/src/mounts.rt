ghost use Rattle.std.specs.Prelude.{◌≡◌, ◌≢◌, ℕ, List, length, Some, Err, OnOk};
ghost use Rattle.cal_base.specs.Limits as limits;
ghost use Rattle.journal.specs.Layout.{outside};
ghost use Rattle.volume.specs.Volume.{SpellsVolume, Volume};
ghost use Rattle.volume_edit.specs.Edit.{IsVolume};
ghost use Rattle.image.specs.Damage.{IsDamage};
ghost use Rattle.image.specs.Mount.{AreParts, ArePartsRead, NeverDamaged, ReadsOnly, Told};

use crate::image::Image;
use crate::mount_halt::MountHalt;
use crate::read_lists::{read_nodes, read_slots};
use crate::read_parts::{read_clients, read_map};
use directory::DirBlocks;
use fence::Port;
use inode::Inode;
use request_log::Slot;
use shared_disk::PortDisk;
use space_map::SpaceMap;

/// Reads the volume that the sectors spell, and takes no memory. `Fenced` comes exactly where the key is
/// another, `Failed` only where the count of faults rose, and `Damaged` only where that sector is the first
/// outside its grammar in the order of reading: the head, the map, the slots, the inodes, and then by inode
/// the blocks of its directory. So it never comes where the sectors spell a volume. After a halt the image
/// is some volume.
pub fn mount<D: PortDisk>(image: &mut Image, port: &Port, disk: &mut D) -> Result<(), MountHalt>
    ensures reads { ReadsOnly IsDamage (D.means disk.old) port.now.view (D.fault_count disk.old) result (D.means disk.new) (D.fault_count disk.new) }
    ensures ok { OnOk result (Told (D.means disk.old) (λ sectors. SpellsVolume (outside sectors) image.new)) }
    ensures volume { IsVolume image.new }
    ensures never { Told (D.means disk.old) (λ sectors. (v : Volume) → SpellsVolume (outside sectors) v → NeverDamaged result) }
{
    image.least_free = 0;
    image.least_orphan = 0;
    read_volume(
        port,
        disk,
        &mut image.clients,
        &mut image.map,
        &mut image.slots,
        &mut image.inodes,
        &mut image.directories,
    )
}

/// Reads the parts of a volume.
fn read_volume<D: PortDisk>(
    port: &Port,
    disk: &mut D,
    clients: &mut u8,
    map: &mut SpaceMap,
    slots: &mut [Slot],
    inodes: &mut [Inode],
    directories: &mut [DirBlocks],
) -> Result<(), MountHalt>
    requires slots { length slots.old ≡ limits.clients }
    requires inodes { length inodes.old ≡ limits.inodes }
    requires directories { length directories.old ≡ limits.inodes }
    ensures reads { ReadsOnly IsDamage (D.means disk.old) port.now.view (D.fault_count disk.old) result (D.means disk.new) (D.fault_count disk.new) }
    ensures ok { OnOk result (Told (D.means disk.old) (λ sectors. ArePartsRead sectors clients.new map.new slots.new inodes.new directories.new)) }
    ensures kept { AreParts clients.old map.old slots.old inodes.old directories.old → AreParts clients.new map.new slots.new inodes.new directories.new }
    ensures slot_count { length slots.new ≡ limits.clients }
    ensures inode_count { length inodes.new ≡ limits.inodes }
    ensures directory_count { length directories.new ≡ limits.inodes }
{
    match read_clients(port, disk, clients) {
        Ok(()) => {}
        Err(halt) => return Err(halt),
    }
    match read_map(port, disk, map) {
        Ok(()) => {}
        Err(halt) => return Err(halt),
    }
    match read_slots(port, disk, slots) {
        Ok(()) => {}
        Err(halt) => return Err(halt),
    }
    match read_nodes(port, disk, inodes, directories) {
        Ok(()) => Ok(()),
        Err(halt) => Err(halt),
    }
}
