ghost use Rattle.std.specs.Prelude.{◌≡◌, ◌≤◌, ◌<◌, ◌+◌, ◌↔◌, length, OnOk, IsTrue};
ghost use Rattle.cal_base.specs.Limits as limits;
ghost use Rattle.shared_disk.specs.Map.{at_head, at_map, at_slot, at_inode};
ghost use Rattle.directory.specs.Directory.{Continues};
ghost use Rattle.inode.specs.Inode.{SpellsInode};
ghost use Rattle.inode.specs.declared.inode.Kind.TheVariants.{Dir};
ghost use Rattle.journal.specs.Layout.{sector};
ghost use Rattle.request_log.specs.Slot.{IsSlot, SpellsSlot};
ghost use Rattle.shared_disk.specs.Disk.{SectorIs};
ghost use Rattle.space_map.specs.SpaceMap.{SpellsMap};
ghost use Rattle.volume.specs.Head.{SpellsHead};
ghost use Rattle.volume.specs.Volume.{pointed};
ghost use Rattle.image.specs.Damage.{BreaksOff, LacksHead, LacksInode, LacksMap, LacksSlot};
ghost use Rattle.image.specs.Mount.{IsCount, MayStand, NoDamage, ReadsOnly, Told};

use crate::mount_halt::MountHalt;
use cal_base::{BLOCK_SIZE, Sector};
use directory::DirBlocks;
use fence::Port;
use inode::{Inode, Kind, read_inode};
use request_log::{Slot, read_slot};
use shared_disk::{AT_HEAD, AT_MAP, FIRST_BLOCK, FIRST_INODE, FIRST_SLOT, PortDisk};
use space_map::SpaceMap;
use volume::read_head;

/// Pointer 1 is the data block in the next sector.
pub(crate) const BEFORE_BLOCKS: u32 = FIRST_BLOCK - 1;

/// Reads a sector.
pub(crate) fn read_sector<D: PortDisk>(
    port: &Port,
    disk: &mut D,
    at: u32,
    into: &mut Sector,
) -> Result<(), MountHalt>
    requires { at < limits.sectors }
    ensures reads { ReadsOnly NoDamage (D.means disk.old) port.now.view (D.fault_count disk.old) result (D.means disk.new) (D.fault_count disk.new) }
    ensures ok { OnOk result (SectorIs (D.means disk.old) at into.new) }
{
    port.read(disk, at, into)?;
    Ok(())
}

/// Reads the count of clients.
pub(crate) fn read_clients<D: PortDisk>(
    port: &Port,
    disk: &mut D,
    clients: &mut u8,
) -> Result<(), MountHalt>
    ensures reads { ReadsOnly LacksHead (D.means disk.old) port.now.view (D.fault_count disk.old) result (D.means disk.new) (D.fault_count disk.new) }
    ensures ok { OnOk result (Told (D.means disk.old) (λ sectors. SpellsHead (sector sectors at_head) clients.new)) }
    ensures kept { IsCount clients.old → IsCount clients.new }
{
    let mut sector = [0; BLOCK_SIZE];
    match read_sector(port, disk, AT_HEAD, &mut sector) {
        Ok(()) => {}
        Err(halt) => return Err(halt),
    }
    match read_head(&sector) {
        Ok(read) => {
            *clients = read;
            Ok(())
        }
        Err(_) => Err(MountHalt::Damaged { sector: AT_HEAD }),
    }
}

/// Reads the map.
pub(crate) fn read_map<D: PortDisk>(
    port: &Port,
    disk: &mut D,
    map: &mut SpaceMap,
) -> Result<(), MountHalt>
    ensures reads { ReadsOnly LacksMap (D.means disk.old) port.now.view (D.fault_count disk.old) result (D.means disk.new) (D.fault_count disk.new) }
    ensures ok { OnOk result (Told (D.means disk.old) (λ sectors. SpellsMap (sector sectors at_map) map.new)) }
    ensures kept { length map.old ≡ limits.blocks → length map.new ≡ limits.blocks }
{
    let mut sector = [0; BLOCK_SIZE];
    match read_sector(port, disk, AT_MAP, &mut sector) {
        Ok(()) => {}
        Err(halt) => return Err(halt),
    }
    match SpaceMap::read(&sector) {
        Ok(read) => {
            *map = read;
            Ok(())
        }
        Err(_) => Err(MountHalt::Damaged { sector: AT_MAP }),
    }
}

/// Reads the slot of a client.
pub(crate) fn read_client_slot<D: PortDisk>(
    port: &Port,
    disk: &mut D,
    client: u32,
    slot: &mut Slot,
) -> Result<(), MountHalt>
    requires { client < limits.clients }
    ensures reads { ReadsOnly (LacksSlot client) (D.means disk.old) port.now.view (D.fault_count disk.old) result (D.means disk.new) (D.fault_count disk.new) }
    ensures ok { OnOk result (Told (D.means disk.old) (λ sectors. SpellsSlot (sector sectors (at_slot client)) slot.new)) }
    ensures kept { IsSlot slot.old → IsSlot slot.new }
{
    let mut sector = [0; BLOCK_SIZE];
    match read_sector(port, disk, FIRST_SLOT + client, &mut sector) {
        Ok(()) => {}
        Err(halt) => return Err(halt),
    }
    match read_slot(&sector) {
        Ok(read) => {
            *slot = read;
            Ok(())
        }
        Err(_) => Err(MountHalt::Damaged {
            sector: FIRST_SLOT + client,
        }),
    }
}

/// Whether an inode of this number may be so: the root is a directory.
fn may_stand(number: u32, inode: &Inode) -> bool
    ensures { IsTrue result ↔ (number ≡ 0 → inode.now.kind ≡ Dir) }
{
    match inode.kind {
        Kind::Dir => true,
        Kind::Free | Kind::File => number != 0,
    }
}

/// Reads an inode.
pub(crate) fn load_inode<D: PortDisk>(
    port: &Port,
    disk: &mut D,
    number: u32,
    inode: &mut Inode,
) -> Result<(), MountHalt>
    requires { number < limits.inodes }
    ensures reads { ReadsOnly (LacksInode number) (D.means disk.old) port.now.view (D.fault_count disk.old) result (D.means disk.new) (D.fault_count disk.new) }
    ensures ok { OnOk result (Told (D.means disk.old) (λ sectors. SpellsInode (sector sectors (at_inode number)) inode.new)) }
    ensures stands { OnOk result (MayStand number inode.new) }
{
    let mut sector = [0; BLOCK_SIZE];
    match read_sector(port, disk, FIRST_INODE + number, &mut sector) {
        Ok(()) => {}
        Err(halt) => return Err(halt),
    }
    let damaged = MountHalt::Damaged {
        sector: FIRST_INODE + number,
    };
    let Ok(read) = read_inode(&sector) else {
        return Err(damaged);
    };
    if !may_stand(number, &read) {
        return Err(damaged);
    }
    *inode = read;
    Ok(())
}

/// Reads the next block of a directory.
pub(crate) fn read_block<D: PortDisk>(
    port: &Port,
    disk: &mut D,
    pointer: u16,
    directory: &mut DirBlocks,
) -> Result<(), MountHalt>
    requires block { 1 ≤ pointer }
    requires within { pointer ≤ limits.blocks }
    requires room { length directory.old < limits.directory_entries }
    ensures reads { ReadsOnly (BreaksOff directory.old pointer) (D.means disk.old) port.now.view (D.fault_count disk.old) result (D.means disk.new) (D.fault_count disk.new) }
    ensures ok { OnOk result (Told (D.means disk.old) (λ sectors. Continues directory.old (pointed sectors pointer) directory.new)) }
    ensures more { OnOk result (length directory.new ≡ length directory.old + limits.slots_per_block) }
{
    let mut sector = [0; BLOCK_SIZE];
    match read_sector(port, disk, BEFORE_BLOCKS + pointer as u32, &mut sector) {
        Ok(()) => {}
        Err(halt) => return Err(halt),
    }
    match directory.load(&sector) {
        Ok(()) => Ok(()),
        Err(_) => Err(MountHalt::Damaged {
            sector: BEFORE_BLOCKS + pointer as u32,
        }),
    }
}
