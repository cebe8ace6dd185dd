ghost use Rattle.std.specs.Prelude.{◌≡◌, ◌+◌, ◌/◌, [], length, OnOk};
ghost use Rattle.cal_base.specs.Limits as limits;
ghost use Rattle.shared_disk.specs.Map.{at_inode};
ghost use Rattle.inode.specs.Inode.{IsInode, SpellsInode};
ghost use Rattle.inode.specs.declared.inode.Kind.TheVariants.{Dir};
ghost use Rattle.journal.specs.Layout.{sector};
ghost use Rattle.volume_edit.specs.Edit.{HasSlots};
ghost use Rattle.image.specs.Damage.{FirstBlock, FirstInode, FirstNode, FirstSlot, IsNodeRead, LacksBlock, Loads};
ghost use Rattle.image.specs.Mount.{AreInodesRead, AreNodes, AreNodesRead, AreSlots, AreSlotsRead, IsNode, MayAllStand, MayStand, ReadsOnly, Told};

use crate::made::clear_nodes;
use crate::mount_halt::MountHalt;
use crate::read_parts::{load_inode, read_block, read_client_slot};
use cal_base::{BLOCK_SIZE, INODES, SLOTS_PER_BLOCK};
use directory::DirBlocks;
use fence::Port;
use inode::{Inode, Kind};
use request_log::Slot;
use shared_disk::PortDisk;

/// Reads the slots of 16 clients.
pub(crate) fn read_slots<D: PortDisk>(
    port: &Port,
    disk: &mut D,
    slots: &mut [Slot],
) -> Result<(), MountHalt>
    requires { length slots.old ≡ limits.clients }
    ensures reads { ReadsOnly FirstSlot (D.means disk.old) port.now.view (D.fault_count disk.old) result (D.means disk.new) (D.fault_count disk.new) }
    ensures ok { OnOk result (Told (D.means disk.old) (λ sectors. AreSlotsRead sectors limits.clients slots.new)) }
    ensures kept { AreSlots slots.old → AreSlots slots.new }
    ensures count { length slots.new ≡ limits.clients }
{
    for client in 0..16u32 {
        match read_client_slot(port, disk, client, &mut slots[client as usize]) {
            Ok(()) => {}
            Err(halt) => return Err(halt),
        }
    }
    Ok(())
}

/// Reads the 512 inodes.
pub(crate) fn read_inodes<D: PortDisk>(
    port: &Port,
    disk: &mut D,
    inodes: &mut [Inode],
) -> Result<(), MountHalt>
    requires { length inodes.old ≡ limits.inodes }
    ensures reads { ReadsOnly FirstInode (D.means disk.old) port.now.view (D.fault_count disk.old) result (D.means disk.new) (D.fault_count disk.new) }
    ensures ok { OnOk result (Told (D.means disk.old) (λ sectors. AreInodesRead sectors limits.inodes inodes.new)) }
    ensures stand { OnOk result (MayAllStand limits.inodes inodes.new) }
    ensures count { length inodes.new ≡ limits.inodes }
{
    for number in 0..INODES as u32 {
        match load_inode(port, disk, number, &mut inodes[number as usize]) {
            Ok(()) => {}
            Err(halt) => return Err(halt),
        }
    }
    Ok(())
}

/// Reads the blocks of a directory, of which none was read yet.
pub(crate) fn read_blocks<D: PortDisk>(
    port: &Port,
    disk: &mut D,
    number: u32,
    inode: &Inode,
    directory: &mut DirBlocks,
) -> Result<(), MountHalt>
    requires inode { IsInode inode.now }
    requires kind { inode.now.kind ≡ Dir }
    requires spelled { Told (D.means disk.old) (λ sectors. SpellsInode (sector sectors (at_inode number)) inode.now) }
    requires own { (D.means disk.old).key ≡ port.now.view }
    requires none { directory.old ≡ [] }
    ensures reads { ReadsOnly (LacksBlock number) (D.means disk.old) port.now.view (D.fault_count disk.old) result (D.means disk.new) (D.fault_count disk.new) }
    ensures ok { OnOk result (Told (D.means disk.old) (λ sectors. Loads sectors inode.now (inode.now.size / limits.block_size) directory.new)) }
    ensures has { OnOk result (HasSlots inode.now.kind inode.now directory.new) }
{
    let end = SLOTS_PER_BLOCK * (inode.size as usize / BLOCK_SIZE);
    while directory.slots().len() < end {
        let block = directory.slots().len() / SLOTS_PER_BLOCK;
        match read_block(port, disk, inode.blocks[block], directory) {
            Ok(()) => {}
            Err(halt) => return Err(halt),
        }
    }
    Ok(())
}

/// Reads the blocks of an inode's directory, if it is one.
pub(crate) fn read_directory<D: PortDisk>(
    port: &Port,
    disk: &mut D,
    number: u32,
    inode: &Inode,
    directory: &mut DirBlocks,
) -> Result<(), MountHalt>
    requires stands { MayStand number inode.now }
    requires spelled { Told (D.means disk.old) (λ sectors. SpellsInode (sector sectors (at_inode number)) inode.now) }
    requires own { (D.means disk.old).key ≡ port.now.view }
    ensures reads { ReadsOnly (LacksBlock number) (D.means disk.old) port.now.view (D.fault_count disk.old) result (D.means disk.new) (D.fault_count disk.new) }
    ensures ok { OnOk result (Told (D.means disk.old) (λ sectors. IsNodeRead sectors number inode.now directory.new)) }
    ensures node { OnOk result (IsNode number inode.now directory.new) }
{
    directory.clear_all();
    match inode.kind {
        Kind::Dir => read_blocks(port, disk, number, inode, directory),
        Kind::Free | Kind::File => Ok(()),
    }
}

/// Reads the blocks of all directories.
pub(crate) fn read_directories<D: PortDisk>(
    port: &Port,
    disk: &mut D,
    inodes: &[Inode],
    directories: &mut [DirBlocks],
) -> Result<(), MountHalt>
    requires inode_count { length inodes.now ≡ limits.inodes }
    requires directory_count { length directories.old ≡ limits.inodes }
    requires stand { MayAllStand limits.inodes inodes.now }
    requires read { Told (D.means disk.old) (λ sectors. AreInodesRead sectors limits.inodes inodes.now) }
    requires own { (D.means disk.old).key ≡ port.now.view }
    ensures reads { ReadsOnly FirstBlock (D.means disk.old) port.now.view (D.fault_count disk.old) result (D.means disk.new) (D.fault_count disk.new) }
    ensures ok { OnOk result (Told (D.means disk.old) (λ sectors. AreNodesRead sectors limits.inodes inodes.now directories.new)) }
    ensures nodes { OnOk result (AreNodes inodes.now directories.new) }
    ensures count { length directories.new ≡ limits.inodes }
{
    for number in 0..INODES as u32 {
        let at = number as usize;
        match read_directory(port, disk, number, &inodes[at], &mut directories[at]) {
            Ok(()) => {}
            Err(halt) => return Err(halt),
        }
    }
    Ok(())
}

/// Reads the 512 inodes, and then the blocks of the directories. After a halt there is a root without
/// blocks, and nothing else.
pub(crate) fn read_nodes<D: PortDisk>(
    port: &Port,
    disk: &mut D,
    inodes: &mut [Inode],
    directories: &mut [DirBlocks],
) -> Result<(), MountHalt>
    requires inodes { length inodes.old ≡ limits.inodes }
    requires directories { length directories.old ≡ limits.inodes }
    ensures reads { ReadsOnly FirstNode (D.means disk.old) port.now.view (D.fault_count disk.old) result (D.means disk.new) (D.fault_count disk.new) }
    ensures ok { OnOk result (Told (D.means disk.old) (λ sectors. AreNodesRead sectors limits.inodes inodes.new directories.new)) }
    ensures nodes { AreNodes inodes.new directories.new }
    ensures inode_count { length inodes.new ≡ limits.inodes }
    ensures directory_count { length directories.new ≡ limits.inodes }
{
    match read_inodes(port, disk, inodes) {
        Ok(()) => {}
        Err(halt) => {
            clear_nodes(inodes, directories);
            return Err(halt);
        }
    }
    match read_directories(port, disk, inodes, directories) {
        Ok(()) => Ok(()),
        Err(halt) => {
            clear_nodes(inodes, directories);
            Err(halt)
        }
    }
}
