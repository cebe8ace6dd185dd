ghost use Rattle.std.specs.Prelude.{◌≡◌, ◌⊎◌, ◌≤◌, ◌<◌, ◌+◌, ◌++◌, ◌↔◌, [], length, replicate, take, vec_capacity, IsOk, OnOk, IsTrue, ◌==◌, if◌then◌else◌};
ghost use Rattle.cal_base.specs.Limits as limits;
ghost use Rattle.inode.specs.Inode.{AreHolesFrom, IsInode};
ghost use Rattle.journal.specs.Layout.{outside};
ghost use Rattle.shared_disk.specs.Sectors.{written};
ghost use Rattle.volume_edit.specs.Edit.{inode_at};
ghost use Rattle.image.specs.FileRead.{AreFirstBytes, HoldsBlock, PutsBlock, ReadsBlocks, laid};
ghost use Rattle.image.specs.Mount.{Told};

use crate::image::Image;
use crate::read_parts::BEFORE_BLOCKS;
use cal_base::{BLOCK_SIZE, Ino, Sector};
use fence::Port;
use inode::Inode;
use shared_disk::{DiskRefusal, PortDisk};

/// Reads the bytes of a file into `into`, which is empty and has room for them, so that it takes no
/// memory. A hole is read as zeros without a call of the disk, whatever its key is; each other block is
/// read. `Fenced` comes only where the key is another, and `Failed` only where the count of faults rose; so
/// the file is read where the key is the port's view, or where it is all holes. An inode of another kind is
/// read by its pointers in the same way.
pub fn read_file<D: PortDisk>(
    image: &Image,
    port: &Port,
    disk: &mut D,
    ino: Ino,
    into: &mut Vec<u8>,
) -> Result<(), DiskRefusal>
    requires number { ino.0 < limits.inodes }
    requires empty { into.old.items ≡ [] }
    requires room { (inode_at image.now.inodes ino.0).size ≤ vec_capacity into.old }
    ensures reads { ReadsBlocks (D.means disk.old) port.now.view (D.fault_count disk.old) result (D.means disk.new) (D.fault_count disk.new) }
    ensures holes { AreHolesFrom 0 (inode_at image.now.inodes ino.0).blocks → IsOk result }
    ensures key { OnOk result (AreHolesFrom 0 (inode_at image.now.inodes ino.0).blocks ⊎ ((D.means disk.old).key ≡ port.now.view)) }
    ensures size { OnOk result (length into.new.items ≡ (inode_at image.now.inodes ino.0).size) }
    ensures bytes { OnOk result (Told (D.means disk.old) (λ sectors. AreFirstBytes sectors (inode_at image.now.inodes ino.0) into.new.items)) }
    ensures volume { OnOk result (Told (D.means disk.old) (λ sectors. AreFirstBytes (outside sectors) (inode_at image.now.inodes ino.0) into.new.items)) }
{
    read_file_behind(image, port, disk, ino, &[], into)
}

/// Reads the bytes that a file will have once these writes are made, as `read_file` does. Its blocks are
/// read from the disk all the same, those that will be written over too, so that a port of an earlier view
/// is refused; the writes are laid over what was read.
pub fn read_file_behind<D: PortDisk>(
    image: &Image,
    port: &Port,
    disk: &mut D,
    ino: Ino,
    writes: &[(u32, Sector)],
    into: &mut Vec<u8>,
) -> Result<(), DiskRefusal>
    requires number { ino.0 < limits.inodes }
    requires empty { into.old.items ≡ [] }
    requires room { (inode_at image.now.inodes ino.0).size ≤ vec_capacity into.old }
    ensures reads { ReadsBlocks (D.means disk.old) port.now.view (D.fault_count disk.old) result (D.means disk.new) (D.fault_count disk.new) }
    ensures holes { AreHolesFrom 0 (inode_at image.now.inodes ino.0).blocks → IsOk result }
    ensures key { OnOk result (AreHolesFrom 0 (inode_at image.now.inodes ino.0).blocks ⊎ ((D.means disk.old).key ≡ port.now.view)) }
    ensures size { OnOk result (length into.new.items ≡ (inode_at image.now.inodes ino.0).size) }
    ensures bytes { OnOk result (Told (D.means disk.old) (λ sectors. AreFirstBytes (written sectors writes.now) (inode_at image.now.inodes ino.0) into.new.items)) }
    ensures volume { OnOk result (Told (D.means disk.old) (λ sectors. AreFirstBytes (written (outside sectors) writes.now) (inode_at image.now.inodes ino.0) into.new.items)) }
{
    read_blocks(port, disk, image.inode(ino), writes, into)
}

/// Reads the blocks of a file one after the other.
fn read_blocks<D: PortDisk>(
    port: &Port,
    disk: &mut D,
    inode: &Inode,
    writes: &[(u32, Sector)],
    into: &mut Vec<u8>,
) -> Result<(), DiskRefusal>
    requires inode { IsInode inode.now }
    requires fits { inode.now.size ≤ limits.file_size }
    requires empty { into.old.items ≡ [] }
    requires room { inode.now.size ≤ vec_capacity into.old }
    ensures reads { ReadsBlocks (D.means disk.old) port.now.view (D.fault_count disk.old) result (D.means disk.new) (D.fault_count disk.new) }
    ensures holes { AreHolesFrom 0 inode.now.blocks → IsOk result }
    ensures key { OnOk result (AreHolesFrom 0 inode.now.blocks ⊎ ((D.means disk.old).key ≡ port.now.view)) }
    ensures size { OnOk result (length into.new.items ≡ inode.now.size) }
    ensures bytes { OnOk result (Told (D.means disk.old) (λ sectors. AreFirstBytes (written sectors writes.now) inode.now into.new.items)) }
{
    let size = inode.size as usize;
    while into.len() < size {
        let count = (size - into.len()).min(BLOCK_SIZE);
        match read_piece(
            port,
            disk,
            inode.blocks[into.len() / BLOCK_SIZE],
            count,
            writes,
            into,
        ) {
            Ok(()) => {}
            Err(refusal) => return Err(refusal),
        }
    }
    Ok(())
}

/// Puts the first bytes of a block behind those that were read before.
fn read_piece<D: PortDisk>(
    port: &Port,
    disk: &mut D,
    pointer: u16,
    count: usize,
    writes: &[(u32, Sector)],
    into: &mut Vec<u8>,
) -> Result<(), DiskRefusal>
    requires within { pointer ≤ limits.blocks }
    requires count { count ≤ limits.block_size }
    requires room { length into.old.items + count ≤ vec_capacity into.old }
    ensures reads { ReadsBlocks (D.means disk.old) port.now.view (D.fault_count disk.old) result (D.means disk.new) (D.fault_count disk.new) }
    ensures hole { pointer ≡ 0 → IsOk result }
    ensures key { OnOk result ((pointer ≡ 0) ⊎ ((D.means disk.old).key ≡ port.now.view)) }
    ensures more { OnOk result (length into.new.items ≡ length into.old.items + count) }
    ensures capacity { OnOk result (vec_capacity into.old ≤ vec_capacity into.new) }
    ensures block { OnOk result (Told (D.means disk.old) (λ sectors. PutsBlock (written sectors writes.now) pointer count into.old.items into.new.items)) }
{
    let mut sector = [0; BLOCK_SIZE];
    match read_block(port, disk, pointer, writes, &mut sector) {
        Ok(()) => {}
        Err(refusal) => return Err(refusal),
    }
    put_front(into, &sector, count);
    Ok(())
}

/// Puts the first bytes of a sector behind others, where there is room for them.
fn put_front(into: &mut Vec<u8>, sector: &Sector, count: usize)
    requires count { count ≤ limits.block_size }
    requires room { length into.old.items + count ≤ vec_capacity into.old }
    ensures put { into.new.items ≡ into.old.items ++ take count sector.now }
    ensures capacity { vec_capacity into.old ≤ vec_capacity into.new }
{
    into.extend_from_slice(&sector[..count]).unwrap();
}

/// Whether a pointer names no block.
fn is_hole(pointer: u16) -> bool
    ensures { IsTrue result ↔ (pointer ≡ 0) }
{
    pointer == 0
}

/// Reads the block of a pointer into a sector of zeros, and lays these writes over it. Pointer 0 is a hole.
fn read_block<D: PortDisk>(
    port: &Port,
    disk: &mut D,
    pointer: u16,
    writes: &[(u32, Sector)],
    into: &mut Sector,
) -> Result<(), DiskRefusal>
    requires within { pointer ≤ limits.blocks }
    requires zeros { into.old ≡ replicate limits.block_size 0 }
    ensures reads { ReadsBlocks (D.means disk.old) port.now.view (D.fault_count disk.old) result (D.means disk.new) (D.fault_count disk.new) }
    ensures hole { pointer ≡ 0 → IsOk result }
    ensures key { OnOk result ((pointer ≡ 0) ⊎ ((D.means disk.old).key ≡ port.now.view)) }
    ensures block { OnOk result (Told (D.means disk.old) (λ sectors. HoldsBlock (written sectors writes.now) pointer into.new)) }
{
    if is_hole(pointer) {
        return Ok(());
    }
    let at = BEFORE_BLOCKS + pointer as u32;
    match port.read(disk, at, into) {
        Ok(()) => {
            lay_over(writes, at, into);
            Ok(())
        }
        Err(refusal) => Err(refusal),
    }
}

/// Puts the bytes of the last of these writes to a sector over those that it has.
fn lay_over(writes: &[(u32, Sector)], at: u32, into: &mut Sector)
    ensures { into.new ≡ laid writes.now at into.old }
{
    for place in 0..writes.len() {
        lay_one(writes[place].0, &writes[place].1, at, into);
    }
}

/// Puts the bytes of a write over those of a sector, where it goes to that one.
fn lay_one(sector: u32, from: &Sector, at: u32, into: &mut Sector)
    ensures { into.new ≡ (if sector == at then from.now else into.old) }
{
    if sector == at {
        *into = *from;
    }
}
