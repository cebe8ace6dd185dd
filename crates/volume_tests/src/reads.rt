ghost use Rattle.std.specs.Prelude.{◌≡◌, ◌<◌, IfSome, length};
ghost use Rattle.cal_base.specs.Limits as limits;
ghost use Rattle.token_kind.specs.Flush.{IsFlush};

use crate::making::make_file;
use cal_base::{ClientId, Ino, View};
use fence::Port;
use image::{Image, MountHalt, SectorWrites, mkfs, mount, read_file_behind};
use journal::commit;
use shared_disk::{MemDisk, PortDisk};
use std::alloc::Global;
use std::test::Fail;
use token_kind::{Flush, Hold, PieceList};

/// A new disk, formatted for four clients under view 1, and its port.
fn formatted(image: &mut Image, alloc: Global) -> Option<(MemDisk, Port)> {
    let mut disk = MemDisk::new(alloc).ok()?;
    let mut port = Port::take(&mut disk, View(1)).ok()?;
    disk.reserve(531).ok()?;
    mkfs(image, &mut port, &mut disk, 4).ok()?;
    Some((disk, port))
}

/// A formatted disk on which `/a` was made, and its port.
fn with_file(image: &mut Image, alloc: Global) -> Option<(MemDisk, Port)> {
    let (mut disk, mut port) = formatted(image, alloc)?;
    let planned = make_file(image, alloc, 0, b"/a")?;
    disk.reserve(35).ok()?;
    commit(&mut port, &mut disk, &planned.txn).ok()?;
    Some((disk, port))
}

/// The port took the 531 writes of the format, and 13 of the commit of five homes.
#[test]
fn a_committed_change_is_mounted(rt: HostRuntime) -> Result<(), Fail> {
    let mut first = Image::room(rt.alloc()).ok().ok_or("no memory")?;
    let (mut disk, port) = with_file(&mut first, rt.alloc()).ok_or("no disk")?;
    let mut image = Image::room(rt.alloc()).ok().ok_or("no memory")?;
    assert_eq!(rt; mount(&mut image, &port, &mut disk), Ok(()));
    assert_eq!(rt; image.clients(), 4);
    assert_eq!(rt; image.entries_of(Ino(0)).count(), 1);
    assert_eq!(rt; image.slot(ClientId(0)).call, 1);
    assert_eq!(rt; image.least_inode(), Some(Ino(2)));
    assert_eq!(rt; image.free(), 2_047);
    assert_eq!(rt; port.accepted(), 544);
    Ok(())
}

/// Makes the first byte of a sector 9.
fn spoil(disk: &mut MemDisk, port: &mut Port, at: u32) -> Option<()>
    requires { at < limits.sectors }
{
    let mut sector = [0; 4_096];
    sector[0] = 9;
    disk.reserve(1).ok()?;
    port.write(disk, at, &sector).ok()
}

/// The sector that a mount calls damaged, where a block of the root and inode 5 are.
fn first_damage(image: &mut Image, alloc: Global) -> Option<MountHalt> {
    let (mut disk, mut port) = with_file(image, alloc)?;
    spoil(&mut disk, &mut port, 548)?;
    spoil(&mut disk, &mut port, 41)?;
    mount(image, &port, &mut disk).err()
}

#[test]
fn inodes_are_read_before_blocks(rt: HostRuntime) -> Result<(), Fail> {
    let mut image = Image::room(rt.alloc()).ok().ok_or("no memory")?;
    let halt = first_damage(&mut image, rt.alloc());
    assert_eq!(rt; halt, Some(MountHalt::Damaged { sector: 41 }));
    assert_eq!(rt; image.least_inode(), Some(Ino(1)));
    Ok(())
}

/// A flush of file 1 to 4,098 bytes, of which the last block has its bytes, and the first is a hole.
fn second_block(alloc: Global) -> Option<Flush>
    ensures flush { IfSome result IsFlush }
    ensures one { IfSome result (λ flush. length flush.pieces ≡ 1) }
{
    let mut block = [0; 4_096];
    block[0] = 107;
    block[1] = 108;
    let mut pieces = PieceList::new(alloc);
    pieces.push((1, block)).ok()?;
    Some(Flush {
        number: 1,
        ino: Ino(1),
        size: 4_098,
        cut: 0,
        leave_data: Hold::Read,
        leave_attr: Hold::Read,
        pieces,
    })
}

/// Flushes the file in the image; the writes of its data.
fn flush_file(image: &mut Image, alloc: Global) -> Option<SectorWrites> {
    let flush = second_block(alloc)?;
    if !image.is_file(flush.ino) || image.free() < 1 {
        return None;
    }
    let plan = image.plan_flush(alloc, ClientId(0), &flush).ok()?;
    image.apply(&plan.edit);
    Some(plan.data)
}

/// A read of the file behind these writes: its length, and its last bytes.
fn read_back(
    image: &Image,
    disk: &mut MemDisk,
    port: &Port,
    alloc: Global,
    writes: &SectorWrites,
) -> Option<(usize, u8, u8, u8)> {
    let ino = Ino(1);
    let mut bytes = Vec::with_capacity(alloc, image.size(ino) as usize).ok()?;
    read_file_behind(image, port, disk, ino, writes.as_slice(), &mut bytes).ok()?;
    let hole = *bytes.get(4_095)?;
    let first = *bytes.get(4_096)?;
    let last = *bytes.get(4_097)?;
    Some((bytes.len(), hole, first, last))
}

#[test]
fn a_file_is_read_behind_its_flush(rt: HostRuntime) -> Result<(), Fail> {
    let mut image = Image::room(rt.alloc()).ok().ok_or("no memory")?;
    let (mut disk, port) = with_file(&mut image, rt.alloc()).ok_or("no disk")?;
    let data = flush_file(&mut image, rt.alloc()).ok_or("no flush")?;
    let read = read_back(&image, &mut disk, &port, rt.alloc(), &data);
    assert_eq!(rt; read, Some((4_098, 0, 107, 108)));
    Ok(())
}
