ghost use Rattle.std.specs.Prelude.{◌≡◌, ◌≤◌, ◌<◌, ◌+◌, ◌∷◌, []};
ghost use Rattle.cal_base.specs.Limits as limits;
ghost use Rattle.fence.specs.Writes.{Runs};
ghost use Rattle.inode.specs.Inode.{IsInode};
ghost use Rattle.volume.specs.Format.{blank, format_length, format_writes, free_writes, head_sector, inode_writes, root_inode, root_sector, to_each};

use crate::head::write_head;
use cal_base::{BLOCK_SIZE, FILE_BLOCKS, LAST_INODE, Sector};
use fence::{Port, PortHalt};
use inode::{Inode, Kind, write_inode};
use shared_disk::{AT_GATE, AT_HEAD, AT_MAP, FIRST_INODE, PortDisk};

/// Sectors of the map and the slots.
const MAP_AND_SLOTS: u32 = 17;

/// Writes a volume on which nothing has happened yet.
pub(crate) fn write_volume<D: PortDisk>(
    port: &mut Port,
    disk: &mut D,
    clients: u8,
) -> Result<(), PortHalt>
    requires some { 1 ≤ clients }
    requires few { clients ≤ limits.clients }
    requires room { format_length ≤ (D.means disk.old).room }
    ensures { Runs port.old (D.means disk.old) (D.fault_count disk.old) (format_writes clients) result port.new (D.means disk.new) (D.fault_count disk.new) }
{
    write_free(port, disk)?;
    write_inodes(port, disk)?;
    let head = head_with(clients);
    write_one(port, disk, AT_HEAD, &head)
}

/// Writes one sector.
fn write_one<D: PortDisk>(
    port: &mut Port,
    disk: &mut D,
    sector: u32,
    from: &Sector,
) -> Result<(), PortHalt>
    requires within { sector < limits.sectors }
    requires room { 0 < (D.means disk.old).room }
    ensures { Runs port.old (D.means disk.old) (D.fault_count disk.old) ((sector, from.now) ∷ []) result port.new (D.means disk.new) (D.fault_count disk.new) }
{
    port.write(disk, sector, from)
}

/// Writes the same bytes to so many sectors, from the first one on.
fn write_each<D: PortDisk>(
    port: &mut Port,
    disk: &mut D,
    first: u32,
    count: u32,
    from: &Sector,
) -> Result<(), PortHalt>
    requires within { first + count ≤ limits.sectors }
    requires room { count ≤ (D.means disk.old).room }
    ensures { Runs port.old (D.means disk.old) (D.fault_count disk.old) (to_each count first from.now) result port.new (D.means disk.new) (D.fault_count disk.new) }
{
    for i in 0..count {
        write_one(port, disk, first + i, from)?;
    }
    Ok(())
}

/// Writes the closed gate, the map of free blocks and the slots of clients that made no change.
fn write_free<D: PortDisk>(port: &mut Port, disk: &mut D) -> Result<(), PortHalt>
    requires { limits.clients + 2 ≤ (D.means disk.old).room }
    ensures { Runs port.old (D.means disk.old) (D.fault_count disk.old) free_writes result port.new (D.means disk.new) (D.fault_count disk.new) }
{
    let blank = blank_sector();
    write_one(port, disk, AT_GATE, &blank)?;
    write_each(port, disk, AT_MAP, MAP_AND_SLOTS, &blank)
}

/// Writes the root and the free inodes.
fn write_inodes<D: PortDisk>(port: &mut Port, disk: &mut D) -> Result<(), PortHalt>
    requires { limits.inodes ≤ (D.means disk.old).room }
    ensures { Runs port.old (D.means disk.old) (D.fault_count disk.old) inode_writes result port.new (D.means disk.new) (D.fault_count disk.new) }
{
    let root = first_root();
    let blank = blank_sector();
    write_one(port, disk, FIRST_INODE, &root)?;
    write_each(port, disk, FIRST_INODE + 1, LAST_INODE, &blank)
}

/// A sector of zeros.
fn blank_sector() -> Sector
    ensures { result ≡ blank }
{
    [0; BLOCK_SIZE]
}

/// The inode of a root directory without entries.
fn first_root() -> Sector
    ensures { result ≡ root_sector }
{
    let mut sector = blank_sector();
    write_inode(&empty_root(), &mut sector);
    sector
}

fn empty_root() -> Inode
    ensures root { result ≡ root_inode }
    ensures allowed { IsInode result }
{
    Inode {
        kind: Kind::Dir,
        named: true,
        size: 0,
        blocks: [0; FILE_BLOCKS],
    }
}

/// The head of a volume for so many clients.
fn head_with(clients: u8) -> Sector
    requires some { 1 ≤ clients }
    requires few { clients ≤ limits.clients }
    ensures { result ≡ head_sector clients }
{
    let mut sector = blank_sector();
    write_head(clients, &mut sector);
    sector
}
