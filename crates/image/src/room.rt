ghost use Rattle.std.specs.Prelude.{◌≡◌, IfOk, replicate};
ghost use Rattle.cal_base.specs.Limits as limits;
ghost use Rattle.volume_edit.specs.Edit.{first_slot};
ghost use Rattle.image.specs.Image.{fresh_inodes, fresh_slots, no_directories};

use cal_base::{CLIENTS, FILE_BLOCKS, INODES, Oom};
use directory::DirBlocks;
use inode::{Inode, Kind};
use request_log::Slot;
use std::alloc::Global;
use tree_law::Reply;

/// The slot of a client that made no change.
pub(crate) fn first_slot() -> Slot
    ensures { result ≡ first_slot }
{
    Slot {
        purged: false,
        call: 0,
        flush: 0,
        reply: Reply::Done,
    }
}

/// The slots of clients that made no change.
pub(crate) fn room_for_slots(alloc: Global) -> Result<Vec<Slot>, Oom>
    ensures { IfOk result (λ slots. slots.items ≡ fresh_slots) }
{
    let mut slots = Vec::with_capacity(alloc, CLIENTS as usize)?;
    for _client in 0..CLIENTS {
        slots.push(first_slot())?;
    }
    Ok(slots)
}

/// An inode without blocks.
pub(crate) fn blank_inode(kind: Kind, named: bool) -> Inode
    ensures { result ≡ (record { kind = kind; named = named; size = 0; blocks = replicate limits.file_blocks 0 }) }
{
    Inode {
        kind,
        named,
        size: 0,
        blocks: [0; FILE_BLOCKS],
    }
}

/// The root without blocks, and free inodes.
pub(crate) fn room_for_inodes(alloc: Global) -> Result<Vec<Inode>, Oom>
    ensures { IfOk result (λ inodes. inodes.items ≡ fresh_inodes) }
{
    let mut inodes = Vec::with_capacity(alloc, INODES)?;
    inodes.push(blank_inode(Kind::Dir, true))?;
    for _number in 1..INODES {
        inodes.push(blank_inode(Kind::Free, false))?;
    }
    Ok(inodes)
}

/// Directories without slots, with room for all that they may ever have.
pub(crate) fn room_for_directories(alloc: Global) -> Result<Vec<DirBlocks>, Oom>
    ensures { IfOk result (λ directories. directories.items ≡ no_directories) }
{
    let mut directories = Vec::with_capacity(alloc, INODES)?;
    for _number in 0..INODES {
        directories.push(DirBlocks::room(alloc)?)?;
    }
    Ok(directories)
}
