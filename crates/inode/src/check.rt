ghost use Rattle.std.specs.Prelude.{◌≡◌, ◌≢◌, ◌↔◌, ◌≤◌, ◌<◌, ℕ, length, slice_index, IsTrue};
ghost use Rattle.cal_base.specs.Blocks.{block_count};
ghost use Rattle.inode.specs.Inode.{AreBlocksBefore, AreHolesFrom, AreSmall, IsDirInode, IsFileInode, IsFreeInode, IsInode};

use crate::inode::{Inode, Kind};
use cal_base::{BLOCK_SIZE, BLOCKS, DIRECTORY_SIZE, FILE_SIZE};

/// Whether the fields are those of an inode.
pub(crate) fn is_inode(inode: &Inode) -> bool
    ensures { IsTrue result ↔ IsInode inode.now }
{
    if !are_small(&inode.blocks) {
        return false;
    }
    match inode.kind {
        Kind::Free => is_free_inode(inode),
        Kind::File => is_file_inode(inode),
        Kind::Dir => is_dir_inode(inode),
    }
}

fn is_free_inode(inode: &Inode) -> bool
    ensures { IsTrue result ↔ IsFreeInode inode.now }
{
    !inode.named && inode.size == 0 && are_holes_from(&inode.blocks, 0)
}

fn is_file_inode(inode: &Inode) -> bool
    ensures { IsTrue result ↔ IsFileInode inode.now }
{
    inode.size as u64 <= FILE_SIZE
        && are_holes_from(
            &inode.blocks,
            (inode.size as usize + BLOCK_SIZE - 1) / BLOCK_SIZE,
        )
}

fn is_dir_inode(inode: &Inode) -> bool
    ensures { IsTrue result ↔ IsDirInode inode.now }
{
    let count = inode.size as usize / BLOCK_SIZE;
    inode.named
        && inode.size as usize % BLOCK_SIZE == 0
        && inode.size <= DIRECTORY_SIZE
        && are_blocks_before(&inode.blocks, count)
        && are_holes_from(&inode.blocks, count)
}

/// Whether each pointer is a hole or names a data block.
fn are_small(pointers: &[u16]) -> bool
    ensures { IsTrue result ↔ AreSmall pointers.now }
{
    for pointer in pointers {
        if *pointer as usize > BLOCKS {
            return false;
        }
    }
    true
}

/// Whether all pointers from a place on are holes.
fn are_holes_from(pointers: &[u16], count: usize) -> bool
    ensures { IsTrue result ↔ AreHolesFrom count pointers.now }
{
    for place in count..pointers.len() {
        if pointers[place] != 0 {
            return false;
        }
    }
    true
}

/// Whether all pointers before a place name blocks.
fn are_blocks_before(pointers: &[u16], count: usize) -> bool
    requires { count ≤ length pointers.now }
    ensures { IsTrue result ↔ AreBlocksBefore count pointers.now }
{
    for place in 0..count {
        if pointers[place] == 0 {
            return false;
        }
    }
    true
}
