ghost use Rattle.std.specs.Prelude.{◌≡◌, ◌≤◌, ◌<◌, ℕ, true, false, length};
ghost use Rattle.volume_edit.specs.Edit.{inode_at};
ghost use Rattle.image.specs.Image.{is_free_inode, is_orphan};

use inode::{Inode, Kind};

/// Whether an inode is free.
pub(crate) fn is_free_inode(inode: &Inode) -> bool
    ensures { result ≡ is_free_inode inode.now }
{
    match inode.kind {
        Kind::Free => true,
        Kind::File | Kind::Dir => false,
    }
}

/// Whether an inode is a file that no directory names.
pub(crate) fn is_orphan(inode: &Inode) -> bool
    ensures { result ≡ is_orphan inode.now }
{
    match inode.kind {
        Kind::File => !inode.named,
        Kind::Free | Kind::Dir => false,
    }
}

/// The number of the first free inode from a number on; their count where there is none.
pub(crate) fn first_free(inodes: &[Inode], from: usize) -> usize
    requires { from ≤ length inodes.now }
    ensures within { result ≤ length inodes.now }
    ensures later { from ≤ result }
    ensures free { result < length inodes.now → is_free_inode (inode_at inodes.now result) ≡ true }
    ensures least { (number : ℕ) → from ≤ number → number < result → is_free_inode (inode_at inodes.now number) ≡ false }
{
    let mut number = from;
    while number < inodes.len() {
        if is_free_inode(&inodes[number]) {
            return number;
        }
        number += 1;
    }
    number
}

/// The number of the first orphan from a number on; their count where there is none.
pub(crate) fn first_orphan(inodes: &[Inode], from: usize) -> usize
    requires { from ≤ length inodes.now }
    ensures within { result ≤ length inodes.now }
    ensures later { from ≤ result }
    ensures orphan { result < length inodes.now → is_orphan (inode_at inodes.now result) ≡ true }
    ensures least { (number : ℕ) → from ≤ number → number < result → is_orphan (inode_at inodes.now number) ≡ false }
{
    let mut number = from;
    while number < inodes.len() {
        if is_orphan(&inodes[number]) {
            return number;
        }
        number += 1;
    }
    number
}
