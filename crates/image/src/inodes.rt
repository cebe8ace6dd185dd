ghost use Rattle.std.specs.Prelude.{◌+◌, ◌≡◌, ◌≤◌, ◌<◌, length, IfSome};
ghost use Rattle.cal_base.specs.Limits as limits;
ghost use Rattle.image.specs.Applying.{CanChangeInodes, CanGrowInode};
ghost use Rattle.volume_edit.specs.Edit.{grown_inode, with_growth, with_inode};
ghost use Rattle.volume_edit.specs.declared.edit.InodeEdit.{InodeEdit};

use cal_base::BLOCK_SIZE;
use inode::Inode;
use volume_edit::{Edit, Growth, InodeEdit};

/// Makes what an edit changes of inodes.
pub(crate) fn change_inodes(inodes: &mut [Inode], edit: &Edit)
    requires { CanChangeInodes inodes.old edit.now }
    ensures { inodes.new ≡ with_growth (with_inode inodes.old edit.now.inode) edit.now.growth }
{
    put_inode(inodes, &edit.inode);
    grow_inode(inodes, &edit.growth);
}

/// Puts an inode in its place.
fn put_inode(inodes: &mut [Inode], edit: &Option<InodeEdit>)
    requires { IfSome edit.now (λ (e : InodeEdit). e.ino.0 < length inodes.old) }
    ensures { inodes.new ≡ with_inode inodes.old edit.now }
{
    if let Some(edit) = edit {
        inodes[edit.ino.0 as usize] = edit.inode;
    }
}

/// A directory's inode gets a block more.
fn grow_inode(inodes: &mut [Inode], growth: &Option<Growth>)
    requires { IfSome growth.now (CanGrowInode inodes.old) }
    ensures { inodes.new ≡ with_growth inodes.old growth.now }
{
    if let Some(growth) = growth {
        let number = growth.directory.0 as usize;
        inodes[number] = grown_inode(&inodes[number], growth.block);
    }
}

/// The inode of a directory with one block more, behind its others.
pub(crate) fn grown_inode(inode: &Inode, block: u16) -> Inode
    requires size { inode.now.size + limits.block_size ≤ limits.directory_size }
    requires block { block < limits.blocks }
    ensures { result ≡ grown_inode inode.now block }
{
    let mut grown = *inode;
    let place = inode.size as usize / BLOCK_SIZE;
    grown.size += BLOCK_SIZE as u32;
    grown.blocks[place] = block + 1;
    grown
}
