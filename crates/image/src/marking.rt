ghost use Rattle.std.specs.Prelude.{◌≡◌, ◌≤◌, ◌<◌, true, false, IfSome};
ghost use Rattle.cal_base.specs.Limits as limits;
ghost use Rattle.image.specs.Applying.{CanMark, CanPut};
ghost use Rattle.inode.specs.Inode.{AreSmall};
ghost use Rattle.volume_edit.specs.Edit.{free_with_growth, free_with_inode, marked, marked_all};
ghost use Rattle.volume_edit.specs.declared.edit.Growth.{Growth};

use inode::Inode;
use space_map::SpaceMap;
use volume_edit::{Edit, Growth, InodeEdit};

/// Marks the blocks that an edit frees and takes.
pub(crate) fn mark_map(map: &mut SpaceMap, inodes: &[Inode], edit: &Edit)
    requires { CanMark inodes.now edit.now }
    ensures { map.new ≡ free_with_growth (free_with_inode map.old inodes.now edit.now.inode) edit.now.growth }
{
    mark_inode(map, inodes, &edit.inode);
    mark_growth(map, &edit.growth);
}

/// Frees the blocks of an inode, and takes those of the one in its place.
fn mark_inode(map: &mut SpaceMap, inodes: &[Inode], edit: &Option<InodeEdit>)
    requires { IfSome edit.now (CanPut inodes.now) }
    ensures { map.new ≡ free_with_inode map.old inodes.now edit.now }
{
    if let Some(edit) = edit {
        free_all(map, &inodes[edit.ino.0 as usize].blocks);
        use_all(map, &edit.inode.blocks);
    }
}

/// Takes the block by which a directory grows.
fn mark_growth(map: &mut SpaceMap, growth: &Option<Growth>)
    requires { IfSome growth.now (λ (g : Growth). g.block < limits.blocks) }
    ensures { map.new ≡ free_with_growth map.old growth.now }
{
    if let Some(growth) = growth {
        map.take(growth.block);
    }
}

/// Frees the blocks that pointers name.
fn free_all(map: &mut SpaceMap, pointers: &[u16])
    requires { AreSmall pointers.now }
    ensures { map.new ≡ marked_all true map.old pointers.now }
{
    for pointer in pointers {
        free_one(map, *pointer);
    }
}

/// Takes the blocks that pointers name.
fn use_all(map: &mut SpaceMap, pointers: &[u16])
    requires { AreSmall pointers.now }
    ensures { map.new ≡ marked_all false map.old pointers.now }
{
    for pointer in pointers {
        use_one(map, *pointer);
    }
}

/// Frees the block that a pointer names, if it names one.
fn free_one(map: &mut SpaceMap, pointer: u16)
    requires { pointer ≤ limits.blocks }
    ensures { map.new ≡ marked true map.old pointer }
{
    if pointer > 0 {
        map.give(pointer - 1);
    }
}

/// Takes the block that a pointer names, if it names one.
fn use_one(map: &mut SpaceMap, pointer: u16)
    requires { pointer ≤ limits.blocks }
    ensures { map.new ≡ marked false map.old pointer }
{
    if pointer > 0 {
        map.take(pointer - 1);
    }
}
