ghost use Rattle.std.specs.Prelude.{◌≡◌, IfSome};
ghost use Rattle.image.specs.Applying.{CanChange, CanEnter, CanGrow, CanLeave, IsWithin};
ghost use Rattle.volume_edit.specs.Edit.{with_entered, with_grown, with_left, without_slots};

use directory::DirBlocks;
use volume_edit::{Edit, Entering, Growth, InodeEdit, Leaving};

/// Makes what an edit changes of the slots of directories.
pub(crate) fn change_directories(directories: &mut [DirBlocks], edit: &Edit)
    requires { CanChange directories.old edit.now }
    ensures { directories.new ≡ without_slots (with_entered (with_left (with_grown directories.old edit.now.growth) edit.now.leaving) edit.now.entering) edit.now.inode }
{
    grow(directories, &edit.growth);
    leave(directories, &edit.leaving);
    enter(directories, &edit.entering);
    remove_all(directories, &edit.inode);
}

/// A directory gets a block more.
fn grow(directories: &mut [DirBlocks], growth: &Option<Growth>)
    requires { IfSome growth.now (CanGrow directories.old) }
    ensures { directories.new ≡ with_grown directories.old growth.now }
{
    if let Some(growth) = growth {
        directories[growth.directory.0 as usize].grow();
    }
}

/// An entry goes.
fn leave(directories: &mut [DirBlocks], leaving: &Option<Leaving>)
    requires { IfSome leaving.now (CanLeave directories.old) }
    ensures { directories.new ≡ with_left directories.old leaving.now }
{
    if let Some(leaving) = leaving {
        directories[leaving.directory.0 as usize].clear(leaving.place as usize);
    }
}

/// An entry comes.
fn enter(directories: &mut [DirBlocks], entering: &Option<Entering>)
    requires { IfSome entering.now (CanEnter directories.old) }
    ensures { directories.new ≡ with_entered directories.old entering.now }
{
    if let Some(entering) = entering {
        directories[entering.directory.0 as usize].set(entering.place as usize, &entering.entry);
    }
}

/// The slots of an inode that is made, freed or flushed go.
fn remove_all(directories: &mut [DirBlocks], inode: &Option<InodeEdit>)
    requires { IfSome inode.now (IsWithin directories.old) }
    ensures { directories.new ≡ without_slots directories.old inode.now }
{
    if let Some(edit) = inode {
        directories[edit.ino.0 as usize].clear_all();
    }
}
