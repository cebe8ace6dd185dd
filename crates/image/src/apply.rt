ghost use Rattle.std.specs.Prelude.{◌≡◌, ◌≤◌, IfSome};
ghost use Rattle.volume_edit.specs.Edit.{IsEdit, edited};
ghost use Rattle.volume_edit.specs.declared.edit.InodeEdit.{InodeEdit};

use crate::directories::change_directories;
use crate::image::Image;
use crate::inodes::change_inodes;
use crate::marking::mark_map;
use crate::search::{first_free, first_orphan};
use crate::slots::put_slot;
use volume_edit::{Edit, InodeEdit};

impl Image {
    /// Makes an edit. It takes no memory.
    pub fn apply(&mut self, edit: &Edit)
        requires { IsEdit self.old edit.now }
        ensures { self.new ≡ edited self.old edit.now }
    {
        mark_map(&mut self.map, &self.inodes, edit);
        change_inodes(&mut self.inodes, edit);
        change_directories(&mut self.directories, edit);
        put_slot(&mut self.slots, &edit.slot);
        self.least_free = first_free(&self.inodes, lesser(self.least_free, &edit.inode));
        self.least_orphan = first_orphan(&self.inodes, lesser(self.least_orphan, &edit.inode));
    }
}

/// The lesser of a number and that of the inode which an edit puts.
fn lesser(number: usize, edit: &Option<InodeEdit>) -> usize
    ensures lower { result ≤ number }
    ensures inode { IfSome edit.now (λ (e : InodeEdit). result ≤ e.ino.0) }
{
    match edit {
        Some(edit) => number.min(edit.ino.0 as usize),
        None => number,
    }
}
