//! Resolving on the image: it shows a file tree, and the tree's own calls look at it.
ghost use Rattle.std.specs.Prelude.{◌<◌, ◌≡◌, ◌≤◌, [], IfOk, is_some};
ghost use Rattle.cal_base.specs.Limits as limits;
ghost use Rattle.image.specs.Nodes.{node_of};
ghost use Rattle.inode.specs.declared.inode.Kind.TheVariants.{File};
ghost use Rattle.tree_law.specs.Resolve.{file_named, new_place, parent_of, removable};
ghost use Rattle.tree_law.specs.Tree.{node_at};
ghost use Rattle.volume_edit.specs.Edit.{IsVolume};
ghost use Rattle.volume_plan.specs.Shown.{shown, shown_as};

use crate::image::Image;
use crate::shown_node::{
    ShownNode, as_directory, as_empty_directory, as_file, is_directory, is_full_directory,
    is_shown, look_up, replacing, room_for,
};
use cal_base::{Blob, INODES, Ino};
use inode::Kind;
use tree_law::{Lookup, Move, Why, file_named, new_place, parent_of, removable};

impl Lookup for Image {
    ghost use Rattle.volume_plan.specs.Shown.{shown};

    ghost shows = { λ volume. shown volume };

    fn look_up(&self, at: Ino, name: &Blob) -> Result<Ino, Why> {
        look_up(self.node(at), name)
    }

    fn as_file(&self, ino: Ino) -> Result<Ino, Why> {
        as_file(self.node(ino), ino)
    }

    fn as_directory(&self, ino: Ino) -> Result<Ino, Why> {
        as_directory(self.node(ino), ino)
    }

    fn as_empty_directory(&self, ino: Ino) -> Result<Ino, Why> {
        as_empty_directory(self.node(ino), ino)
    }

    fn room_for(&self, name: &Blob, ino: Ino) -> Result<Ino, Why> {
        room_for(name, self.node(ino), ino)
    }

    fn is_directory(&self, ino: Ino) -> bool {
        is_directory(self.node(ino))
    }

    fn is_full_directory(&self, ino: Ino) -> bool {
        is_full_directory(self.node(ino))
    }

    fn replacing(&self, ino: Ino, target: Ino, moving: Move) -> Result<Move, Why> {
        replacing(self.node(ino), self.node(target), moving)
    }
}

impl Image {
    /// What the volume shows at a number; nothing above 511.
    pub fn node(&self, ino: Ino) -> ShownNode<'_>
        ensures node { node_of result ≡ node_at (shown self.now) ino }
        ensures volume { IsVolume self.now }
    {
        let number = ino.0 as usize;
        if number >= self.inodes.len() {
            return ShownNode::Nothing;
        }
        match self.inodes[number].kind {
            Kind::Dir => ShownNode::Directory(&self.directories[number]),
            Kind::File => file_node(self.inodes[number].named),
            Kind::Free => ShownNode::Nothing,
        }
    }

    /// Whether the volume shows anything at a number.
    pub fn is_shown(&self, ino: Ino) -> bool
        ensures { result ≡ is_some (node_at (shown self.now) ino) }
    {
        is_shown(self.node(ino))
    }

    /// The directory in which the last name of a path is looked up, or the first refusal.
    pub fn parent(&self, path: &[Blob]) -> Result<Ino, Why>
        ensures is { result ≡ parent_of (shown self.now) path.now }
        ensures within { IfOk result (λ ino. ino.0 < limits.inodes) }
    {
        prove!(self.inodes.len() == INODES);
        parent_of(self, path)
    }

    /// The directory in which the last name of a path can be made, or the first refusal of `create` or
    /// `mkdir`.
    pub fn new_place(&self, path: &[Blob]) -> Result<Ino, Why>
        ensures is { result ≡ new_place (shown self.now) path.now }
        ensures within { IfOk result (λ ino. ino.0 < limits.inodes) }
    {
        prove!(self.inodes.len() == INODES);
        new_place(self, path)
    }

    /// The file that a path names, or the first refusal of `unlink` or `open`.
    pub fn file_named(&self, path: &[Blob]) -> Result<Ino, Why>
        ensures is { result ≡ file_named (shown self.now) path.now }
        ensures within { IfOk result (λ ino. ino.0 < limits.inodes) }
    {
        prove!(self.inodes.len() == INODES);
        file_named(self, path)
    }

    /// The empty directory that a path names, or the first refusal of `rmdir`.
    pub fn removable(&self, path: &[Blob]) -> Result<Ino, Why>
        ensures is { result ≡ removable (shown self.now) path.now }
        ensures within { IfOk result (λ ino. ino.0 < limits.inodes) }
    {
        prove!(self.inodes.len() == INODES);
        removable(self, path)
    }
}

/// A file is shown where it has a name.
fn file_node(named: bool) -> ShownNode<'static>
    ensures { node_of result ≡ shown_as File named [] }
{
    if named {
        ShownNode::File
    } else {
        ShownNode::Nothing
    }
}
