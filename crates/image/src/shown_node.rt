ghost use Rattle.std.specs.Prelude.{◌≡◌, is_some, ok_or};
ghost use Rattle.std.specs.FinMap as map;
ghost use Rattle.image.specs.Nodes.{node_of};
ghost use Rattle.tree_law.specs.Rename.{is_directory, is_full_directory, replacing};
ghost use Rattle.tree_law.specs.Resolve.{as_directory, as_empty_directory, as_file, looked_up, room_for};
ghost use Rattle.tree_law.specs.declared.reply.Why.TheVariants.{NoEnt};
ghost use Rattle.volume_plan.specs.Shown.{names_of};

use cal_base::{Blob, DIRECTORY_ENTRIES, Ino};
use directory::DirBlocks;
use tree_law::{Move, Why};

/// What a volume shows at a number: a directory, a file with a name, or nothing.
#[derive(Clone, Copy)]
pub enum ShownNode<'a> {
    Directory(&'a DirBlocks),
    File,
    Nothing,
}

/// The inode of a name, if the name stands.
pub(crate) fn inode_named(blocks: &DirBlocks, name: &Blob) -> Option<Ino>
    ensures { result ≡ map.get (names_of blocks.now) name.now }
{
    blocks.find(name.as_slice())
}

/// The count of names.
pub(crate) fn name_count(blocks: &DirBlocks) -> usize
    ensures { result ≡ map.len (names_of blocks.now) }
{
    blocks.count() as usize
}

/// The inode of a name, or why there is none.
pub(crate) fn look_up(node: ShownNode<'_>, name: &Blob) -> Result<Ino, Why>
    ensures { result ≡ looked_up (node_of node.entry) name.now }
{
    match node {
        ShownNode::Directory(blocks) => inode_named(blocks, name).ok_or(Why::NoEnt),
        ShownNode::File => Err(Why::NotDir),
        ShownNode::Nothing => Err(Why::NoEnt),
    }
}

/// An inode as a file.
pub(crate) fn as_file(node: ShownNode<'_>, ino: Ino) -> Result<Ino, Why>
    ensures { result ≡ as_file (node_of node.entry) ino }
{
    match node {
        ShownNode::Directory(_) => Err(Why::IsDir),
        ShownNode::File => Ok(ino),
        ShownNode::Nothing => Err(Why::NoEnt),
    }
}

/// An inode as a directory.
pub(crate) fn as_directory(node: ShownNode<'_>, ino: Ino) -> Result<Ino, Why>
    ensures { result ≡ as_directory (node_of node.entry) ino }
{
    match node {
        ShownNode::Directory(_) => Ok(ino),
        ShownNode::File => Err(Why::NotDir),
        ShownNode::Nothing => Err(Why::NoEnt),
    }
}

/// An inode as an empty directory.
pub(crate) fn as_empty_directory(node: ShownNode<'_>, ino: Ino) -> Result<Ino, Why>
    ensures { result ≡ as_empty_directory (node_of node.entry) ino }
{
    match node {
        ShownNode::Directory(blocks) => {
            if name_count(blocks) == 0 {
                Ok(ino)
            } else {
                Err(Why::NotEmpty)
            }
        }
        ShownNode::File => Err(Why::NotDir),
        ShownNode::Nothing => Err(Why::NoEnt),
    }
}

/// An inode as the place of a new name.
pub(crate) fn room_for(name: &Blob, node: ShownNode<'_>, ino: Ino) -> Result<Ino, Why>
    ensures { result ≡ room_for name.now (node_of node.entry) ino }
{
    match node {
        ShownNode::Directory(blocks) => {
            if inode_named(blocks, name).is_some() {
                Err(Why::Exist)
            } else if name_count(blocks) >= DIRECTORY_ENTRIES {
                Err(Why::DirFull)
            } else {
                Ok(ino)
            }
        }
        ShownNode::File => Err(Why::NotDir),
        ShownNode::Nothing => Err(Why::NoEnt),
    }
}

/// Whether this is anything.
pub(crate) fn is_shown(node: ShownNode<'_>) -> bool
    ensures { result ≡ is_some (node_of node.entry) }
{
    match node {
        ShownNode::Directory(_) => true,
        ShownNode::File => true,
        ShownNode::Nothing => false,
    }
}

/// Whether this is a directory.
pub(crate) fn is_directory(node: ShownNode<'_>) -> bool
    ensures { result ≡ is_directory (node_of node.entry) }
{
    match node {
        ShownNode::Directory(_) => true,
        ShownNode::File => false,
        ShownNode::Nothing => false,
    }
}

/// Whether this is a directory that takes no further name.
pub(crate) fn is_full_directory(node: ShownNode<'_>) -> bool
    ensures { result ≡ is_full_directory (node_of node.entry) }
{
    match node {
        ShownNode::Directory(blocks) => name_count(blocks) >= DIRECTORY_ENTRIES,
        ShownNode::File => false,
        ShownNode::Nothing => false,
    }
}

/// A move in which a node replaces another, or why it can't.
pub(crate) fn replacing(
    node: ShownNode<'_>,
    target: ShownNode<'_>,
    moving: Move,
) -> Result<Move, Why>
    ensures { result ≡ replacing (node_of node.entry) (node_of target.entry) moving }
{
    match node {
        ShownNode::Directory(_) => match target {
            ShownNode::Directory(others) => {
                if name_count(others) == 0 {
                    Ok(moving)
                } else {
                    Err(Why::NotEmpty)
                }
            }
            ShownNode::File => Err(Why::NotDir),
            ShownNode::Nothing => Ok(moving),
        },
        ShownNode::File => match target {
            ShownNode::Directory(_) => Err(Why::IsDir),
            ShownNode::File => Ok(moving),
            ShownNode::Nothing => Ok(moving),
        },
        ShownNode::Nothing => Ok(moving),
    }
}
