//! The plain tree as resolving looks at it.
ghost use Rattle.std.specs.Prelude.{◌≡◌};
ghost use Rattle.std.specs.Option.{option_copied};
ghost use Rattle.tree_law.specs.Tree.{node_at};
ghost use Rattle.tree_law.specs.Resolve.{as_directory, as_empty_directory, as_file, looked_up, room_for};
ghost use Rattle.tree_law.specs.Rename.{is_directory, is_full_directory, replacing};

use crate::lookup::Lookup;
use crate::node::Node;
use crate::plain_tree::PlainTree;
use crate::rename::Move;
use crate::reply::Why;
use cal_base::{Blob, DIRECTORY_ENTRIES, Ino};

impl Lookup for PlainTree {
    ghost shows = { λ tree. tree };

    fn look_up(&self, at: Ino, name: &Blob) -> Result<Ino, Why> {
        match self.node(at) {
            Some(Node::Directory(directory)) => directory.get(name).ok_or(Why::NoEnt),
            Some(Node::Regular(_)) => Err(Why::NotDir),
            None => Err(Why::NoEnt),
        }
    }

    fn as_file(&self, ino: Ino) -> Result<Ino, Why> {
        as_file(self.node(ino), ino)
    }

    fn as_directory(&self, ino: Ino) -> Result<Ino, Why> {
        as_directory(self.node(ino), ino)
    }

    fn as_empty_directory(&self, ino: Ino) -> Result<Ino, Why> {
        as_empty_directory(self.node(ino), ino)
    }

    fn room_for(&self, name: &Blob, ino: Ino) -> Result<Ino, Why> {
        room_for(name, self.node(ino), ino)
    }

    fn is_directory(&self, ino: Ino) -> bool {
        is_directory(self.node(ino))
    }

    fn is_full_directory(&self, ino: Ino) -> bool {
        is_full_directory(self.node(ino))
    }

    fn replacing(&self, ino: Ino, target: Ino, moving: Move) -> Result<Move, Why> {
        replacing(self.node(ino), self.node(target), moving)
    }
}

/// An inode as a file.
fn as_file(node: Option<&Node>, ino: Ino) -> Result<Ino, Why>
    ensures { result ≡ as_file (option_copied node.entry) ino }
{
    match node {
        Some(Node::Directory(_)) => Err(Why::IsDir),
        Some(Node::Regular(_)) => Ok(ino),
        None => Err(Why::NoEnt),
    }
}

/// An inode as a directory.
fn as_directory(node: Option<&Node>, ino: Ino) -> Result<Ino, Why>
    ensures { result ≡ as_directory (option_copied node.entry) ino }
{
    match node {
        Some(Node::Directory(_)) => Ok(ino),
        Some(Node::Regular(_)) => Err(Why::NotDir),
        None => Err(Why::NoEnt),
    }
}

/// An inode as an empty directory.
fn as_empty_directory(node: Option<&Node>, ino: Ino) -> Result<Ino, Why>
    ensures { result ≡ as_empty_directory (option_copied node.entry) ino }
{
    match node {
        Some(Node::Directory(names)) => {
            if names.len() == 0 {
                Ok(ino)
            } else {
                Err(Why::NotEmpty)
            }
        }
        Some(Node::Regular(_)) => Err(Why::NotDir),
        None => Err(Why::NoEnt),
    }
}

/// An inode as the place of a new name.
fn room_for(name: &Blob, node: Option<&Node>, ino: Ino) -> Result<Ino, Why>
    ensures { result ≡ room_for name.now (option_copied node.entry) ino }
{
    match node {
        Some(Node::Directory(names)) => {
            if names.get(name).is_some() {
                Err(Why::Exist)
            } else if names.len() >= DIRECTORY_ENTRIES {
                Err(Why::DirFull)
            } else {
                Ok(ino)
            }
        }
        Some(Node::Regular(_)) => Err(Why::NotDir),
        None => Err(Why::NoEnt),
    }
}

/// A move in which a node replaces another, or why it can't.
fn replacing(node: Option<&Node>, target: Option<&Node>, moving: Move) -> Result<Move, Why>
    ensures { result ≡ replacing (option_copied node.entry) (option_copied target.entry) moving }
{
    match node {
        Some(Node::Directory(_)) => match target {
            Some(Node::Directory(others)) => {
                if others.len() == 0 {
                    Ok(moving)
                } else {
                    Err(Why::NotEmpty)
                }
            }
            Some(Node::Regular(_)) => Err(Why::NotDir),
            None => Ok(moving),
        },
        Some(Node::Regular(_)) => match target {
            Some(Node::Directory(_)) => Err(Why::IsDir),
            Some(Node::Regular(_)) => Ok(moving),
            None => Ok(moving),
        },
        None => Ok(moving),
    }
}

/// Whether this is a directory.
fn is_directory(node: Option<&Node>) -> bool
    ensures { result ≡ is_directory (option_copied node.entry) }
{
    match node {
        Some(Node::Directory(_)) => true,
        Some(Node::Regular(_)) => false,
        None => false,
    }
}

/// Whether this is a directory that takes no further name.
fn is_full_directory(node: Option<&Node>) -> bool
    ensures { result ≡ is_full_directory (option_copied node.entry) }
{
    match node {
        Some(Node::Directory(names)) => names.len() >= DIRECTORY_ENTRIES,
        Some(Node::Regular(_)) => false,
        None => false,
    }
}
