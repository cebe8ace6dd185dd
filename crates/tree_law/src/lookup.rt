ghost use Rattle.std.specs.Prelude.{◌≡◌};
ghost use Rattle.tree_law.specs.Tree.{Tree, node_at};
ghost use Rattle.tree_law.specs.Resolve.{as_directory, as_empty_directory, as_file, looked_up, room_for};
ghost use Rattle.tree_law.specs.Rename.{is_directory, is_full_directory, replacing};

use crate::rename::Move;
use crate::reply::Why;
use cal_base::{Blob, Ino};

/// A file tree in any form, as resolving looks at it: one question on one or two inodes a call. Each
/// answers as the definition does of the nodes that stand at these numbers in the tree that it shows.
pub trait Lookup {
    /// The tree that it shows.
    ghost shows: { Self → Tree };

    /// The inode of a name in a directory, or why there is none: ENOENT or ENOTDIR.
    fn look_up(&self, at: Ino, name: &Blob) -> Result<Ino, Why>
        ensures { result ≡ looked_up (node_at (shows self.now) at) name.now };

    /// An inode as a file, or EISDIR.
    fn as_file(&self, ino: Ino) -> Result<Ino, Why>
        ensures { result ≡ as_file (node_at (shows self.now) ino) ino };

    /// An inode as a directory, or ENOTDIR.
    fn as_directory(&self, ino: Ino) -> Result<Ino, Why>
        ensures { result ≡ as_directory (node_at (shows self.now) ino) ino };

    /// An inode as an empty directory, or ENOTDIR or ENOTEMPTY.
    fn as_empty_directory(&self, ino: Ino) -> Result<Ino, Why>
        ensures { result ≡ as_empty_directory (node_at (shows self.now) ino) ino };

    /// An inode as the place of a new name, or ENOTDIR, EEXIST or DIRFULL.
    fn room_for(&self, name: &Blob, ino: Ino) -> Result<Ino, Why>
        ensures { result ≡ room_for name.now (node_at (shows self.now) ino) ino };

    /// Whether an inode is a directory.
    fn is_directory(&self, ino: Ino) -> bool
        ensures { result ≡ is_directory (node_at (shows self.now) ino) };

    /// Whether an inode is a directory that takes no further name.
    fn is_full_directory(&self, ino: Ino) -> bool
        ensures { result ≡ is_full_directory (node_at (shows self.now) ino) };

    /// The move in which an inode replaces another, or EISDIR, ENOTDIR or ENOTEMPTY.
    fn replacing(&self, ino: Ino, target: Ino, moving: Move) -> Result<Move, Why>
        ensures { result ≡ replacing (node_at (shows self.now) ino) (node_at (shows self.now) target) moving };
}
