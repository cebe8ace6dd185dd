//! Resolving of paths, and the refusals of the calls that name one, over a tree in any form.
ghost use Rattle.std.specs.Prelude.{◌≡◌};
ghost use Rattle.tree_law.specs.Resolve.{file_named, new_place, parent_of, prefix_of, removable, resolved};

use crate::lookup::Lookup;
use crate::reply::Why;
use cal_base::{Blob, Ino};

/// The inode that these names lead to from the root, or the first refusal.
pub fn resolve<L: Lookup>(nodes: &L, path: &[Blob]) -> Result<Ino, Why>
    ensures { result ≡ resolved (L.shows nodes.now) path.now }
{
    let mut at = Ino::ROOT;
    for name in path {
        match nodes.look_up(at, name) {
            Ok(next) => at = next,
            Err(why) => return Err(why),
        }
    }
    Ok(at)
}

/// The directory in which the last name of a path is looked up, or the first refusal.
pub fn parent_of<L: Lookup>(nodes: &L, path: &[Blob]) -> Result<Ino, Why>
    ensures { result ≡ parent_of (L.shows nodes.now) path.now }
{
    match resolve(nodes, before_last(path)) {
        Ok(ino) => nodes.as_directory(ino),
        Err(why) => Err(why),
    }
}

/// The directory in which the last name of a path can be made, or the first refusal of `create` or
/// `mkdir`.
pub fn new_place<L: Lookup>(nodes: &L, path: &[Blob]) -> Result<Ino, Why>
    ensures { result ≡ new_place (L.shows nodes.now) path.now }
{
    let count = path.len();
    if count == 0 {
        return Err(Why::Exist);
    }
    match resolve(nodes, &path[..count - 1]) {
        Ok(ino) => nodes.room_for(&path[count - 1], ino),
        Err(why) => Err(why),
    }
}

/// The file that a path names, or the first refusal of `unlink` or `open`.
pub fn file_named<L: Lookup>(nodes: &L, path: &[Blob]) -> Result<Ino, Why>
    ensures { result ≡ file_named (L.shows nodes.now) path.now }
{
    match resolve(nodes, path) {
        Ok(ino) => nodes.as_file(ino),
        Err(why) => Err(why),
    }
}

/// The empty directory that a path names, or the first refusal of `rmdir`.
pub fn removable<L: Lookup>(nodes: &L, path: &[Blob]) -> Result<Ino, Why>
    ensures { result ≡ removable (L.shows nodes.now) path.now }
{
    if path.is_empty() {
        return Err(Why::Busy);
    }
    match resolve(nodes, path) {
        Ok(ino) => nodes.as_empty_directory(ino),
        Err(why) => Err(why),
    }
}

/// The names of a path before its last.
pub(crate) fn before_last(path: &[Blob]) -> &[Blob]
    ensures { result.now ≡ prefix_of path.now }
{
    match path {
        [before @ .., _] => before,
        [] => path,
    }
}
