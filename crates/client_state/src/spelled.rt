ghost use Rattle.std.specs.Prelude.{◌≤◌, ◌↔◌, IsTrue, length};
ghost use Rattle.cal_base.specs.Limits.{write_size};
ghost use Rattle.tree_law.specs.Path.{IsPath};
ghost use Rattle.client_book.specs.Sound.{IsCall};

use cal_base::{PATH_NAMES, WRITE_SIZE};
use tree_law::{Call, Path};

/// Whether a call is one that its grammar spells: a path is one by its type, and a write has 1 to 32,768 bytes.
pub fn is_call(call: &Call) -> bool
    ensures { IsTrue result ↔ IsCall call.now }
{
    match call {
        Call::Create(path) => is_path(path),
        Call::Mkdir(path) => is_path(path),
        Call::Unlink(path) => is_path(path),
        Call::Rmdir(path) => is_path(path),
        Call::Rename(path, goal) => is_path(path) && is_path(goal),
        Call::Open(path, _) => is_path(path),
        Call::Close(_) => true,
        Call::Read {
            fd: _,
            offset: _,
            len: _,
        } => true,
        Call::Write {
            fd: _,
            offset: _,
            bytes,
        } => 1 <= bytes.len() && bytes.len() <= WRITE_SIZE,
        Call::Truncate { fd: _, size: _ } => true,
        Call::Stat(path) => is_path(path),
        Call::Readdir(path) => is_path(path),
        Call::Fsync(_) => true,
    }
}

fn is_path(path: &Path) -> bool
    ensures { IsTrue result ↔ IsPath path.now }
{
    path.names().len() <= PATH_NAMES
}
