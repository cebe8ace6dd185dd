use crate::call::Call;
use crate::path::Path;
use cal_base::{ClientId, Ino};

/// What a client wants tokens for: a call that it will then answer by itself.
#[derive(Clone, Debug, Drop, PartialEq, Eq)]
pub enum Want {
    /// `stat` of a path.
    Stat(Path),
    /// `open` of a path.
    Open(Path),
    /// `readdir` of a path.
    Readdir(Path),
    /// `read` of an open file.
    Read(Ino),
    /// `write` to an open file, or `truncate` of it.
    Write(Ino),
}

/// What a client asks of a server.
#[derive(Clone, Debug, Drop, PartialEq, Eq)]
pub enum Asked {
    /// The tokens that a call needs.
    Want(Want),
    /// A change of the tree: `create`, `mkdir`, `unlink`, `rmdir` or `rename`.
    Change(Call),
}

/// A client's request, for its call of this number.
#[derive(Clone, Debug, Drop, PartialEq, Eq)]
pub struct Request {
    pub client: ClientId,
    pub number: u64,
    pub asked: Asked,
}
