use crate::class::Class;
use crate::hold::Hold;
use cal_base::{ClientId, Ino, Items};

/// A hold that stands in the way of a request, and what its holder is asked down to.
#[derive(Clone, Copy, Debug, PartialEq, Eq)]
pub struct Blocker {
    pub client: ClientId,
    pub ino: Ino,
    pub class: Class,
    /// The hold that the client may keep: Read or none.
    pub asked: Hold,
}

/// Blockers, the first one first.
pub type BlockerList = Items<Blocker>;
