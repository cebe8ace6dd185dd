use crate::class::Class;
use cal_base::{ClientId, Ino};

/// The request at the head of a server's line, and the first hold that blocks it.
#[derive(Clone, Copy, Debug, PartialEq, Eq)]
pub struct Block {
    /// Whose request it is.
    pub client: ClientId,
    /// The number of the call.
    pub number: u64,
    /// Who has the hold.
    pub holder: ClientId,
    pub ino: Ino,
    pub class: Class,
}
