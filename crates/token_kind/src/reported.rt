use crate::hold::Hold;
use crate::token::Token;

/// A hold as a client reports it to a server that collects.
#[derive(Clone, Copy, Debug, PartialEq, Eq)]
pub struct Reported {
    /// The hold, Read or Write; that of a file under an outstanding flush as it was before the flush.
    pub token: Token,
    /// The number of the outstanding flush of that file, or 0 for none.
    pub flush: u64,
    /// What that flush leaves of the hold; none where the number is 0.
    pub leave: Hold,
}
