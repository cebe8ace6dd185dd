use crate::class::Class;
use crate::content::Content;
use crate::hold::Hold;
use cal_base::{Ino, Items};

/// One token that a server grants to a client.
#[derive(Clone, Debug, Drop, PartialEq, Eq)]
pub struct GrantItem {
    pub ino: Ino,
    pub class: Class,
    pub hold: Hold,
    /// Whether the client had no hold in that class; always of Names and Open.
    pub fresh: bool,
    /// What comes along where it is fresh.
    pub content: Content,
}

/// Tokens of one grant, in the order of the call's needs.
pub type GrantItemList = Items<GrantItem>;
