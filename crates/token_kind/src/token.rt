use crate::class::Class;
use crate::hold::Hold;
use cal_base::{Ino, Items};

/// A token, or the need of one: a hold in a class on an inode. Write is a hold of Data and Attr alone.
#[derive(Clone, Copy, Debug, PartialEq, Eq, Hash)]
pub struct Token {
    pub ino: Ino,
    pub class: Class,
    pub hold: Hold,
}

/// Tokens.
pub type TokenList = Items<Token>;
