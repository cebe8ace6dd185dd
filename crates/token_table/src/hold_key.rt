use cal_base::{ClientId, Ino};
use token_kind::Class;

/// Whose hold it is, and in which class on which inode.
#[derive(Clone, Copy, Debug, PartialEq, Eq, Hash)]
pub struct HoldKey {
    pub client: ClientId,
    pub ino: Ino,
    pub class: Class,
}
