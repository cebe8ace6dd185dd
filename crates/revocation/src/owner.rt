use cal_base::{ClientId, Ino};

/// Whose holds, and on which inode: what one Revoke is about.
#[derive(Clone, Copy, Debug, PartialEq, Eq, Hash)]
pub struct Owner {
    pub client: ClientId,
    pub ino: Ino,
}
