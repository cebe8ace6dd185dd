use crate::release::HoldList;
use cal_base::Ino;

/// A server asks a client to give up what it holds of an inode.
#[derive(Clone, Debug, Drop, PartialEq, Eq)]
pub struct Revoke {
    pub ino: Ino,
    /// 1 or 2 classes of Names, Data and Attr, by rising number, each with the hold that the client
    /// may keep: Read or none of Data and Attr, none of Names.
    pub items: HoldList,
}
