use crate::class::Class;
use crate::hold::Hold;
use cal_base::{Ino, Items};

/// Holds by class.
pub type HoldList = Items<(Class, Hold)>;

/// A client tells a server what it gives up of an inode.
#[derive(Clone, Debug, Drop, PartialEq, Eq)]
pub struct Release {
    pub ino: Ino,
    /// 1 to 3 classes, by rising number, each with the hold that is left: Read or none of Data and
    /// Attr, none of Names and Open.
    pub items: HoldList,
}
