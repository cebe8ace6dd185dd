use std::fmt;
use std::fmt::{Display, Formatter, Write};

/// A source, a sink or a disk failed in this call; its count of faults says so.
#[derive(Clone, Copy, Debug, PartialEq, Eq)]
pub struct Failed;

impl Display for Failed {
    fn fmt<W: Write>(&self, f: &mut Formatter<W>) -> fmt::Result {
        f.write_str("the device failed")
    }
}
