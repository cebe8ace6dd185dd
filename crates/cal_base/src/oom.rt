use std::alloc::{AllocError, AllocFailed};
use std::fmt;
use std::fmt::{Display, Formatter, Write};

/// Memory ran out. A call that answers it has left everything as it was, unless its own page says otherwise.
#[derive(Clone, Copy, Debug, PartialEq, Eq)]
pub struct Oom;

impl From<AllocError> for Oom {
    fn from(_error: AllocError) -> Oom {
        Oom
    }
}

impl<T: Drop> From<AllocFailed<T>> for Oom {
    fn from(_error: AllocFailed<T>) -> Oom {
        Oom
    }
}

impl Display for Oom {
    fn fmt<W: Write>(&self, f: &mut Formatter<W>) -> fmt::Result {
        f.write_str("memory ran out")
    }
}
