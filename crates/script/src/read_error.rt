ghost use Rattle.std.specs.Prelude.{◌≡◌};
ghost use Rattle.script.specs.declared.read_error.ReadLineError.TheVariants.{Bad, OutOfMemory};

use crate::bad_line::BadWhy;
use cal_base::Oom;

/// Why a line was not read.
#[derive(Clone, Copy, Debug, PartialEq, Eq)]
pub enum ReadLineError {
    /// It is bad, for this first reason.
    Bad(BadWhy),
    OutOfMemory,
}

impl From<BadWhy> for ReadLineError {
    ghost from_gives = { λ why e. e ≡ Bad why };

    fn from(why: BadWhy) -> ReadLineError {
        ReadLineError::Bad(why)
    }
}

impl From<Oom> for ReadLineError {
    ghost from_gives = { λ _ e. e ≡ OutOfMemory };

    fn from(_error: Oom) -> ReadLineError {
        ReadLineError::OutOfMemory
    }
}
