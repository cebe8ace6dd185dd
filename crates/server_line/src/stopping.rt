ghost use Rattle.std.specs.Prelude.{◌≡◌};
ghost use Rattle.server_line.specs.declared.stopping.ServeError.TheVariants.{OutOfMemory, Refused};

use cal_base::Oom;
use shared_disk::DiskRefusal;
use std::alloc::AllocError;

/// Why a line was not served to its end.
#[derive(Clone, Copy, Debug, PartialEq, Eq)]
pub enum ServeError {
    /// Memory ran out.
    OutOfMemory,
    /// A block of a file that was to be granted could not be read.
    Refused(DiskRefusal),
}

impl From<Oom> for ServeError {
    ghost from_gives = { λ _ error. error ≡ OutOfMemory };

    fn from(_error: Oom) -> ServeError {
        ServeError::OutOfMemory
    }
}

impl From<AllocError> for ServeError {
    ghost from_gives = { λ _ error. error ≡ OutOfMemory };

    fn from(_error: AllocError) -> ServeError {
        ServeError::OutOfMemory
    }
}

impl From<DiskRefusal> for ServeError {
    ghost from_gives = { λ refusal error. error ≡ Refused refusal };

    fn from(refusal: DiskRefusal) -> ServeError {
        ServeError::Refused(refusal)
    }
}
