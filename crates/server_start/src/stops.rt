use cal_base::Oom;
use cluster_law::ServerHalted;
use fence::PortHalt;
use std::alloc::AllocError;

/// Why a server was not made by a format.
#[derive(Clone, Copy, Debug, PartialEq, Eq)]
pub enum FormatError {
    /// Memory ran out; the disk is as it was.
    OutOfMemory,
    /// The disk halted it.
    Halted(PortHalt),
}

impl From<Oom> for FormatError {
    ghost use Rattle.std.specs.Prelude.{◌≡◌};
    ghost use Rattle.server_start.specs.declared.stops.FormatError.TheVariants.{OutOfMemory};

    ghost from_gives = { λ _ e. e ≡ OutOfMemory };

    fn from(oom: Oom) -> FormatError {
        FormatError::OutOfMemory
    }
}

/// Why a server's step did not end well.
#[derive(Debug, Drop)]
pub enum StepError {
    /// Memory ran out; the disk is as it was.
    OutOfMemory,
    /// The server halts.
    Halted(ServerHalted),
}

impl From<Oom> for StepError {
    ghost use Rattle.std.specs.Prelude.{◌≡◌};
    ghost use Rattle.server_start.specs.declared.stops.StepError.TheVariants.{OutOfMemory};

    ghost from_gives = { λ _ e. e ≡ OutOfMemory };

    fn from(oom: Oom) -> StepError {
        StepError::OutOfMemory
    }
}

impl From<AllocError> for StepError {
    ghost use Rattle.std.specs.Prelude.{◌≡◌};
    ghost use Rattle.server_start.specs.declared.stops.StepError.TheVariants.{OutOfMemory};

    ghost from_gives = { λ _ e. e ≡ OutOfMemory };

    fn from(error: AllocError) -> StepError {
        StepError::OutOfMemory
    }
}
