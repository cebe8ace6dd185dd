ghost use Rattle.std.specs.Prelude.{◌≡◌};
ghost use Rattle.message.specs.declared.stop.Stop.TheVariants.{OutOfMemory};

use cal_base::Oom;
use std::alloc::{AllocError, AllocFailed};

/// Why reading ended before the message did.
#[derive(Clone, Copy, Debug)]
pub enum Stop {
    OutOfMemory,
    /// A field is outside the grammar. So many bytes stand from its first byte to the end, none where
    /// bytes are missing.
    Outside { left: usize },
}

impl From<Oom> for Stop {
    ghost from_gives = { λ _ e. e ≡ OutOfMemory };

    fn from(_error: Oom) -> Stop {
        Stop::OutOfMemory
    }
}

impl From<AllocError> for Stop {
    ghost from_gives = { λ _ e. e ≡ OutOfMemory };

    fn from(_error: AllocError) -> Stop {
        Stop::OutOfMemory
    }
}

impl<T: Drop> From<AllocFailed<T>> for Stop {
    ghost from_gives = { λ _ e. e ≡ OutOfMemory };

    fn from(_error: AllocFailed<T>) -> Stop {
        Stop::OutOfMemory
    }
}
