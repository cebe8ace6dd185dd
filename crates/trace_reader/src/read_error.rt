ghost use Rattle.std.specs.Prelude.{◌≡◌};
ghost use Rattle.trace_reader.specs.declared.read_error.ReadTraceError.TheVariants.{OutOfMemory};

use cal_base::Oom;

/// Why no run was read.
#[derive(Clone, Copy, Debug, PartialEq, Eq)]
pub enum ReadTraceError {
    /// The text is the text of no run.
    BadTrace,
    OutOfMemory,
}

impl From<Oom> for ReadTraceError {
    ghost from_gives = { λ _ e. e ≡ OutOfMemory };

    fn from(_error: Oom) -> ReadTraceError {
        ReadTraceError::OutOfMemory
    }
}
