ghost use Rattle.std.specs.Prelude.{◌≡◌, ◌<◌, length, IfOk, IfErr};
ghost use Rattle.run_status.specs.Taking.{Left};
ghost use Rattle.judge_run.specs.Passing.{TakesPiece, WhyUnjudged};
ghost use Rattle.judge_run.specs.declared.pieces.JudgeError.TheVariants.{OutOfMemory};

use cal_base::{Failed, Oom, Source};

/// Bytes that are read at a time.
pub(crate) const PIECE_BYTES: usize = 65_536;

/// Why a text was not judged.
#[derive(Clone, Copy, Debug, PartialEq, Eq)]
pub enum JudgeError {
    /// The source failed.
    ReadFault,
    OutOfMemory,
}

impl From<Oom> for JudgeError {
    ghost from_gives = { λ _ e. e ≡ OutOfMemory };

    fn from(_error: Oom) -> JudgeError {
        JudgeError::OutOfMemory
    }
}

/// Reads the next piece of a text, and answers how long it is: 0 at the end of the source.
pub(crate) fn read_piece<S: Source>(source: &mut S, piece: &mut [u8]) -> Result<usize, JudgeError>
    requires { 0 < length piece.old }
    ensures ok { IfOk result (λ count. TakesPiece (record { left = S.left source.old; faults = S.fault_count source.old }) piece.new count (record { left = S.left source.new; faults = S.fault_count source.new })) }
    ensures err { IfErr result (WhyUnjudged (record { left = S.left source.old; faults = S.fault_count source.old }) (record { left = S.left source.new; faults = S.fault_count source.new })) }
{
    match source.read(piece) {
        Ok(count) => Ok(count),
        Err(Failed) => Err(JudgeError::ReadFault),
    }
}
