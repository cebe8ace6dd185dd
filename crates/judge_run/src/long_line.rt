ghost use Rattle.std.specs.Prelude.{◌≡◌, ◌≤◌, ◌+◌, length, IfOk, IfErr};
ghost use Rattle.run_status.specs.Taking.{Left};
ghost use Rattle.judge_run.specs.Passing.{FindsLong, GoesOnLong, WhyUnjudged};

use crate::judging::TEXT_BYTES;
use crate::pieces::{JudgeError, read_piece};
use crate::verdict::{BadTextWhy, Verdict};
use cal_base::{Source, cut_at};

/// A line that is too long, as far as it was read.
#[derive(Clone, Copy, Debug, PartialEq, Eq)]
pub struct LongLine {
    /// Its number, from 1.
    pub number: u64,
    /// How many bytes of the text stand before it.
    pub before: u64,
    /// How many bytes it has so far.
    pub length: u64,
}

/// Reads on in a line that is too long, until it is known whether the text is too big within it: to its
/// line feed, to the byte behind the limit of a text, or to the end of the source.
pub(crate) fn judge_long_line<S: Source>(
    source: &mut S,
    piece: &mut [u8],
    line: LongLine,
) -> Result<Verdict, JudgeError>
    requires room { length piece.old ≡ 65536 }
    requires bounded { line.before + line.length ≤ 17179869184 }
    ensures ok { IfOk result (FindsLong (record { left = S.left source.old; faults = S.fault_count source.old }) line (record { left = S.left source.new; faults = S.fault_count source.new })) }
    ensures err { IfErr result (WhyUnjudged (record { left = S.left source.old; faults = S.fault_count source.old }) (record { left = S.left source.new; faults = S.fault_count source.new })) }
{
    let mut line = line;
    for _ in 0..u64::MAX {
        let count = match read_piece(source, piece) {
            Ok(count) => count,
            Err(error) => return Err(error),
        };
        if count == 0 {
            return Ok(Verdict::Bad(line.number, BadTextWhy::Long));
        }
        match go_on(&mut line, &piece[..count]) {
            Some(why) => return Ok(Verdict::Bad(line.number, why)),
            None => {}
        }
    }
    Err(JudgeError::OutOfMemory)
}

/// Goes on with a piece in a line that is too long, and answers why it is bad if that is settled.
fn go_on(line: &mut LongLine, piece: &[u8]) -> Option<BadTextWhy>
    requires bounded { line.old.before + line.old.length ≤ 17179869184 }
    requires short { length piece.now ≤ 65536 }
    ensures { GoesOnLong line.old piece.now result line.new }
{
    let (front, behind) = cut_at(piece, b'\n');
    line.length += front.len() as u64;
    let through = line.before + line.length;
    match behind {
        Some(_) if through < TEXT_BYTES => Some(BadTextWhy::Long),
        Some(_) => Some(BadTextWhy::Big),
        None if through > TEXT_BYTES => Some(BadTextWhy::Big),
        None => None,
    }
}
