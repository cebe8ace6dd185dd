ghost use Rattle.std.specs.Prelude.{◌≡◌, ◌+◌, ◌↔◌, IsTrue, length, map, IfOk, IfErr};
ghost use Rattle.run_status.specs.Printing.{Held};
ghost use Rattle.run_status.specs.Taking.{Left};
ghost use Rattle.judge_run.specs.Judged.{EndsSo, IsJudgeCommand};
ghost use Rattle.judge_run.specs.Passing.{FindsVerdict, IsBounded, IsReady, TakesNext, TellsVerdict, WhyUnjudged};

use crate::long_line::{LongLine, judge_long_line};
use crate::pieces::{JudgeError, PIECE_BYTES, read_piece};
use crate::text_judge::{PieceEnd, TextJudge};
use crate::verdict::{Verdict, status_of_verdict, verdict_text};
use cal_base::{Oom, Sink, Source};
use run_status::{Status, print, status_of};
use std::alloc::Global;

/// Judges the text that the source has, with the one word `judge`: whether all its lines are good and fit
/// to a history, or which is the first with which they don't.
///
/// The text is read in pieces of 65,536 bytes, up to its end or the piece that settles the verdict. What
/// each status means is said by cases in specs/Judged.antt; want of memory is the one cause that no clause
/// ties to anything, and nothing is printed then.
pub fn run_judge<S: Source, K: Sink>(
    alloc: Global,
    words: &[&str],
    source: &mut S,
    sink: &mut K,
) -> Status
    ensures ends { EndsSo (map (λ word. word.now) words.now) (record { left = S.left source.old; held = K.held sink.old; source_faults = S.fault_count source.old; sink_faults = K.fault_count sink.old }) (record { left = S.left source.new; held = K.held sink.new; source_faults = S.fault_count source.new; sink_faults = K.fault_count sink.new }) result }
{
    if !is_judge_command(words) {
        return match print(sink, b"Usage\n") {
            Ok(()) => Status::Usage,
            Err(error) => status_of(error),
        };
    }
    match judge_text(alloc, source) {
        Ok(verdict) => tell_verdict(alloc, sink, verdict),
        Err(JudgeError::ReadFault) => match print(sink, b"ReadFault\n") {
            Ok(()) => Status::ReadFault,
            Err(error) => status_of(error),
        },
        Err(JudgeError::OutOfMemory) => Status::OutOfMemory,
    }
}

/// Whether the words are the one word `judge`.
fn is_judge_command(words: &[&str]) -> bool
    ensures { IsTrue result ↔ IsJudgeCommand (map (λ word. word.now) words.now) }
{
    match words {
        [word] => *word == "judge",
        [] | [_, _, ..] => false,
    }
}

/// Tells a verdict.
fn tell_verdict<K: Sink>(alloc: Global, sink: &mut K, verdict: Verdict) -> Status
    ensures { TellsVerdict verdict (record { held = K.held sink.old; faults = K.fault_count sink.old }) result (record { held = K.held sink.new; faults = K.fault_count sink.new }) }
{
    let Ok(text) = verdict_text(alloc, verdict) else {
        return Status::OutOfMemory;
    };
    match print(sink, text.as_slice()) {
        Ok(()) => status_of_verdict(verdict),
        Err(error) => status_of(error),
    }
}

/// Judges the text of a source.
fn judge_text<S: Source>(alloc: Global, source: &mut S) -> Result<Verdict, JudgeError>
    ensures ok { IfOk result (FindsVerdict (record { left = S.left source.old; faults = S.fault_count source.old }) (record { left = S.left source.new; faults = S.fault_count source.new })) }
    ensures err { IfErr result (WhyUnjudged (record { left = S.left source.old; faults = S.fault_count source.old }) (record { left = S.left source.new; faults = S.fault_count source.new })) }
{
    let mut piece = new_piece(alloc)?;
    judge_pieces(alloc, source, piece.as_mut_slice())
}

/// Judges the text of a source, with room for one piece of it.
fn judge_pieces<S: Source>(
    alloc: Global,
    source: &mut S,
    piece: &mut [u8],
) -> Result<Verdict, JudgeError>
    requires room { length piece.old ≡ 65536 }
    ensures ok { IfOk result (FindsVerdict (record { left = S.left source.old; faults = S.fault_count source.old }) (record { left = S.left source.new; faults = S.fault_count source.new })) }
    ensures err { IfErr result (WhyUnjudged (record { left = S.left source.old; faults = S.fault_count source.old }) (record { left = S.left source.new; faults = S.fault_count source.new })) }
{
    let mut judge = TextJudge::new(alloc)?;
    for _ in 0..u64::MAX {
        match take_next(alloc, source, &mut judge, piece) {
            Ok(None) => return Ok(judge.end()),
            Ok(Some(PieceEnd::GoesOn)) => {}
            Ok(Some(PieceEnd::Finds(verdict))) => return Ok(verdict),
            Ok(Some(PieceEnd::TooLong(length))) => {
                let line = long_line(&judge, length);
                return judge_long_line(source, piece, line);
            }
            Err(error) => return Err(error),
        }
    }
    Err(JudgeError::OutOfMemory)
}

/// Reads the next piece of the text, and takes it; nothing at the end of the source.
fn take_next<S: Source>(
    alloc: Global,
    source: &mut S,
    judge: &mut TextJudge,
    piece: &mut [u8],
) -> Result<Option<PieceEnd>, JudgeError>
    requires room { length piece.old ≡ 65536 }
    requires ready { IsReady judge.old }
    ensures ok { IfOk result (λ next. TakesNext (record { left = S.left source.old; faults = S.fault_count source.old }) judge.old next judge.new (record { left = S.left source.new; faults = S.fault_count source.new })) }
    ensures err { IfErr result (WhyUnjudged (record { left = S.left source.old; faults = S.fault_count source.old }) (record { left = S.left source.new; faults = S.fault_count source.new })) }
{
    let count = match read_piece(source, piece) {
        Ok(count) => count,
        Err(error) => return Err(error),
    };
    if count == 0 {
        return Ok(None);
    }
    match judge.take_piece(alloc, &piece[..count]) {
        Ok(end) => Ok(Some(end)),
        Err(Oom) => Err(JudgeError::OutOfMemory),
    }
}

/// Room for a piece.
fn new_piece(alloc: Global) -> Result<Vec<u8>, Oom>
    ensures { IfOk result (λ piece. length piece.items ≡ 65536) }
{
    Ok(vec![in alloc; 0; PIECE_BYTES]?)
}

/// The line of this length that was begun.
fn long_line(judge: &TextJudge, length: u64) -> LongLine
    requires { IsBounded judge.now.judging }
    ensures { result ≡ record { number = judge.now.judging.counts.lines + 1; before = judge.now.judging.before; length = length } }
{
    LongLine {
        number: judge.judging.next_number(),
        before: judge.judging.before(),
        length,
    }
}
