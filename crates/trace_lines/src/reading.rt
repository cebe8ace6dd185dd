ghost use Rattle.std.specs.Prelude.{◌≡◌, ℕ, IfOk, IfSome};
ghost use Rattle.script.specs.Spelling.{IsWide};
ghost use Rattle.trace_text.specs.Runs.{end_line, run_line};
ghost use Rattle.trace_lines.specs.Limits.{IsRun};
ghost use Rattle.trace_lines.specs.Lines.{IsTraceLine, line_text};
ghost use Rattle.trace_lines.specs.Reading.{Gives};
ghost use Rattle.trace_lines.specs.declared.line.TraceLine.{TraceLine};

use crate::line::TraceLine;
use crate::lines::{read_end, read_line, read_run};
use line_words::ReadWordsError;
use std::alloc::Global;

/// Reads a line of a run, without its line feed, but for the first and the last. What is read is within
/// its limits, and the line of each value within these limits is read as this value.
pub fn read_trace_line(alloc: Global, text: &[u8]) -> Result<TraceLine, ReadWordsError>
    ensures is { IfOk result IsTraceLine }
    ensures again { (line : TraceLine) → IsTraceLine line → line_text line ≡ text.now → Gives line result }
{
    read_line(alloc, text)
}

/// Reads the first line of a run, without its line feed: how many clients there are, 1 to 16, and how
/// many of them a server asks at a time after a takeover, 1 to 8. None where it is no such line.
pub fn read_run_line(text: &[u8]) -> Option<(u8, u8)>
    ensures is { IfSome result IsRun }
    ensures again { (run : ℕ × ℕ) → IsRun run → run_line run.0 run.1 ≡ text.now → result ≡ Some run }
{
    match read_run(Some(text)) {
        Ok(run) => Some(run),
        Err(_) => None,
    }
}

/// Reads the last line of a run, without its line feed: how many steps there were. None where it is no
/// such line.
pub fn read_end_line(text: &[u8]) -> Option<u64>
    ensures is { IfSome result IsWide }
    ensures again { (steps : ℕ) → IsWide steps → end_line steps ≡ text.now → result ≡ Some steps }
{
    match read_end(Some(text)) {
        Ok(steps) => Some(steps),
        Err(_) => None,
    }
}
