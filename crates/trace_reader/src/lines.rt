ghost use Rattle.std.specs.Prelude.{◌≡◌, OnOk};
ghost use Rattle.trace_lines.specs.Lines.{IsTraceLine, line_text};
ghost use Rattle.trace_lines.specs.declared.line.TraceLine.{TraceLine};
ghost use Rattle.trace_reader.specs.Outcome.{Leads};
ghost use Rattle.trace_reader.specs.Taking.{Takes};
ghost use Rattle.trace_reader.specs.Whole.{Awaits, IsSound, is_end, lines_left};
ghost use Rattle.trace_reader.specs.declared.reading.Reading.{Reading};

use crate::read_error::ReadTraceError;
use crate::reading::Reading;
use cal_base::cut_at;
use line_words::ReadWordsError;
use std::alloc::Global;
use trace_lines::read_trace_line;

/// Whether a line tells that the run is over.
fn is_end(line: &[u8]) -> bool
    ensures { result ≡ is_end line.now }
{
    let word = &line[..line.len().min(3)];
    word == b"end".as_slice()
}

/// Reads a line, and takes it.
fn read_line(alloc: Global, reading: &mut Reading, text: &[u8]) -> Result<(), ReadTraceError>
    ensures sound { IsSound reading.old → OnOk result (IsSound reading.new) }
    ensures again { (line : TraceLine) (next : Reading) → IsTraceLine line → line_text line ≡ text.now → Takes reading.old line next → Leads next reading.new result }
{
    match read_trace_line(alloc, text) {
        Ok(line) => reading.take(alloc, line),
        Err(ReadWordsError::Form) => Err(ReadTraceError::BadTrace),
        Err(ReadWordsError::OutOfMemory) => Err(ReadTraceError::OutOfMemory),
    }
}

/// Reads lines, and takes them, up to the one that tells that the run is over.
pub(crate) fn read_lines(
    alloc: Global,
    reading: &mut Reading,
    text: Option<&[u8]>,
) -> Result<(), ReadTraceError>
    ensures sound { IsSound reading.old → OnOk result (IsSound reading.new) }
    ensures again { (last : Reading) → Awaits (lines_left text.entry) reading.old last → Leads last reading.new result }
{
    let mut rest = text;
    loop {
        let Some(left) = rest else {
            return Err(ReadTraceError::BadTrace);
        };
        let (line, behind) = cut_at(left, b'\n');
        if is_end(line) {
            return Ok(());
        }
        match read_line(alloc, reading, line) {
            Ok(()) => rest = behind,
            Err(error) => return Err(error),
        }
    }
}
