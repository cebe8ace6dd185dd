ghost use Rattle.std.specs.Prelude.{◌≡◌};
ghost use Rattle.std.specs.List.{list_all};
ghost use Rattle.script.specs.Outcome.{Answers};
ghost use Rattle.script.specs.Reasons.{is_plain, fits, is_comment, text_said, line_said};

use crate::bad_line::BadWhy;
use crate::command_line::{read_first, read_words};
use crate::read_error::ReadLineError;
use crate::script::Said;
use cal_base::{LINE_BYTES, SCRIPT_BYTES, SCRIPT_LINES};
use std::alloc::Global;

fn is_plain(byte: u8) -> bool
    ensures { result ≡ is_plain byte }
{
    byte >= b' ' && byte <= b'~'
}

/// Whether all bytes are graphic ASCII or space.
fn are_plain(text: &[u8]) -> bool
    ensures { result ≡ list_all is_plain text.now }
{
    text.iter().all(|byte| is_plain(*byte))
}

/// Whether a line begins with `#`.
fn is_comment(text: &[u8]) -> bool
    ensures { result ≡ is_comment text.now }
{
    match text {
        [byte, ..] => *byte == b'#',
        [] => false,
    }
}

/// A line with this number, which ends after so many bytes of the script.
#[derive(Clone, Copy)]
pub(crate) struct PlacedLine<'a> {
    pub(crate) number: u32,
    pub(crate) through: usize,
    pub(crate) text: &'a [u8],
}

/// Whether a line is within the limits of a script and has plain bytes alone, or why not.
fn fits(line: PlacedLine<'_>) -> Result<(), BadWhy>
    ensures { result ≡ fits (record { number = line.entry.number; through = line.entry.through; text = line.entry.text.now }) }
{
    if line.through > SCRIPT_BYTES {
        Err(BadWhy::Big)
    } else if line.number as usize > SCRIPT_LINES {
        Err(BadWhy::Many)
    } else if line.text.len() > LINE_BYTES {
        Err(BadWhy::Long)
    } else if are_plain(line.text) {
        Ok(())
    } else {
        Err(BadWhy::Byte)
    }
}

/// What a text says as the line of this number.
fn read_text(alloc: Global, number: u32, text: &[u8]) -> Result<Said, ReadLineError>
    ensures { Answers (text_said number text.now) result }
{
    if number == 1 {
        return Ok(read_first(text)?);
    }
    if is_comment(text) {
        return Ok(Said::Nothing);
    }
    read_words(alloc, number, text)
}

/// What a line says.
pub(crate) fn read_placed(alloc: Global, line: PlacedLine<'_>) -> Result<Said, ReadLineError>
    ensures { Answers (line_said (record { number = line.entry.number; through = line.entry.through; text = line.entry.text.now })) result }
{
    fits(line)?;
    read_text(alloc, line.number, line.text)
}
