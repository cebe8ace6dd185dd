ghost use Rattle.std.specs.Prelude.{◌≡◌, ◌+◌, ◌<◌, ◌≤◌, ◌^◌, ◌∷◌, ◌==◌, ◌++◌, [], length, Ok, IfOk, IfErr, OnOk, All};
ghost use Rattle.script.specs.Lines.{lines_of, numbered, parts_of};
ghost use Rattle.script.specs.Outcome.{Answers};
ghost use Rattle.script.specs.Reasons.{IsGood, line_said};
ghost use Rattle.script.specs.Script.{IsScript, IsSpelledScript, WhyNotRead, WhyBad, with_said, with_lines, no_lines};
ghost use Rattle.std.specs.List.{slice_split};
ghost use Rattle.std.specs.Option.{option_map_or};
ghost use Rattle.script.specs.declared.reading.ReadScriptError.TheVariants.{OutOfMemory};

use crate::bad_line::BadLine;
use crate::line_check::{PlacedLine, read_placed};
use crate::read_error::ReadLineError;
use crate::script::{Line, Said, Script};
use cal_base::{DEFAULT_WINDOW, Items, Oom, cut_at};
use std::alloc::Global;

/// Why bytes were not read as a script.
#[derive(Clone, Copy, Debug, PartialEq, Eq)]
pub enum ReadScriptError {
    /// The first bad line, with its first reason.
    BadLine(BadLine),
    OutOfMemory,
}

impl From<Oom> for ReadScriptError {
    ghost from_gives = { λ _ e. e ≡ OutOfMemory };

    fn from(_error: Oom) -> ReadScriptError {
        ReadScriptError::OutOfMemory
    }
}

/// Reads one line by itself: the line of this number, from 1, that ends after so many bytes of its
/// script, its line feed included. A line that isn't read is bad for the first reason.
pub fn read_line(
    alloc: Global,
    number: u32,
    through: usize,
    text: &[u8],
) -> Result<Said, ReadLineError>
    ensures { Answers (line_said (record { number = number; through = through; text = text.now })) result }
{
    read_placed(
        alloc,
        PlacedLine {
            number,
            through,
            text,
        },
    )
}

/// Reads a script: its lines up to 65,536 of at most 70,000 bytes each, `clients N` as the first, maybe
/// `window K` as the second, and then calls of clients, commands, comments and lines without words. What
/// is read is the script of these bytes; else the first bad line is told, with the first reason that
/// applies to it.
pub fn read_script(alloc: Global, bytes: &[u8]) -> Result<Script, ReadScriptError>
    ensures ok { IfOk result (IsScript bytes.now) }
    ensures spelled { IfOk result IsSpelledScript }
    ensures fits { OnOk result (length bytes.now ≤ 67108864) }
    ensures bad { IfErr result (WhyNotRead (lines_of bytes.now)) }
{
    let first = cut_line(bytes);
    let mut script = Script {
        clients: 0,
        window: DEFAULT_WINDOW,
        lines: Items::new(alloc),
    };
    match read_next(alloc, 1, first.taken, first.text) {
        Ok(said) => say(&mut script, 1, said)?,
        Err(error) => return Err(error),
    }
    match read_lines(alloc, script, first.taken, first.rest) {
        Ok(script) => Ok(script),
        Err(error) => Err(error),
    }
}

/// Reads the lines behind the first, which ends after so many bytes.
fn read_lines(
    alloc: Global,
    begun: Script,
    first: usize,
    rest: Option<&[u8]>,
) -> Result<Script, ReadScriptError>
    requires within { first + option_map_or (λ text. length text.now) rest 0 < 2 ^ 64 }
    requires begun { first ≤ 67108864 }
    ensures fits { OnOk result (first + option_map_or (λ text. length text.now) rest.entry 0 ≤ 67108864) }
    ensures good { OnOk result (All IsGood (numbered 2 first (parts_of rest.entry))) }
    ensures ok { IfOk result (λ script. script ≡ with_lines begun (numbered 2 first (parts_of rest.entry))) }
    ensures bad { IfErr result (WhyNotRead (numbered 2 first (parts_of rest.entry))) }
{
    let mut script = begun;
    let mut number = 2u32;
    let mut through = first;
    let mut left = rest;
    loop {
        let Some(text) = left else {
            return Ok(script);
        };
        let line = cut_line(text);
        if line.taken == 0 {
            return Ok(script);
        }
        through += line.taken;
        match read_next(alloc, number, through, line.text) {
            Ok(said) => say(&mut script, number, said)?,
            Err(error) => return Err(error),
        }
        number += 1;
        left = line.rest;
    }
}

/// Adds what a line says to a script.
fn say(script: &mut Script, number: u32, said: Said) -> Result<(), Oom>
    ensures { OnOk result (script.new ≡ with_said script.old number said) }
{
    match said {
        Said::Nothing => Ok(()),
        Said::Clients(clients) => {
            script.clients = clients;
            Ok(())
        }
        Said::Window(window) => {
            script.window = window;
            Ok(())
        }
        Said::Line(line) => put_line(&mut script.lines, number, line),
    }
}

fn put_line(lines: &mut Items<(u32, Line)>, number: u32, line: Line) -> Result<(), Oom>
    ensures { OnOk result (lines.new ≡ lines.old ++ (number, line) ∷ []) }
{
    lines.push((number, line))
}

/// Reads the line of this number, which ends after so many bytes: what it says.
fn read_next(
    alloc: Global,
    number: u32,
    through: usize,
    text: &[u8],
) -> Result<Said, ReadScriptError>
    ensures said { IfOk result (λ said. line_said (record { number = number; through = through; text = text.now }) ≡ Ok said) }
    ensures bad { IfErr result (WhyBad (record { number = number; through = through; text = text.now })) }
{
    let placed = PlacedLine {
        number,
        through,
        text,
    };
    match read_placed(alloc, placed) {
        Ok(said) => Ok(said),
        Err(ReadLineError::Bad(why)) => {
            Err(ReadScriptError::BadLine(BadLine { line: number, why }))
        }
        Err(ReadLineError::OutOfMemory) => Err(ReadScriptError::OutOfMemory),
    }
}

/// A line cut from the front of a text.
#[derive(Clone, Copy)]
struct CutLine<'a> {
    /// The line without its line feed.
    text: &'a [u8],
    /// How many bytes it takes, its line feed included.
    taken: usize,
    /// What stands behind its line feed, if it has one.
    rest: Option<&'a [u8]>,
}

fn cut_line(text: &[u8]) -> CutLine<'_>
    ensures parts { slice_split (λ byte. byte == 10) text.now ≡ result.text.now ∷ parts_of result.rest }
    ensures taken { result.taken ≡ length result.text.now + option_map_or (λ _. 1) result.rest 0 }
    ensures whole { result.taken + option_map_or (λ rest. length rest.now) result.rest 0 ≡ length text.now }
{
    let (line, rest) = cut_at(text, b'\n');
    let taken = match rest {
        Some(_) => line.len() + 1,
        None => line.len(),
    };
    CutLine {
        text: line,
        taken,
        rest,
    }
}
