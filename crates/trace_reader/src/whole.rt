ghost use Rattle.std.specs.Prelude.{◌≡◌, ℕ, IfOk};
ghost use Rattle.trace_text.specs.Runs.{run_line};
ghost use Rattle.trace_lines.specs.Limits.{IsRun};
ghost use Rattle.run_trace.specs.Past.{start};
ghost use Rattle.run_trace.specs.Texts.{text_of};
ghost use Rattle.run_trace.specs.Traces.{AreItems, IsTrace};
ghost use Rattle.run_trace.specs.declared.trace.Trace.{Trace};
ghost use Rattle.trace_reader.specs.Outcome.{GivesTrace};
ghost use Rattle.trace_reader.specs.Whole.{Awaits, IsLoose, lines_left};
ghost use Rattle.trace_reader.specs.Adding.{closed, nothing};
ghost use Rattle.trace_reader.specs.declared.reading.Reading.{Reading};

use crate::lines::read_lines;
use crate::read_error::ReadTraceError;
use crate::reading::Reading;
use crate::totals::check_totals;
use cal_base::{Items, cut_at};
use run_trace::{Trace, TraceItem, write_trace};
use std::alloc::Global;
use trace_lines::read_run_line;

/// Reads the first line of a text: how many clients there are, and how many a server asks at a time.
fn read_first(text: &[u8]) -> Result<(u8, u8), ReadTraceError>
    ensures is { IfOk result IsRun }
    ensures again { (run : ℕ × ℕ) → IsRun run → run_line run.0 run.1 ≡ text.now → GivesTrace run result }
{
    match read_run_line(text) {
        Some(run) => Ok(run),
        None => Err(ReadTraceError::BadTrace),
    }
}

/// Reads the lines behind the first: the items.
fn read_items(alloc: Global, text: Option<&[u8]>) -> Result<Items<TraceItem>, ReadTraceError>
    ensures is { IfOk result (λ items. AreItems start items) }
    ensures again { (last : Reading) → Awaits (lines_left text.entry) nothing last → GivesTrace (closed last) result }
{
    let mut reading = Reading::new(alloc)?;
    match read_lines(alloc, &mut reading, text) {
        Ok(()) => {
            let items = reading.finish()?;
            Ok(items)
        }
        Err(error) => Err(error),
    }
}

/// Reads a text as the run that has it, if a run has it.
fn read_loosely(alloc: Global, text: &[u8]) -> Result<Trace, ReadTraceError>
    ensures is { IfOk result (λ trace. IsLoose trace) }
    ensures again { (trace : Trace) → IsTrace trace → text_of trace ≡ text.now → GivesTrace trace result }
{
    let (first, behind) = cut_at(text, b'\n');
    match read_first(first) {
        Ok((clients, window)) => match read_items(alloc, behind) {
            Ok(items) => Ok(Trace {
                clients,
                window,
                items,
            }),
            Err(error) => Err(error),
        },
        Err(error) => Err(error),
    }
}

/// Reads the whole text of a run. It gives the run that has this text, which is one run alone, and `BadTrace`
/// exactly where no run has it. The time is linear in the text and in the calls that its entries and answers
/// stand for, and the memory twice the text beside the run.
pub fn read_trace(alloc: Global, text: &[u8]) -> Result<Trace, ReadTraceError>
    ensures is { IfOk result (λ trace. IsTrace trace × (text_of trace ≡ text.now)) }
    ensures again { (trace : Trace) → IsTrace trace → text_of trace ≡ text.now → GivesTrace trace result }
{
    let trace = read_loosely(alloc, text)?;
    check_totals(trace.items.as_slice())?;
    let written = write_trace(alloc, &trace)?;
    if written.as_slice() == text {
        Ok(trace)
    } else {
        Err(ReadTraceError::BadTrace)
    }
}
