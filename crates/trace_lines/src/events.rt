ghost use Rattle.std.specs.Prelude.{◌≡◌};
ghost use Rattle.trace_lines.specs.Events.{armed_in, stop_in, start_in, deliver_in, tick_in, crash_in, view_in, gone_in, write_back_in, event_in};
ghost use Rattle.line_words.specs.Outcome.{Answers};
ghost use Rattle.line_words.specs.Words.{words_left};

use crate::line::StepEvent;
use crate::places::descriptor_of;
use crate::sectors::torn_of;
use crate::words::{first_number32, first_view, one_word};
use line_words::{ReadWordsError, client_of, first_number, next_word, read_call_of};
use shared_disk::Stop;
use std::alloc::Global;

/// Reads `K HOW`.
fn read_armed(alloc: Global, left: Option<&[u8]>) -> Result<Option<Stop>, ReadWordsError>
    ensures { Answers (armed_in (words_left left.entry)) result }
{
    let (after, behind) = first_number32(left)?;
    let word = one_word(behind)?;
    let torn = torn_of(alloc, word)?;
    Ok(Some(Stop { after, torn }))
}

/// Reads `stop K HOW`, or nothing.
fn read_stop(alloc: Global, left: Option<&[u8]>) -> Result<Option<Stop>, ReadWordsError>
    ensures { Answers (stop_in (words_left left.entry)) result }
{
    let Some((word, behind)) = next_word(left) else {
        return Ok(None);
    };
    if word == b"stop".as_slice() {
        read_armed(alloc, behind)
    } else {
        Err(ReadWordsError::Form)
    }
}

/// Reads `N CALL`.
fn read_start(alloc: Global, left: Option<&[u8]>) -> Result<StepEvent, ReadWordsError>
    ensures { Answers (start_in (words_left left.entry)) result }
{
    let (number, behind) = first_number(left)?;
    let call = read_call_of(alloc, behind)?;
    Ok(StepEvent::Start { number, call })
}

/// Reads `P STOP`.
fn read_deliver(alloc: Global, left: Option<&[u8]>) -> Result<StepEvent, ReadWordsError>
    ensures { Answers (deliver_in (words_left left.entry)) result }
{
    let (packet, behind) = first_number(left)?;
    let stop = read_stop(alloc, behind)?;
    Ok(StepEvent::Deliver { packet, stop })
}

/// Reads `STOP`.
fn read_tick(alloc: Global, left: Option<&[u8]>) -> Result<StepEvent, ReadWordsError>
    ensures { Answers (tick_in (words_left left.entry)) result }
{
    let stop = read_stop(alloc, left)?;
    Ok(StepEvent::Tick { stop })
}

/// Reads the end of a line.
fn read_crash(left: Option<&[u8]>) -> Result<StepEvent, ReadWordsError>
    ensures { Answers (crash_in (words_left left.entry)) result }
{
    match next_word(left) {
        None => Ok(StepEvent::Crash),
        Some(_) => Err(ReadWordsError::Form),
    }
}

/// Reads `V STOP`.
fn read_view(alloc: Global, left: Option<&[u8]>) -> Result<StepEvent, ReadWordsError>
    ensures { Answers (view_in (words_left left.entry)) result }
{
    let (view, behind) = first_view(left)?;
    let stop = read_stop(alloc, behind)?;
    Ok(StepEvent::NewView { view, stop })
}

/// Reads `cX`.
fn read_gone(left: Option<&[u8]>) -> Result<StepEvent, ReadWordsError>
    ensures { Answers (gone_in (words_left left.entry)) result }
{
    let word = one_word(left)?;
    let client = client_of(word)?;
    Ok(StepEvent::Gone { client })
}

/// Reads `F`.
fn read_write_back(left: Option<&[u8]>) -> Result<StepEvent, ReadWordsError>
    ensures { Answers (write_back_in (words_left left.entry)) result }
{
    let word = one_word(left)?;
    let fd = descriptor_of(word)?;
    Ok(StepEvent::WriteBack { fd })
}

/// Reads an event, by its first word.
pub(crate) fn read_event(alloc: Global, left: Option<&[u8]>) -> Result<StepEvent, ReadWordsError>
    ensures { Answers (event_in (words_left left.entry)) result }
{
    let Some((word, behind)) = next_word(left) else {
        return Err(ReadWordsError::Form);
    };
    if word == b"start".as_slice() {
        read_start(alloc, behind)
    } else if word == b"deliver".as_slice() {
        read_deliver(alloc, behind)
    } else if word == b"tick".as_slice() {
        read_tick(alloc, behind)
    } else if word == b"crash".as_slice() {
        read_crash(behind)
    } else if word == b"view".as_slice() {
        read_view(alloc, behind)
    } else if word == b"gone".as_slice() {
        read_gone(behind)
    } else if word == b"writeback".as_slice() {
        read_write_back(behind)
    } else {
        Err(ReadWordsError::Form)
    }
}
