ghost use Rattle.std.specs.Prelude.{◌≡◌, Option, Some};
ghost use Rattle.line_words.specs.Outcome.{Answers};
ghost use Rattle.text_lines.specs.Telling.{is_start, start_told, call_entry_told, flush_told, purge_told, entry_told, answer_told, tells, step_told, is_passed_over, words_told, told_in};
ghost use Rattle.line_words.specs.Words.{words, words_left};

use crate::places::{first_new_ino, last_ino};
use crate::replies::read_reply;
use history_check::Told;
use line_words::{
    ReadWordsError, behind_word, first_client, first_number, last_client, next_word, read_call_of,
};
use std::alloc::Global;

/// Whether the third word is `start`.
fn is_start(left: Option<&[u8]>) -> bool
    ensures { result ≡ is_start (words_left left.entry) }
{
    let Some((_, behind)) = next_word(left) else {
        return false;
    };
    let Some((_, behind)) = next_word(behind) else {
        return false;
    };
    match next_word(behind) {
        Some((event, _)) => event == b"start".as_slice(),
        None => false,
    }
}

/// Reads `I cX start N CALL`.
fn read_start(alloc: Global, left: Option<&[u8]>) -> Result<Told, ReadWordsError>
    ensures { Answers (start_told (words_left left.entry)) result }
{
    let (_, behind) = first_number(left)?;
    let (client, behind) = first_client(behind)?;
    let behind = behind_word(b"start", behind)?;
    let (number, behind) = first_number(behind)?;
    let call = read_call_of(alloc, behind)?;
    Ok(Told::Starts {
        client,
        number,
        call,
    })
}

/// Reads `cX N new I reply R`.
fn read_call_entry(alloc: Global, left: Option<&[u8]>) -> Result<Told, ReadWordsError>
    ensures { Answers (call_entry_told (words_left left.entry)) result }
{
    let (client, behind) = first_client(left)?;
    let (number, behind) = first_number(behind)?;
    let behind = behind_word(b"new", behind)?;
    let (new_ino, behind) = first_new_ino(behind)?;
    let behind = behind_word(b"reply", behind)?;
    let reply = read_reply(alloc, behind)?;
    Ok(Told::Enters {
        client,
        number,
        new_ino,
        reply,
    })
}

/// Reads `cX I`.
fn read_flush(left: Option<&[u8]>) -> Result<Told, ReadWordsError>
    ensures { Answers (flush_told (words_left left.entry)) result }
{
    let (client, behind) = first_client(left)?;
    let ino = last_ino(behind)?;
    Ok(Told::Flushes { client, ino })
}

/// Reads `cX`.
fn read_purge(left: Option<&[u8]>) -> Result<Told, ReadWordsError>
    ensures { Answers (purge_told (words_left left.entry)) result }
{
    let client = last_client(left)?;
    Ok(Told::Purges { client })
}

/// Reads an entry of a call, a flush or a purge.
fn read_entry(alloc: Global, left: Option<&[u8]>) -> Result<Told, ReadWordsError>
    ensures { Answers (entry_told (words_left left.entry)) result }
{
    let Some((kind, behind)) = next_word(left) else {
        return Err(ReadWordsError::Form);
    };
    if kind == b"call".as_slice() {
        read_call_entry(alloc, behind)
    } else if kind == b"flush".as_slice() {
        read_flush(behind)
    } else if kind == b"purge".as_slice() {
        read_purge(behind)
    } else {
        Err(ReadWordsError::Form)
    }
}

/// Reads `cX N R`.
fn read_answer(alloc: Global, left: Option<&[u8]>) -> Result<Told, ReadWordsError>
    ensures { Answers (answer_told (words_left left.entry)) result }
{
    let (client, behind) = first_client(left)?;
    let (number, behind) = first_number(behind)?;
    let reply = read_reply(alloc, behind)?;
    Ok(Told::Answers {
        client,
        number,
        reply,
    })
}

fn read_step(alloc: Global, left: Option<&[u8]>) -> Result<Option<Told>, ReadWordsError>
    ensures { Answers (step_told (words_left left.entry)) result }
{
    if !is_start(left) {
        return Ok(None);
    }
    let told = read_start(alloc, left)?;
    Ok(Some(told))
}

fn tells_entry(alloc: Global, left: Option<&[u8]>) -> Result<Option<Told>, ReadWordsError>
    ensures { Answers (tells (entry_told (words_left left.entry))) result }
{
    let told = read_entry(alloc, left)?;
    Ok(Some(told))
}

fn tells_answer(alloc: Global, left: Option<&[u8]>) -> Result<Option<Told>, ReadWordsError>
    ensures { Answers (tells (answer_told (words_left left.entry))) result }
{
    let told = read_answer(alloc, left)?;
    Ok(Some(told))
}

/// Whether a line with this first word tells nothing of the history.
fn is_passed_over(word: &[u8]) -> bool
    ensures { result ≡ is_passed_over word.now }
{
    word == b"write".as_slice()
        || word == b"send".as_slice()
        || word == b"sync".as_slice()
        || word == b"head".as_slice()
        || word == b"halt".as_slice()
        || word == b"refused".as_slice()
        || word == b"settled".as_slice()
        || word == b"chose".as_slice()
        || word == b"run".as_slice()
        || word == b"end".as_slice()
}

/// Reads a line, without its line feed: what it tells of the history, or nothing where it tells of
/// something else. Starts of calls, entries and answers are read whole, with one space between each two
/// words. Any other line of a text is passed over by its first word alone, or, where it is a step, by its
/// first four.
///
/// A reply is handed on as it is written. It is in its form where some call can be answered so, with any
/// numbers: whether it fits its call isn't looked at.
#[tactic(auto, unfolding(crate::specs::Telling::told_in))]
pub fn read_told(alloc: Global, line: &[u8]) -> Result<Option<Told>, ReadWordsError>
    ensures { Answers (told_in line.now) result }
{
    let Some((word, behind)) = next_word(Some(line)) else {
        return Err(ReadWordsError::Form);
    };
    if word == b"step".as_slice() {
        read_step(alloc, behind)
    } else if word == b"entry".as_slice() {
        tells_entry(alloc, behind)
    } else if word == b"ans".as_slice() {
        tells_answer(alloc, behind)
    } else if is_passed_over(word) {
        Ok(None)
    } else {
        Err(ReadWordsError::Form)
    }
}
