ghost use Rattle.std.specs.Prelude.{◌≡◌, ◌≢◌, Ok, Err, IfOk, MatchResult};
ghost use Rattle.line_words.specs.Outcome.{Answers};
ghost use Rattle.line_words.specs.Words.{words_left, last_as};
ghost use Rattle.reply_words.specs.Telling.{behind_count, byte_of, bytes_of, kind_of, names_of, number32_of, outcome_of, stat_of};

use crate::tells::Tells;
use cal_base::{Blob, NameList, Oom};
use line_words::{OutOfForm, ReadWordsError, next_word, number_to, read_hex};
use std::alloc::Global;
use tree_law::{Reply, is_name};

/// The one number of 8 bits that is left.
fn last_byte(left: Option<&[u8]>) -> Result<u8, OutOfForm>
    ensures { result ≡ last_as byte_of (words_left left.entry) }
{
    let Some((word, behind)) = next_word(left) else {
        return Err(OutOfForm);
    };
    if next_word(behind).is_some() {
        return Err(OutOfForm);
    }
    let number = number_to(u64::from(u8::MAX), word)?;
    Ok(number as u8)
}

/// The one number of 32 bits that is left.
fn last_number32(left: Option<&[u8]>) -> Result<u32, OutOfForm>
    ensures { result ≡ last_as number32_of (words_left left.entry) }
{
    let Some((word, behind)) = next_word(left) else {
        return Err(OutOfForm);
    };
    if next_word(behind).is_some() {
        return Err(OutOfForm);
    }
    let number = number_to(u64::from(u32::MAX), word)?;
    Ok(number as u32)
}

/// The words behind a count, which is passed over.
fn behind_count(left: Option<&[u8]>) -> Result<Option<&[u8]>, OutOfForm>
    ensures { MatchResult result (λ behind. behind_count (words_left left.entry) ≡ Ok (words_left behind)) (λ form. behind_count (words_left left.entry) ≡ Err form) }
{
    match next_word(left) {
        Some((_count, behind)) => Ok(behind),
        None => Err(OutOfForm),
    }
}

/// No bytes, or those of the one word that is left.
fn read_bytes(alloc: Global, left: Option<&[u8]>) -> Result<Blob, ReadWordsError>
    ensures { Answers (bytes_of (words_left left.entry)) result }
{
    let Some((word, behind)) = next_word(left) else {
        return Ok(Blob::new(alloc));
    };
    match next_word(behind) {
        None => read_hex(alloc, word),
        Some(_) => Err(ReadWordsError::Form),
    }
}

/// A copy of a name.
fn copy_of(alloc: Global, name: &[u8]) -> Result<Blob, Oom>
    ensures { IfOk result (λ copy. copy ≡ name.now) }
{
    Ok(Blob::from_vec(Vec::from_slice(alloc, name)?))
}

/// The words that are left, as names.
fn read_names(alloc: Global, left: Option<&[u8]>) -> Result<NameList, ReadWordsError>
    ensures { Answers (names_of (words_left left.entry)) result }
{
    let mut names = NameList::new(alloc);
    let mut rest = left;
    loop {
        let Some((name, behind)) = next_word(rest) else {
            return Ok(names);
        };
        if !is_name(name) {
            return Err(ReadWordsError::Form);
        }
        names.push(copy_of(alloc, name)?)?;
        rest = behind;
    }
}

/// A file of a size, or a directory.
fn stat_of(left: Option<&[u8]>) -> Result<Reply, OutOfForm>
    ensures { result ≡ stat_of (words_left left.entry) }
{
    let Some((word, behind)) = next_word(left) else {
        return Err(OutOfForm);
    };
    if word == b"file".as_slice() {
        let size = last_number32(behind)?;
        return Ok(Reply::File(size));
    }
    match next_word(behind) {
        None if word == b"dir".as_slice() => Ok(Reply::Dir),
        None | Some(_) => Err(OutOfForm),
    }
}

/// The bytes of a `read`.
fn read_contents(alloc: Global, left: Option<&[u8]>) -> Result<Reply, ReadWordsError>
    ensures { Answers (outcome_of Tells.Contents (words_left left.entry)) result }
{
    let behind = behind_count(left)?;
    let bytes = read_bytes(alloc, behind)?;
    Ok(Reply::Bytes(bytes))
}

/// The names of a `readdir`.
fn read_listing(alloc: Global, left: Option<&[u8]>) -> Result<Reply, ReadWordsError>
    ensures { Answers (outcome_of Tells.Listing (words_left left.entry)) result }
{
    let behind = behind_count(left)?;
    let names = read_names(alloc, behind)?;
    Ok(Reply::Names(names))
}

/// Nothing is told.
fn done(left: Option<&[u8]>) -> Result<Reply, OutOfForm>
    ensures { result ≡ outcome_of Tells.Nothing (words_left left.entry) }
{
    match next_word(left) {
        None => Ok(Reply::Done),
        Some(_) => Err(OutOfForm),
    }
}

/// The descriptor of an `open`.
fn descriptor(left: Option<&[u8]>) -> Result<Reply, OutOfForm>
    ensures { result ≡ outcome_of Tells.Descriptor (words_left left.entry) }
{
    let fd = last_byte(left)?;
    Ok(Reply::Fd(fd))
}

/// How many bytes a `write` took.
fn count(left: Option<&[u8]>) -> Result<Reply, OutOfForm>
    ensures { result ≡ outcome_of Tells.Length (words_left left.entry) }
{
    let count = last_number32(left)?;
    Ok(Reply::Count(count))
}

/// What is told behind `ok`.
pub(crate) fn read_outcome(
    alloc: Global,
    told: Tells,
    left: Option<&[u8]>,
) -> Result<Reply, ReadWordsError>
    ensures { Answers (outcome_of told (words_left left.entry)) result }
{
    match told {
        Tells::Nothing => Ok(done(left)?),
        Tells::Descriptor => Ok(descriptor(left)?),
        Tells::Contents => read_contents(alloc, left),
        Tells::Length => Ok(count(left)?),
        Tells::Kind => Ok(stat_of(left)?),
        Tells::Listing => read_listing(alloc, left),
    }
}
