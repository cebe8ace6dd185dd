ghost use Rattle.std.specs.Prelude.{◌≡◌, ◌≤◌, ◌++◌, length, drop, replicate};
ghost use Rattle.cal_base.specs.Limits as limits;
ghost use Rattle.line_words.specs.Outcome.{Answers};
ghost use Rattle.line_words.specs.Words.{words_left};
ghost use Rattle.trace_lines.specs.Sectors.{bytes_of, some_bytes_of, ends_in_zero, padded, sector_with, sector_of, torn_of, body_in, named_body};

use crate::names::body_name;
use crate::words::one_word;
use cal_base::{BLOCK_SIZE, Blob, Sector};
use line_words::{OutOfForm, ReadWordsError, next_word, read_hex};
use session::Body;
use std::alloc::Global;

/// One byte or more in hexadecimal.
fn some_bytes_of(alloc: Global, word: &[u8]) -> Result<Blob, ReadWordsError>
    ensures { Answers (some_bytes_of word.now) result }
{
    if word.is_empty() {
        return Err(ReadWordsError::Form);
    }
    read_hex(alloc, word)
}

/// Bytes in hexadecimal, or `-` for none.
fn bytes_of(alloc: Global, word: &[u8]) -> Result<Blob, ReadWordsError>
    ensures { Answers (bytes_of word.now) result }
{
    if word == b"-".as_slice() {
        return Ok(Blob::new(alloc));
    }
    some_bytes_of(alloc, word)
}

/// Whether the last byte is zero.
fn ends_in_zero(bytes: &[u8]) -> bool
    ensures { result ≡ ends_in_zero bytes.now }
{
    !bytes.is_empty() && bytes[bytes.len() - 1] == 0
}

/// Lays bytes over the first of the contents.
fn lay(contents: &mut [u8], bytes: &[u8])
    requires { length bytes.now ≤ length contents.old }
    ensures { contents.new ≡ bytes.now ++ drop (length bytes.now) contents.old }
{
    contents[..bytes.len()].copy_from_slice(bytes);
}

/// A sector of zeros.
fn zero_sector() -> Sector
    ensures { result ≡ replicate 4096 0 }
{
    [0; BLOCK_SIZE]
}

/// At most 4,096 bytes, and zeros behind them.
fn padded(bytes: &[u8]) -> Sector
    requires { length bytes.now ≤ limits.block_size }
    ensures { result ≡ padded bytes.now }
{
    let mut sector = zero_sector();
    lay(&mut sector, bytes);
    sector
}

/// The sector that begins with these bytes, of which the last isn't zero.
fn sector_with(bytes: &[u8]) -> Result<Sector, OutOfForm>
    ensures { result ≡ sector_with bytes.now }
{
    if bytes.len() <= BLOCK_SIZE && !ends_in_zero(bytes) {
        Ok(padded(bytes))
    } else {
        Err(OutOfForm)
    }
}

/// A sector in hexadecimal without the zero bytes at its end, or `-` where all are zero.
pub(crate) fn sector_of(alloc: Global, word: &[u8]) -> Result<Sector, ReadWordsError>
    ensures { Answers (sector_of word.now) result }
{
    let bytes = bytes_of(alloc, word)?;
    match sector_with(bytes.as_slice()) {
        Ok(sector) => Ok(sector),
        Err(_) => Err(ReadWordsError::Form),
    }
}

/// What a stop leaves of the write that it cuts off: `clean` for nothing, or a sector.
pub(crate) fn torn_of(alloc: Global, word: &[u8]) -> Result<Option<Sector>, ReadWordsError>
    ensures { Answers (torn_of word.now) result }
{
    if word == b"clean".as_slice() {
        return Ok(None);
    }
    let sector = sector_of(alloc, word)?;
    Ok(Some(sector))
}

/// Bytes as a packet's body, if this word names it.
fn named_body(alloc: Global, name: &[u8], bytes: Blob) -> Result<Body, ReadWordsError>
    ensures { Answers (named_body name.now bytes) result }
{
    if name != body_name(bytes.as_slice()).as_bytes() {
        return Err(ReadWordsError::Form);
    }
    if bytes.is_empty() {
        return Ok(Body::empty());
    }
    Ok(Body::new(alloc, bytes.into_vec())?)
}

/// The name of what a packet carries, and its bytes.
pub(crate) fn read_body(alloc: Global, left: Option<&[u8]>) -> Result<Body, ReadWordsError>
    ensures { Answers (body_in (words_left left.entry)) result }
{
    let Some((name, behind)) = next_word(left) else {
        return Err(ReadWordsError::Form);
    };
    let word = one_word(behind)?;
    let bytes = bytes_of(alloc, word)?;
    named_body(alloc, name, bytes)
}
