ghost use Rattle.std.specs.Prelude.{◌≡◌, ◌==◌, ◌&&◌, ◌*◌, nat_lt, length, IfOk};
ghost use Rattle.std.specs.List.{join_with_byte, list_all};
ghost use Rattle.script.specs.Numbers.{is_hex_digit};
ghost use Rattle.line_words.specs.Outcome.{Answers};
ghost use Rattle.text_lines.specs.Replies.{are_none, are_bytes, are_names, is_counted, is_size, is_outcome, is_blocks, are_blocks, is_path_refusal, is_other_refusal, is_refusal, is_reply, reply_of};
ghost use Rattle.line_words.specs.Words.{words, words_left};

use cal_base::{Blob, Oom};
use line_words::{OutOfForm, ReadWordsError, next_word, number_of};
use script::{are_hex_digits, number_in};
use std::alloc::Global;
use tree_law::is_name;

/// Whether no word is left.
fn are_none(left: Option<&[u8]>) -> bool
    ensures { result ≡ are_none (words_left left.entry) }
{
    match left {
        Some(_text) => false,
        None => true,
    }
}

/// Whether a length is twice a count.
fn is_twice(len: usize, count: u64) -> bool
    ensures { result ≡ (len == 2 * count) }
{
    match count.checked_mul(2) {
        Some(twice) => len as u64 == twice,
        None => false,
    }
}

/// Whether a text is so many bytes in hexadecimal, at least one.
fn are_digits(count: u64, text: &[u8]) -> bool
    ensures { result ≡ (nat_lt 0 count && (length text.now == 2 * count) && list_all is_hex_digit text.now) }
{
    count > 0 && is_twice(text.len(), count) && are_hex_digits(text)
}

/// Whether one word is left, of so many bytes in hexadecimal, at least one. As no digit is a space, the
/// word isn't looked for: each byte is looked at once, and none where the length is another.
fn are_bytes(count: u64, left: Option<&[u8]>) -> bool
    ensures { result ≡ are_bytes count (words_left left.entry) }
{
    match left {
        Some(text) => are_digits(count, text),
        None => false,
    }
}

/// Whether so many names are left.
fn are_names(count: u64, left: Option<&[u8]>) -> bool
    ensures { result ≡ are_names count (words_left left.entry) }
{
    let mut missing = count;
    let mut rest = left;
    loop {
        let Some((word, behind)) = next_word(rest) else {
            return missing == 0;
        };
        if missing == 0 || !is_name(word) {
            return false;
        }
        missing -= 1;
        rest = behind;
    }
}

/// Whether behind a count stands nothing, so many bytes, or so many names.
fn is_counted(count: Result<u64, OutOfForm>, left: Option<&[u8]>) -> bool
    ensures { result ≡ is_counted count (words_left left.entry) }
{
    match count {
        Ok(count) => are_none(left) || are_bytes(count, left) || are_names(count, left),
        Err(_) => false,
    }
}

/// Whether one word is left, a size.
fn is_size(left: Option<&[u8]>) -> bool
    ensures { result ≡ is_size (words_left left.entry) }
{
    let Some((word, behind)) = next_word(left) else {
        return false;
    };
    match next_word(behind) {
        None => number_of(word).is_ok(),
        Some(_) => false,
    }
}

/// Whether behind `ok` stands nothing, a size, `dir`, or a count with what it counts.
fn is_outcome(left: Option<&[u8]>) -> bool
    ensures { result ≡ is_outcome (words_left left.entry) }
{
    let Some((word, behind)) = next_word(left) else {
        return true;
    };
    if word == b"file".as_slice() {
        is_size(behind)
    } else if word == b"dir".as_slice() {
        are_none(behind)
    } else {
        is_counted(number_of(word), behind)
    }
}

/// Whether a word is a count of blocks, a number of 16 bits.
fn is_blocks(word: &[u8]) -> bool
    ensures { result ≡ is_blocks word.now }
{
    number_in(0, u64::from(u16::MAX), word).is_ok()
}

/// Whether two counts of blocks are left.
fn are_blocks(left: Option<&[u8]>) -> bool
    ensures { result ≡ are_blocks (words_left left.entry) }
{
    let Some((free, behind)) = next_word(left) else {
        return false;
    };
    let Some((needed, behind)) = next_word(behind) else {
        return false;
    };
    match next_word(behind) {
        None => is_blocks(free) && is_blocks(needed),
        Some(_) => false,
    }
}

fn is_path_refusal(word: &[u8]) -> bool
    ensures { result ≡ is_path_refusal word.now }
{
    word == b"EEXIST".as_slice()
        || word == b"ENOENT".as_slice()
        || word == b"ENOTDIR".as_slice()
        || word == b"EISDIR".as_slice()
        || word == b"ENOTEMPTY".as_slice()
        || word == b"EINVAL".as_slice()
        || word == b"EBUSY".as_slice()
}

fn is_other_refusal(word: &[u8]) -> bool
    ensures { result ≡ is_other_refusal word.now }
{
    word == b"EMFILE".as_slice()
        || word == b"EBADF".as_slice()
        || word == b"EFBIG".as_slice()
        || word == b"NOINODE".as_slice()
        || word == b"DIRFULL".as_slice()
}

/// Whether a word is a refusal's name, with two counts of blocks behind NOSPACE and nothing behind any
/// other.
fn is_refusal(word: &[u8], behind: Option<&[u8]>) -> bool
    ensures { result ≡ is_refusal word.now (words_left behind.entry) }
{
    if word == b"NOSPACE".as_slice() {
        are_blocks(behind)
    } else {
        (is_path_refusal(word) || is_other_refusal(word)) && are_none(behind)
    }
}

/// Whether the words that are left are a reply to some call.
fn is_reply(left: Option<&[u8]>) -> bool
    ensures { result ≡ is_reply (words_left left.entry) }
{
    let Some((word, behind)) = next_word(left) else {
        return false;
    };
    if word == b"ok".as_slice() {
        is_outcome(behind)
    } else {
        is_refusal(word, behind)
    }
}

/// A copy of a text, which is its words with one space between each two.
fn copy_of(alloc: Global, text: &[u8]) -> Result<Blob, Oom>
    ensures { IfOk result (λ copy. copy ≡ join_with_byte 32 (words text.now)) }
{
    Ok(Blob::from_vec(Vec::from_slice(alloc, text)?))
}

/// Reads a reply to some call: the words that are left, as they are written.
pub(crate) fn read_reply(alloc: Global, left: Option<&[u8]>) -> Result<Blob, ReadWordsError>
    ensures { Answers (reply_of (words_left left.entry)) result }
{
    let Some(text) = left else {
        return Err(ReadWordsError::Form);
    };
    if !is_reply(left) {
        return Err(ReadWordsError::Form);
    }
    Ok(copy_of(alloc, text)?)
}
