ghost use Rattle.std.specs.Prelude.{◌≡◌, true};
ghost use Rattle.script.specs.CallLine.{call_said};
ghost use Rattle.line_words.specs.Outcome.{Answers, in_form};
ghost use Rattle.line_words.specs.Places.{client_of, number_of, are_whole, is_fill, call_of};
ghost use Rattle.line_words.specs.Words.{words, words_left};

use crate::read_error::{OutOfForm, ReadWordsError};
use crate::words::next_word;
use cal_base::ClientId;
use script::{ReadLineError, client_in, number_in, read_call};
use std::alloc::Global;
use tree_law::Call;

/// A client: `c0` to `c15`.
pub fn client_of(word: &[u8]) -> Result<ClientId, OutOfForm>
    ensures { result ≡ client_of word.now }
{
    match client_in(word) {
        Ok(client) => Ok(client),
        Err(_) => Err(OutOfForm),
    }
}

/// A number of 64 bits: `0`, or digits without a leading 0.
pub fn number_of(word: &[u8]) -> Result<u64, OutOfForm>
    ensures { result ≡ number_of word.now }
{
    match number_in(0, u64::MAX, word) {
        Ok(number) => Ok(number),
        Err(_) => Err(OutOfForm),
    }
}

/// Whether no word is empty.
fn are_whole(left: Option<&[u8]>) -> bool
    ensures { result ≡ are_whole (words_left left.entry) }
{
    let mut rest = left;
    loop {
        let Some((word, behind)) = next_word(rest) else {
            return true;
        };
        if word.is_empty() {
            return false;
        }
        rest = behind;
    }
}

/// Whether the first word is `fill`.
fn is_fill(left: Option<&[u8]>) -> bool
    ensures { result ≡ is_fill (words_left left.entry) }
{
    match next_word(left) {
        Some((word, _)) => word == b"fill".as_slice(),
        None => false,
    }
}

/// Reads a call as a script has it behind its client, from words of which none is empty.
fn read_script_call(alloc: Global, text: &[u8]) -> Result<Call, ReadWordsError>
    requires { are_whole (words text.now) ≡ true }
    ensures { Answers (in_form (call_said (words text.now))) result }
{
    match read_call(alloc, text) {
        Ok(call) => Ok(call),
        Err(ReadLineError::Bad(_)) => Err(ReadWordsError::Form),
        Err(ReadLineError::OutOfMemory) => Err(ReadWordsError::OutOfMemory),
    }
}

/// Reads a call as a script has it behind its client, but for `fill`, with one space between each two
/// words.
pub fn read_call_of(alloc: Global, left: Option<&[u8]>) -> Result<Call, ReadWordsError>
    ensures { Answers (call_of (words_left left.entry)) result }
{
    let Some(text) = left else {
        return Err(ReadWordsError::Form);
    };
    if !are_whole(Some(text)) || is_fill(Some(text)) {
        return Err(ReadWordsError::Form);
    }
    read_script_call(alloc, text)
}
