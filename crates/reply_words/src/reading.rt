ghost use Rattle.std.specs.Prelude.{◌≡◌};
ghost use Rattle.line_words.specs.Outcome.{Answers};
ghost use Rattle.line_words.specs.Words.{words_left};
ghost use Rattle.reply_words.specs.Reading.{ReadsReply};
ghost use Rattle.reply_words.specs.Telling.{refusal_of, reply_said};

use crate::outcomes::read_outcome;
use crate::refusals::why_of;
use crate::tells::{Tells, told_by};
use line_words::{OutOfForm, ReadWordsError, next_word};
use reply_text::reply_text;
use std::alloc::Global;
use tree_law::{Call, Reply};

/// A refusal.
fn refusal_of(word: &[u8], behind: Option<&[u8]>) -> Result<Reply, OutOfForm>
    ensures { result ≡ refusal_of word.now (words_left behind.entry) }
{
    let why = why_of(word, behind)?;
    Ok(Reply::Refused(why))
}

/// Reads what the words of a text tell, but for counts.
#[tactic(auto, unfolding(crate::specs::Telling::reply_said))]
fn read_words(alloc: Global, told: Tells, text: &[u8]) -> Result<Reply, ReadWordsError>
    ensures { Answers (reply_said told text.now) result }
{
    let Some((word, behind)) = next_word(Some(text)) else {
        return Err(ReadWordsError::Form);
    };
    if word == b"ok".as_slice() {
        return read_outcome(alloc, told, behind);
    }
    Ok(refusal_of(word, behind)?)
}

/// Reads the text of a reply to a call: the reply that can answer it and is written so. There is at most
/// one. Without its call a text can be that of more: `ok 0` is a descriptor, a count, no bytes or no names.
///
/// What the words tell is written anew and compared, so that a text is refused unless it is the reply's own,
/// byte for byte.
pub fn read_reply(alloc: Global, call: &Call, text: &[u8]) -> Result<Reply, ReadWordsError>
    ensures { ReadsReply call.now text.now result }
{
    let reply = match read_words(alloc, told_by(call), text) {
        Ok(reply) => reply,
        Err(error) => return Err(error),
    };
    let Ok(written) = reply_text(alloc, &reply) else {
        return Err(ReadWordsError::OutOfMemory);
    };
    if written.as_slice() == text {
        Ok(reply)
    } else {
        Err(ReadWordsError::Form)
    }
}
