ghost use Rattle.std.specs.Prelude.{◌≡◌, Ok, Err, IfOk, MatchResult};
ghost use Rattle.line_words.specs.Outcome.{Answers};
ghost use Rattle.line_words.specs.Words.{words_left, first_as};
ghost use Rattle.trace_lines.specs.Places.{number32_of, clients_of, view_of, ino_of, new_of, node_of, actor_of};
ghost use Rattle.trace_lines.specs.Words.{one_word, text_left};

use crate::places::{actor_of, clients_of, ino_of, new_of, number32_of, view_of};
use cal_base::{Blob, Ino, NodeId, Oom, View};
use line_words::{OutOfForm, ReadWordsError, next_word, node_of};
use std::alloc::Global;

/// The one word that is left.
pub(crate) fn one_word(left: Option<&[u8]>) -> Result<&[u8], OutOfForm>
    ensures { MatchResult result (λ word. one_word (words_left left.entry) ≡ Ok word.now) (λ form. one_word (words_left left.entry) ≡ Err form) }
{
    let Some((word, behind)) = next_word(left) else {
        return Err(OutOfForm);
    };
    match next_word(behind) {
        None => Ok(word),
        Some(_) => Err(OutOfForm),
    }
}

/// A copy of a text.
fn copy_of(alloc: Global, text: &[u8]) -> Result<Blob, Oom>
    ensures { IfOk result (λ copy. copy ≡ text.now) }
{
    Ok(Blob::from_vec(Vec::from_slice(alloc, text)?))
}

/// All words that are left, at least one, as they are written.
pub(crate) fn text_left(alloc: Global, left: Option<&[u8]>) -> Result<Blob, ReadWordsError>
    ensures { Answers (text_left (words_left left.entry)) result }
{
    let Some(text) = left else {
        return Err(ReadWordsError::Form);
    };
    Ok(copy_of(alloc, text)?)
}

/// A number of 32 bits, and the words behind it.
pub(crate) fn first_number32(left: Option<&[u8]>) -> Result<(u32, Option<&[u8]>), OutOfForm>
    ensures { MatchResult result (λ found. first_as number32_of (words_left left.entry) ≡ Ok (found.0, words_left found.1)) (λ form. first_as number32_of (words_left left.entry) ≡ Err form) }
{
    let Some((word, behind)) = next_word(left) else {
        return Err(OutOfForm);
    };
    let value = number32_of(word)?;
    Ok((value, behind))
}

/// A count of clients, and the words behind it.
pub(crate) fn first_clients(left: Option<&[u8]>) -> Result<(u8, Option<&[u8]>), OutOfForm>
    ensures { MatchResult result (λ found. first_as clients_of (words_left left.entry) ≡ Ok (found.0, words_left found.1)) (λ form. first_as clients_of (words_left left.entry) ≡ Err form) }
{
    let Some((word, behind)) = next_word(left) else {
        return Err(OutOfForm);
    };
    let value = clients_of(word)?;
    Ok((value, behind))
}

/// A view, and the words behind it.
pub(crate) fn first_view(left: Option<&[u8]>) -> Result<(View, Option<&[u8]>), OutOfForm>
    ensures { MatchResult result (λ found. first_as view_of (words_left left.entry) ≡ Ok (found.0, words_left found.1)) (λ form. first_as view_of (words_left left.entry) ≡ Err form) }
{
    let Some((word, behind)) = next_word(left) else {
        return Err(OutOfForm);
    };
    let value = view_of(word)?;
    Ok((value, behind))
}

/// An inode, and the words behind it.
pub(crate) fn first_ino(left: Option<&[u8]>) -> Result<(Ino, Option<&[u8]>), OutOfForm>
    ensures { MatchResult result (λ found. first_as ino_of (words_left left.entry) ≡ Ok (found.0, words_left found.1)) (λ form. first_as ino_of (words_left left.entry) ≡ Err form) }
{
    let Some((word, behind)) = next_word(left) else {
        return Err(OutOfForm);
    };
    let value = ino_of(word)?;
    Ok((value, behind))
}

/// The inode that a call made, or none, and the words behind it.
pub(crate) fn first_new(left: Option<&[u8]>) -> Result<(Option<Ino>, Option<&[u8]>), OutOfForm>
    ensures { MatchResult result (λ found. first_as new_of (words_left left.entry) ≡ Ok (found.0, words_left found.1)) (λ form. first_as new_of (words_left left.entry) ≡ Err form) }
{
    let Some((word, behind)) = next_word(left) else {
        return Err(OutOfForm);
    };
    let value = new_of(word)?;
    Ok((value, behind))
}

/// A node, and the words behind it.
pub(crate) fn first_node(left: Option<&[u8]>) -> Result<(NodeId, Option<&[u8]>), OutOfForm>
    ensures { MatchResult result (λ found. first_as node_of (words_left left.entry) ≡ Ok (found.0, words_left found.1)) (λ form. first_as node_of (words_left left.entry) ≡ Err form) }
{
    let Some((word, behind)) = next_word(left) else {
        return Err(OutOfForm);
    };
    let value = node_of(word)?;
    Ok((value, behind))
}

/// Whose step it is, and the words behind it.
pub(crate) fn first_actor(left: Option<&[u8]>) -> Result<(Option<NodeId>, Option<&[u8]>), OutOfForm>
    ensures { MatchResult result (λ found. first_as actor_of (words_left left.entry) ≡ Ok (found.0, words_left found.1)) (λ form. first_as actor_of (words_left left.entry) ≡ Err form) }
{
    let Some((word, behind)) = next_word(left) else {
        return Err(OutOfForm);
    };
    let value = actor_of(word)?;
    Ok((value, behind))
}
