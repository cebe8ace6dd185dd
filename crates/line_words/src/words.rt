ghost use Rattle.std.specs.Prelude.{◌≡◌, ◌∷◌, [], Ok, Err, MatchOption, MatchResult};
ghost use Rattle.line_words.specs.Places.{client_of, number_of};
ghost use Rattle.line_words.specs.Words.{words_left, first_as, behind_word, last_as};

use crate::places::{client_of, number_of};
use crate::read_error::OutOfForm;
use cal_base::{ClientId, cut_at};

/// The first of the words that are left, and those behind it, if a word is left.
pub fn next_word(left: Option<&[u8]>) -> Option<(&[u8], Option<&[u8]>)>
    ensures { MatchOption result (words_left left.entry ≡ []) (λ found. words_left left.entry ≡ found.0.now ∷ words_left found.1) }
{
    match left {
        Some(text) => Some(cut_at(text, b' ')),
        None => None,
    }
}

/// A client, and the words behind it.
pub fn first_client(left: Option<&[u8]>) -> Result<(ClientId, Option<&[u8]>), OutOfForm>
    ensures { MatchResult result (λ found. first_as client_of (words_left left.entry) ≡ Ok (found.0, words_left found.1)) (λ form. first_as client_of (words_left left.entry) ≡ Err form) }
{
    let Some((word, behind)) = next_word(left) else {
        return Err(OutOfForm);
    };
    let client = client_of(word)?;
    Ok((client, behind))
}

/// A number, and the words behind it.
pub fn first_number(left: Option<&[u8]>) -> Result<(u64, Option<&[u8]>), OutOfForm>
    ensures { MatchResult result (λ found. first_as number_of (words_left left.entry) ≡ Ok (found.0, words_left found.1)) (λ form. first_as number_of (words_left left.entry) ≡ Err form) }
{
    let Some((word, behind)) = next_word(left) else {
        return Err(OutOfForm);
    };
    let number = number_of(word)?;
    Ok((number, behind))
}

/// The words behind the first, which has to be this one.
pub fn behind_word<'a>(wanted: &[u8], left: Option<&'a [u8]>) -> Result<Option<&'a [u8]>, OutOfForm>
    ensures { MatchResult result (λ behind. behind_word wanted.now (words_left left.entry) ≡ Ok (words_left behind)) (λ form. behind_word wanted.now (words_left left.entry) ≡ Err form) }
{
    match next_word(left) {
        Some((word, behind)) if word == wanted => Ok(behind),
        Some(_) => Err(OutOfForm),
        None => Err(OutOfForm),
    }
}

/// The one client that is left.
pub fn last_client(left: Option<&[u8]>) -> Result<ClientId, OutOfForm>
    ensures { result ≡ last_as client_of (words_left left.entry) }
{
    let Some((word, behind)) = next_word(left) else {
        return Err(OutOfForm);
    };
    match next_word(behind) {
        None => client_of(word),
        Some(_) => Err(OutOfForm),
    }
}
