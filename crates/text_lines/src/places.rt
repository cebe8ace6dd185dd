ghost use Rattle.std.specs.Prelude.{◌≡◌, Ok, Err, MatchResult};
ghost use Rattle.line_words.specs.Words.{words_left, first_as, last_as};
ghost use Rattle.text_lines.specs.Places.{ino_of, any_ino, new_ino};

use cal_base::{Ino, LAST_INODE};
use line_words::{OutOfForm, next_word};
use script::number_in;

/// An inode, from the least to the last.
fn ino_of(least: u32, word: &[u8]) -> Result<Ino, OutOfForm>
    ensures { result ≡ ino_of least word.now }
{
    match number_in(u64::from(least), u64::from(LAST_INODE), word) {
        Ok(number) => Ok(Ino(number as u32)),
        Err(_) => Err(OutOfForm),
    }
}

/// An inode: 0 to 511.
fn any_ino(word: &[u8]) -> Result<Ino, OutOfForm>
    ensures { result ≡ any_ino word.now }
{
    ino_of(0, word)
}

/// The inode that a call made: 1 to 511, or `-` for none.
fn new_ino(word: &[u8]) -> Result<Option<Ino>, OutOfForm>
    ensures { result ≡ new_ino word.now }
{
    if word == b"-".as_slice() {
        return Ok(None);
    }
    let ino = ino_of(1, word)?;
    Ok(Some(ino))
}

/// The inode that a call made, or none, and the words behind it.
pub(crate) fn first_new_ino(left: Option<&[u8]>) -> Result<(Option<Ino>, Option<&[u8]>), OutOfForm>
    ensures { MatchResult result (λ found. first_as new_ino (words_left left.entry) ≡ Ok (found.0, words_left found.1)) (λ form. first_as new_ino (words_left left.entry) ≡ Err form) }
{
    let Some((word, behind)) = next_word(left) else {
        return Err(OutOfForm);
    };
    let ino = new_ino(word)?;
    Ok((ino, behind))
}

/// The one inode that is left.
pub(crate) fn last_ino(left: Option<&[u8]>) -> Result<Ino, OutOfForm>
    ensures { result ≡ last_as any_ino (words_left left.entry) }
{
    let Some((word, behind)) = next_word(left) else {
        return Err(OutOfForm);
    };
    match next_word(behind) {
        None => any_ino(word),
        Some(_) => Err(OutOfForm),
    }
}
