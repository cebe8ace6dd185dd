ghost use Rattle.std.specs.Prelude.{◌≡◌, Ok, Err, MatchResult};
ghost use Rattle.line_words.specs.Words.{words_left, first_as, last_as};
ghost use Rattle.reply_words.specs.Telling.{alone, blocks_of, no_space, other_why, path_why, why_of};

use line_words::{OutOfForm, next_word, number_to};
use tree_law::Why;

/// A refusal that is told of paths.
fn path_why(word: &[u8]) -> Result<Why, OutOfForm>
    ensures { result ≡ path_why word.now }
{
    if word == b"EEXIST".as_slice() {
        Ok(Why::Exist)
    } else if word == b"ENOENT".as_slice() {
        Ok(Why::NoEnt)
    } else if word == b"ENOTDIR".as_slice() {
        Ok(Why::NotDir)
    } else if word == b"EISDIR".as_slice() {
        Ok(Why::IsDir)
    } else if word == b"ENOTEMPTY".as_slice() {
        Ok(Why::NotEmpty)
    } else if word == b"EINVAL".as_slice() {
        Ok(Why::Inval)
    } else {
        Err(OutOfForm)
    }
}

/// Any refusal that stands alone.
fn other_why(word: &[u8]) -> Result<Why, OutOfForm>
    ensures { result ≡ other_why word.now }
{
    if word == b"EBUSY".as_slice() {
        Ok(Why::Busy)
    } else if word == b"EMFILE".as_slice() {
        Ok(Why::MFile)
    } else if word == b"EBADF".as_slice() {
        Ok(Why::BadF)
    } else if word == b"EFBIG".as_slice() {
        Ok(Why::FBig)
    } else if word == b"NOINODE".as_slice() {
        Ok(Why::NoInode)
    } else if word == b"DIRFULL".as_slice() {
        Ok(Why::DirFull)
    } else {
        path_why(word)
    }
}

/// A count of blocks, a number of 16 bits.
fn blocks_of(word: &[u8]) -> Result<u16, OutOfForm>
    ensures { result ≡ blocks_of word.now }
{
    let count = number_to(u64::from(u16::MAX), word)?;
    Ok(count as u16)
}

/// A count of blocks, and the words behind it.
fn first_blocks(left: Option<&[u8]>) -> Result<(u16, Option<&[u8]>), OutOfForm>
    ensures { MatchResult result (λ found. first_as blocks_of (words_left left.entry) ≡ Ok (found.0, words_left found.1)) (λ form. first_as blocks_of (words_left left.entry) ≡ Err form) }
{
    let Some((word, behind)) = next_word(left) else {
        return Err(OutOfForm);
    };
    let count = blocks_of(word)?;
    Ok((count, behind))
}

/// The one count of blocks that is left.
fn last_blocks(left: Option<&[u8]>) -> Result<u16, OutOfForm>
    ensures { result ≡ last_as blocks_of (words_left left.entry) }
{
    let Some((word, behind)) = next_word(left) else {
        return Err(OutOfForm);
    };
    match next_word(behind) {
        None => blocks_of(word),
        Some(_) => Err(OutOfForm),
    }
}

/// The free blocks and the needed ones.
fn no_space(left: Option<&[u8]>) -> Result<Why, OutOfForm>
    ensures { result ≡ no_space (words_left left.entry) }
{
    let (free, behind) = first_blocks(left)?;
    let needed = last_blocks(behind)?;
    Ok(Why::NoSpace { free, needed })
}

/// Why a call is refused.
pub(crate) fn why_of(word: &[u8], behind: Option<&[u8]>) -> Result<Why, OutOfForm>
    ensures { result ≡ why_of word.now (words_left behind.entry) }
{
    if word == b"NOSPACE".as_slice() {
        return no_space(behind);
    }
    match next_word(behind) {
        None => other_why(word),
        Some(_) => Err(OutOfForm),
    }
}
