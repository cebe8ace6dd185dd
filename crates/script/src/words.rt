ghost use Rattle.std.specs.Prelude.{◌≡◌, ◌<◌, ◌∷◌, [], length, MatchOption, Ok, Err, MatchResult};
ghost use Rattle.script.specs.Words.{words, none_of, one_of, two_of, three_of, four_of};

use crate::bad_line::BadWhy;
use cal_base::cut_at;

/// The first word of a line and what stands behind it, if there is a word.
pub(crate) fn next_word(line: &[u8]) -> Option<(&[u8], &[u8])>
    ensures { MatchOption result (words line.now ≡ []) (λ found. words line.now ≡ found.0.now ∷ words found.1.now) }
{
    let mut rest = line;
    loop {
        let (part, after) = cut_at(rest, b' ');
        let Some(behind) = after else {
            return last_word(part);
        };
        if !part.is_empty() {
            return Some((part, behind));
        }
        rest = behind;
    }
}

/// A text without spaces as the last word of a line.
fn last_word(part: &[u8]) -> Option<(&[u8], &[u8])>
    ensures { MatchOption result (length part.now ≡ 0) (λ found. (0 < length part.now) × (found.0.now ≡ part.now) × (found.1.now ≡ [])) }
{
    if part.is_empty() {
        None
    } else {
        Some((part, &part[part.len()..]))
    }
}

/// Two words.
#[derive(Clone, Copy)]
pub(crate) struct TwoWords<'a> {
    pub(crate) first: &'a [u8],
    pub(crate) second: &'a [u8],
}

/// Three words.
#[derive(Clone, Copy)]
pub(crate) struct ThreeWords<'a> {
    pub(crate) first: &'a [u8],
    pub(crate) second: &'a [u8],
    pub(crate) third: &'a [u8],
}

/// Four words.
#[derive(Clone, Copy)]
pub(crate) struct FourWords<'a> {
    pub(crate) first: &'a [u8],
    pub(crate) second: &'a [u8],
    pub(crate) third: &'a [u8],
    pub(crate) fourth: &'a [u8],
}

/// No more words.
pub(crate) fn none_of(line: &[u8]) -> Result<(), BadWhy>
    ensures { result ≡ none_of (words line.now) }
{
    match next_word(line) {
        None => Ok(()),
        Some(_) => Err(BadWhy::Count),
    }
}

/// The word of a line that has one.
pub(crate) fn one_of(line: &[u8]) -> Result<&[u8], BadWhy>
    ensures { MatchResult result (λ word. one_of (words line.now) ≡ Ok word.now) (λ why. one_of (words line.now) ≡ Err why) }
{
    let Some((first, rest)) = next_word(line) else {
        return Err(BadWhy::Count);
    };
    match next_word(rest) {
        None => Ok(first),
        Some(_) => Err(BadWhy::Count),
    }
}

/// The words of a line that has two.
pub(crate) fn two_of(line: &[u8]) -> Result<TwoWords<'_>, BadWhy>
    ensures { MatchResult result (λ found. two_of (words line.now) ≡ Ok (record { first = found.first.now; second = found.second.now })) (λ why. two_of (words line.now) ≡ Err why) }
{
    let Some((first, rest)) = next_word(line) else {
        return Err(BadWhy::Count);
    };
    let Some((second, rest)) = next_word(rest) else {
        return Err(BadWhy::Count);
    };
    match next_word(rest) {
        None => Ok(TwoWords { first, second }),
        Some(_) => Err(BadWhy::Count),
    }
}

/// The words of a line that has three.
pub(crate) fn three_of(line: &[u8]) -> Result<ThreeWords<'_>, BadWhy>
    ensures { MatchResult result (λ found. three_of (words line.now) ≡ Ok (record { first = found.first.now; second = found.second.now; third = found.third.now })) (λ why. three_of (words line.now) ≡ Err why) }
{
    let Some((first, rest)) = next_word(line) else {
        return Err(BadWhy::Count);
    };
    let Some((second, rest)) = next_word(rest) else {
        return Err(BadWhy::Count);
    };
    let Some((third, rest)) = next_word(rest) else {
        return Err(BadWhy::Count);
    };
    match next_word(rest) {
        None => Ok(ThreeWords {
            first,
            second,
            third,
        }),
        Some(_) => Err(BadWhy::Count),
    }
}

/// The words of a line that has four.
pub(crate) fn four_of(line: &[u8]) -> Result<FourWords<'_>, BadWhy>
    ensures { MatchResult result (λ found. four_of (words line.now) ≡ Ok (record { first = found.first.now; second = found.second.now; third = found.third.now; fourth = found.fourth.now })) (λ why. four_of (words line.now) ≡ Err why) }
{
    let Some((first, rest)) = next_word(line) else {
        return Err(BadWhy::Count);
    };
    let Some((second, rest)) = next_word(rest) else {
        return Err(BadWhy::Count);
    };
    let Some((third, rest)) = next_word(rest) else {
        return Err(BadWhy::Count);
    };
    let Some((fourth, rest)) = next_word(rest) else {
        return Err(BadWhy::Count);
    };
    match next_word(rest) {
        None => Ok(FourWords {
            first,
            second,
            third,
            fourth,
        }),
        Some(_) => Err(BadWhy::Count),
    }
}
