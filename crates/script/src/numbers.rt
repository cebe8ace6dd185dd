ghost use Rattle.std.specs.Prelude.{◌≡◌, ◌≤◌, ◌<◌, ◌^◌, ◌+◌, ◌*◌, ◌-◌, ◌&&◌, true, nat_le, MatchOption, IfOk, Ok, Err, if◌then◌else◌};
ghost use Rattle.cal_base.specs.Limits as limits;
ghost use Rattle.script.specs.declared.bad_line.BadWhy.TheVariants.{Number};
ghost use Rattle.std.specs.List.{list_all};
ghost use Rattle.script.specs.Numbers.{is_digit, is_plainly_begun, is_decimal, value_of, value_behind, number_in, is_hex_digit, nibble, hex_bytes, is_hex, hex_in, byte_of};
ghost use Rattle.script.specs.Outcome.{Answers};

use crate::bad_line::BadWhy;
use crate::read_error::ReadLineError;
use cal_base::{Blob, Oom};
use std::alloc::Global;

fn is_digit(byte: u8) -> bool
    ensures { result ≡ is_digit byte }
{
    byte >= b'0' && byte <= b'9'
}

fn are_digits(word: &[u8]) -> bool
    ensures { result ≡ list_all is_digit word.now }
{
    word.iter().all(|byte| is_digit(*byte))
}

/// Whether a word is `0` or doesn't begin with 0.
fn is_plainly_begun(word: &[u8]) -> bool
    ensures { result ≡ is_plainly_begun word.now }
{
    match word {
        [] => false,
        [_] => true,
        [digit, _, ..] => *digit != b'0',
    }
}

/// The number that digits write, if it is below 2^64.
fn value_of(digits: &[u8]) -> Option<u64>
    ensures { MatchOption result (2 ^ 64 ≤ value_of digits.now) (λ value. value ≡ value_of digits.now) }
{
    let mut value = 0u64;
    for digit in digits {
        match one_digit_more(value, *digit) {
            Some(more) => value = more,
            None => return None,
        }
    }
    Some(value)
}

/// A number with one more digit behind it, if it is below 2^64.
fn one_digit_more(front: u64, digit: u8) -> Option<u64>
    ensures { MatchOption result (2 ^ 64 ≤ front * 10 + (digit - 48)) (λ value. value ≡ front * 10 + (digit - 48)) }
{
    let value = front.checked_mul(10)?;
    value.checked_add(u64::from(digit.saturating_sub(48)))
}

/// A number from the least to the most: `0`, or digits without a leading 0.
pub fn number_in(least: u64, most: u64, word: &[u8]) -> Result<u64, BadWhy>
    ensures said { result ≡ number_in least most word.now }
    ensures within { IfOk result (λ value. (least ≤ value) × (value ≤ most)) }
{
    if !are_digits(word) || !is_plainly_begun(word) {
        return Err(BadWhy::Number);
    }
    match value_of(word) {
        Some(value) => number_within(least, most, value),
        None => Err(BadWhy::Number),
    }
}

fn number_within(least: u64, most: u64, value: u64) -> Result<u64, BadWhy>
    ensures said { result ≡ (if nat_le least value && nat_le value most then Ok value else Err Number) }
    ensures within { IfOk result (λ number. (least ≤ number) × (number ≤ most)) }
{
    if value >= least && value <= most {
        Ok(value)
    } else {
        Err(BadWhy::Number)
    }
}

fn is_hex_digit(byte: u8) -> bool
    ensures { result ≡ is_hex_digit byte }
{
    is_digit(byte) || (byte >= b'a' && byte <= b'f')
}

/// Whether a word is of hexadecimal digits alone: 0 to 9 and a to f.
pub fn are_hex_digits(word: &[u8]) -> bool
    ensures { result ≡ list_all is_hex_digit word.now }
{
    word.iter().all(|byte| is_hex_digit(*byte))
}

/// The value of a hexadecimal digit.
fn nibble(digit: u8) -> u8
    requires { is_hex_digit digit ≡ true }
    ensures value { result ≡ nibble digit }
    ensures half { result < 16 }
{
    if digit <= b'9' {
        digit - b'0'
    } else {
        digit - 87
    }
}

/// The byte of two hexadecimal digits, the high half first.
fn joined(high: u8, low: u8) -> u8
    requires high { is_hex_digit high ≡ true }
    requires low { is_hex_digit low ≡ true }
    ensures { result ≡ nibble high * 16 + nibble low }
{
    nibble(high) * 16 + nibble(low)
}

/// Whether a word is hexadecimal, of 1 to so many bytes.
fn is_hex(most: usize, word: &[u8]) -> bool
    requires { most ≤ limits.write_size }
    ensures { result ≡ is_hex most word.now }
{
    are_hex_digits(word) && word.len() % 2 == 0 && !word.is_empty() && word.len() <= 2 * most
}

/// The bytes of a hexadecimal word.
fn hex_bytes(alloc: Global, word: &[u8]) -> Result<Blob, Oom>
    requires { list_all is_hex_digit word.now ≡ true }
    ensures { IfOk result (λ bytes. bytes ≡ hex_bytes word.now) }
{
    let mut bytes = Vec::with_capacity(alloc, word.len() / 2)?;
    let mut rest = word;
    while let [high, low, after @ ..] = rest {
        bytes.push(joined(*high, *low))?;
        rest = after;
    }
    Ok(Blob::from_vec(bytes))
}

/// 1 to so many bytes in hexadecimal: an even number of digits 0 to 9 and a to f.
pub(crate) fn hex_in(alloc: Global, most: usize, word: &[u8]) -> Result<Blob, ReadLineError>
    requires { most ≤ limits.write_size }
    ensures { Answers (hex_in most word.now) result }
{
    if !is_hex(most, word) {
        return Err(ReadLineError::Bad(BadWhy::Hex));
    }
    Ok(hex_bytes(alloc, word)?)
}

/// The one byte of two hexadecimal digits.
pub(crate) fn byte_of(word: &[u8]) -> Result<u8, BadWhy>
    ensures { result ≡ byte_of word.now }
{
    match word {
        [high, low] if is_hex_digit(*high) && is_hex_digit(*low) => Ok(joined(*high, *low)),
        [_, _] => Err(BadWhy::Hex),
        [] | [_] | [_, _, _, ..] => Err(BadWhy::Hex),
    }
}
