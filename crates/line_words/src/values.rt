ghost use Rattle.std.specs.Prelude.{◌≡◌, ◌≤◌, ◌+◌, ◌*◌, ◌<◌, true, IfOk};
ghost use Rattle.std.specs.List.{list_all};
ghost use Rattle.line_words.specs.Outcome.{Answers};
ghost use Rattle.line_words.specs.Values.{number_to, node_of, is_hex, hex_of};
ghost use Rattle.script.specs.Numbers.{is_hex_digit, nibble, hex_bytes};

use crate::places::client_of;
use crate::read_error::{OutOfForm, ReadWordsError};
use cal_base::{Blob, NodeId, Oom, ServerId};
use script::{are_hex_digits, number_in};
use std::alloc::Global;

/// A number up to a limit: `0`, or digits without a leading 0.
pub fn number_to(most: u64, word: &[u8]) -> Result<u64, OutOfForm>
    ensures said { result ≡ number_to most word.now }
    ensures within { IfOk result (λ number. number ≤ most) }
{
    match number_in(0, most, word) {
        Ok(number) => Ok(number),
        Err(_) => Err(OutOfForm),
    }
}

/// A node: `c0` to `c15`, `A` or `B`.
pub fn node_of(word: &[u8]) -> Result<NodeId, OutOfForm>
    ensures { result ≡ node_of word.now }
{
    if word == b"A".as_slice() {
        Ok(NodeId::Server(ServerId::A))
    } else if word == b"B".as_slice() {
        Ok(NodeId::Server(ServerId::B))
    } else {
        let client = client_of(word)?;
        Ok(NodeId::Client(client))
    }
}

/// The value of a hexadecimal digit.
fn nibble(digit: u8) -> u8
    requires { is_hex_digit digit ≡ true }
    ensures value { result ≡ nibble digit }
    ensures half { result < 16 }
{
    if digit <= b'9' {
        digit - b'0'
    } else {
        digit - 87
    }
}

/// The byte of two hexadecimal digits, the high half first.
fn joined(high: u8, low: u8) -> u8
    requires high { is_hex_digit high ≡ true }
    requires low { is_hex_digit low ≡ true }
    ensures { result ≡ nibble high * 16 + nibble low }
{
    nibble(high) * 16 + nibble(low)
}

/// The bytes of hexadecimal digits.
fn hex_bytes(alloc: Global, word: &[u8]) -> Result<Blob, Oom>
    requires { list_all is_hex_digit word.now ≡ true }
    ensures { IfOk result (λ bytes. bytes ≡ hex_bytes word.now) }
{
    let mut bytes = Vec::with_capacity(alloc, word.len() / 2)?;
    let mut rest = word;
    while let [high, low, after @ ..] = rest {
        bytes.push(joined(*high, *low))?;
        rest = after;
    }
    Ok(Blob::from_vec(bytes))
}

/// Whether a word is two hexadecimal digits for each byte.
fn is_hex(word: &[u8]) -> bool
    ensures { result ≡ is_hex word.now }
{
    are_hex_digits(word) && word.len() % 2 == 0
}

/// Bytes, or none, in hexadecimal: an even number of digits 0 to 9 and a to f.
pub fn read_hex(alloc: Global, word: &[u8]) -> Result<Blob, ReadWordsError>
    ensures { Answers (hex_of word.now) result }
{
    if !is_hex(word) {
        return Err(ReadWordsError::Form);
    }
    Ok(hex_bytes(alloc, word)?)
}
