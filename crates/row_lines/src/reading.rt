ghost use Rattle.std.specs.Prelude.{◌<◌, IfOk};

use cal_base::{CLIENTS, ClientId, NodeId, Oom, ServerId, View, cut_at};
use script::{BadWhy, ReadLineError};
use session::{Body, Packet};
use std::alloc::Global;

/// The first word of a text, and what stands behind the space that ends it.
pub fn word_of(text: &[u8]) -> (&[u8], &[u8]) {
    let (word, rest) = cut_at(text, b' ');
    (word, rest.unwrap_or(&[]))
}

/// What stands behind so many words of a text.
pub fn behind(count: u8, text: &[u8]) -> &[u8] {
    let mut rest = text;
    for _word in 0..count {
        (_, rest) = word_of(rest);
    }
    rest
}

/// Reads the packet of the first six words of a text: `FROM TO VIEW SEQ ACK BODY`, its body in hexadecimal, or `-`
/// for none.
pub fn packet_in(alloc: Global, text: &[u8]) -> Result<Packet, ReadLineError> {
    let (from, text) = word_of(text);
    let (to, text) = word_of(text);
    let (view, text) = word_of(text);
    let (seq, text) = word_of(text);
    let (ack, text) = word_of(text);
    let (body, _) = word_of(text);
    Ok(Packet {
        from: node_in(from)?,
        to: node_in(to)?,
        view: View(number_in(view)?),
        seq: number_in(seq)?,
        ack: number_in(ack)?,
        body: body_in(alloc, body)?,
    })
}

/// A node: `c0` to `c15`, `A` or `B`.
pub fn node_in(word: &[u8]) -> Result<NodeId, BadWhy> {
    if word == b"A".as_slice() {
        Ok(NodeId::Server(ServerId::A))
    } else if word == b"B".as_slice() {
        Ok(NodeId::Server(ServerId::B))
    } else {
        Ok(NodeId::Client(client_in(word)?))
    }
}

/// A client: `c0` to `c15`.
pub fn client_in(word: &[u8]) -> Result<ClientId, BadWhy> {
    let [b'c', number @ ..] = word else {
        return Err(BadWhy::Word);
    };
    let number = byte_in(number)?;
    if number < CLIENTS {
        Ok(ClientId(number))
    } else {
        Err(BadWhy::Word)
    }
}

/// A number in decimal, below 256.
pub fn byte_in(word: &[u8]) -> Result<u8, BadWhy> {
    u8::try_from(number_in(word)?).or(Err(BadWhy::Number))
}

/// A number in decimal, below 2^64.
pub fn number_in(word: &[u8]) -> Result<u64, BadWhy> {
    str::from_utf8(word)
        .unwrap_or("")
        .parse::<u64>()
        .or(Err(BadWhy::Number))
}

/// The body of a packet.
fn body_in(alloc: Global, word: &[u8]) -> Result<Body, ReadLineError> {
    if word == b"-".as_slice() {
        return Ok(Body::empty());
    }
    if word.is_empty() {
        return Err(ReadLineError::Bad(BadWhy::Count));
    }
    Ok(Body::new(alloc, bytes_in(alloc, word)?)?)
}

/// Bytes in hexadecimal, two digits each, 0 to 9 and a to f.
pub fn bytes_in(alloc: Global, digits: &[u8]) -> Result<Vec<u8>, ReadLineError> {
    let mut bytes = Vec::new(alloc);
    for pair in digits.chunks(2) {
        put_byte(&mut bytes, pair)?;
    }
    Ok(bytes)
}

/// Puts the byte of two hexadecimal digits behind others.
fn put_byte(bytes: &mut Vec<u8>, pair: &[u8]) -> Result<(), ReadLineError> {
    match pair {
        [high, low] => {
            push(bytes, digit_in(*high)? * 16 + digit_in(*low)?)?;
            Ok(())
        }
        [] | [_] | [_, _, _, ..] => Err(ReadLineError::Bad(BadWhy::Hex)),
    }
}

/// Puts a byte behind others.
fn push(bytes: &mut Vec<u8>, byte: u8) -> Result<(), Oom> {
    bytes.push(byte)?;
    Ok(())
}

/// The value of a hexadecimal digit.
fn digit_in(digit: u8) -> Result<u8, BadWhy>
    ensures { IfOk result (λ value. value < 16) }
{
    match digit {
        b'0'..=b'9' => Ok(digit - b'0'),
        b'a'..=b'f' => Ok(digit - b'a' + 10),
        _ => Err(BadWhy::Hex),
    }
}
