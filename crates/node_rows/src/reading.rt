use cal_base::ClientId;
use cluster_law::ClientInput;
use row_lines::{behind, byte_in, client_in, packet_in, word_of};
use script::{BadWhy, ReadLineError, read_call};
use std::alloc::Global;

/// A line of the input.
#[derive(Debug, Drop)]
pub(crate) enum Line {
    /// The row ends.
    Ends,
    /// This comes to a client.
    Comes(ClientId, ClientInput),
}

/// Reads a line.
pub(crate) fn read_line(alloc: Global, text: &[u8]) -> Result<Line, ReadLineError> {
    if text.is_empty() {
        return Ok(Line::Ends);
    }
    let (word, rest) = word_of(text);
    let client = client_in(word)?;
    let input = read_input(alloc, rest)?;
    Ok(Line::Comes(client, input))
}

/// Reads what comes to a client.
fn read_input(alloc: Global, text: &[u8]) -> Result<ClientInput, ReadLineError> {
    let (word, rest) = word_of(text);
    if word == b"start".as_slice() {
        Ok(ClientInput::Start(read_call(alloc, rest)?))
    } else if word == b"hear".as_slice() {
        read_packet(alloc, rest)
    } else if text == b"tick".as_slice() {
        Ok(ClientInput::Tick)
    } else if word == b"writeback".as_slice() {
        Ok(ClientInput::WriteBack(byte_in(rest)?))
    } else {
        Err(ReadLineError::Bad(BadWhy::Word))
    }
}

/// Reads a packet that ends its line.
fn read_packet(alloc: Global, text: &[u8]) -> Result<ClientInput, ReadLineError> {
    let packet = packet_in(alloc, text)?;
    if behind(6, text).is_empty() {
        Ok(ClientInput::Packet(packet))
    } else {
        Err(ReadLineError::Bad(BadWhy::Count))
    }
}
