ghost use Rattle.std.specs.Prelude.{◌≤◌, IfOk};
ghost use Rattle.cal_base.specs.Limits as limits;

use cal_base::{BLOCK_SIZE, CLIENTS, ClientId, NodeId, Sector, ServerId, View, WINDOW};
use cluster_law::ServerInput;
use row_lines::{behind, byte_in, bytes_in, node_in, number_in, packet_in, word_of};
use script::{BadWhy, ReadLineError};
use shared_disk::Stop;
use std::alloc::Global;

/// A line of the input.
#[derive(Drop)]
pub(crate) enum Line {
    /// The row ends.
    Ends,
    /// A disk is formatted.
    Format(Format),
    /// This happens to the servers on the disk.
    Happens(Happening),
}

/// A format.
#[derive(Clone, Copy)]
pub(crate) struct Format {
    /// How many clients there are, 1 to 16.
    pub(crate) clients: u8,
    /// How many clients are asked for reports at a time, 1 to 8.
    pub(crate) window: u8,
    ghost some: { 1 ≤ clients },
    ghost few: { clients ≤ limits.clients },
}

/// What happens to the servers of a disk.
#[derive(Drop)]
pub(crate) enum Happening {
    /// A server boots.
    Boot(Boot),
    /// A packet or a tick comes to a server.
    Comes(Comes),
    /// A server ends.
    ServerCrash(ServerId),
    /// A client ends.
    ClientCrash(ClientId),
    /// A client is declared gone.
    Gone(ClientId),
}

/// A boot, up to a stop if there is one.
#[derive(Clone, Copy)]
pub(crate) struct Boot {
    pub(crate) server: ServerId,
    pub(crate) view: View,
    /// How many clients are asked for reports at a time, 1 to 8.
    pub(crate) window: u8,
    pub(crate) stop: Option<Stop>,
}

/// What comes to a server, up to a stop if there is one.
#[derive(Drop)]
pub(crate) struct Comes {
    pub(crate) server: ServerId,
    pub(crate) input: ServerInput,
    pub(crate) stop: Option<Stop>,
}

/// Reads a line.
pub(crate) fn read_line(alloc: Global, text: &[u8]) -> Result<Line, ReadLineError> {
    if text.is_empty() {
        return Ok(Line::Ends);
    }
    let (node, rest) = word_of(text);
    match node_in(node)? {
        NodeId::Client(client) => Ok(Line::Happens(client_happening(client, rest)?)),
        NodeId::Server(server) => server_line(alloc, server, rest),
    }
}

/// Reads a format, which server A makes, or what happens to a server.
fn server_line(alloc: Global, server: ServerId, text: &[u8]) -> Result<Line, ReadLineError> {
    let (word, rest) = word_of(text);
    if server == ServerId::A && word == b"format".as_slice() {
        Ok(Line::Format(read_format(rest)?))
    } else {
        Ok(Line::Happens(server_happening(alloc, server, text)?))
    }
}

/// Reads a format.
fn read_format(text: &[u8]) -> Result<Format, BadWhy> {
    let (clients, window) = word_of(text);
    Ok(Format {
        clients: count_in(clients, CLIENTS)?,
        window: count_in(window, WINDOW)?,
    })
}

/// Reads what happens to a client.
fn client_happening(client: ClientId, text: &[u8]) -> Result<Happening, BadWhy> {
    if text == b"crash".as_slice() {
        Ok(Happening::ClientCrash(client))
    } else if text == b"gone".as_slice() {
        Ok(Happening::Gone(client))
    } else {
        Err(BadWhy::Word)
    }
}

/// Reads what happens to a server.
fn server_happening(
    alloc: Global,
    server: ServerId,
    text: &[u8],
) -> Result<Happening, ReadLineError> {
    let (word, rest) = word_of(text);
    if word == b"hear".as_slice() {
        Ok(Happening::Comes(read_hearing(alloc, server, rest)?))
    } else if word == b"tick".as_slice() {
        Ok(Happening::Comes(read_tick(alloc, server, rest)?))
    } else if word == b"boot".as_slice() {
        Ok(Happening::Boot(read_boot(alloc, server, rest)?))
    } else if text == b"crash".as_slice() {
        Ok(Happening::ServerCrash(server))
    } else {
        Err(ReadLineError::Bad(BadWhy::Word))
    }
}

/// Reads a packet.
fn read_hearing(alloc: Global, server: ServerId, text: &[u8]) -> Result<Comes, ReadLineError> {
    Ok(Comes {
        server,
        input: ServerInput::Packet(packet_in(alloc, text)?),
        stop: stop_in(alloc, behind(6, text))?,
    })
}

/// Reads a tick.
fn read_tick(alloc: Global, server: ServerId, text: &[u8]) -> Result<Comes, ReadLineError> {
    Ok(Comes {
        server,
        input: ServerInput::Tick,
        stop: stop_in(alloc, text)?,
    })
}

/// Reads a boot.
fn read_boot(alloc: Global, server: ServerId, text: &[u8]) -> Result<Boot, ReadLineError> {
    let (view, text) = word_of(text);
    let (window, text) = word_of(text);
    Ok(Boot {
        server,
        view: View(number_in(view)?),
        window: count_in(window, WINDOW)?,
        stop: stop_in(alloc, text)?,
    })
}

/// A number from 1 to the most.
fn count_in(word: &[u8], most: u8) -> Result<u8, BadWhy>
    ensures { IfOk result (λ count. (1 ≤ count) × (count ≤ most)) }
{
    let count = byte_in(word)?;
    if count >= 1 && count <= most {
        Ok(count)
    } else {
        Err(BadWhy::Number)
    }
}

/// Reads a stop, if there is one.
fn stop_in(alloc: Global, text: &[u8]) -> Result<Option<Stop>, ReadLineError> {
    if text.is_empty() {
        return Ok(None);
    }
    let (word, text) = word_of(text);
    if word != b"stop".as_slice() {
        return Err(ReadLineError::Bad(BadWhy::Word));
    }
    let (after, how) = word_of(text);
    Ok(Some(Stop {
        after: writes_in(after)?,
        torn: how_in(alloc, how)?,
    }))
}

/// A count of writes, below 2^32.
fn writes_in(word: &[u8]) -> Result<u32, BadWhy> {
    u32::try_from(number_in(word)?).or(Err(BadWhy::Number))
}

/// What a stop leaves of the next write, if that is begun.
fn how_in(alloc: Global, word: &[u8]) -> Result<Option<Sector>, ReadLineError> {
    if word == b"clean".as_slice() {
        Ok(None)
    } else if word == b"-".as_slice() {
        Ok(Some([0; BLOCK_SIZE]))
    } else {
        let bytes = bytes_in(alloc, word)?;
        Ok(Some(sector_of(bytes.as_slice())?))
    }
}

/// The sector that begins with these bytes, of which there are some, and has zeros behind them.
fn sector_of(bytes: &[u8]) -> Result<Sector, BadWhy> {
    if bytes.is_empty() || bytes.len() > BLOCK_SIZE {
        return Err(BadWhy::Hex);
    }
    let mut sector = [0; BLOCK_SIZE];
    sector[..bytes.len()].copy_from_slice(bytes);
    Ok(sector)
}
