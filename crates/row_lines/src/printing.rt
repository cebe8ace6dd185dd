ghost use Rattle.std.specs.Prelude.{◌<◌};

use cal_base::{Blob, ClientId, Ino, NameList, NodeId, Oom, ServerId};
use session::Packet;
use std::alloc::Global;
use tree_law::{Entry, Reply, Why};

/// Text, line by line. After want of memory it may lack the end of what was put.
#[derive(Drop)]
pub struct Lines {
    alloc: Global,
    bytes: Vec<u8>,
}

impl Lines {
    /// No text.
    pub fn new(alloc: Global) -> Lines {
        Lines {
            alloc,
            bytes: Vec::new(alloc),
        }
    }

    /// The text.
    pub fn as_slice(&self) -> &[u8] {
        self.bytes.as_slice()
    }

    /// Puts words.
    pub fn put(&mut self, words: &str) -> Result<(), Oom> {
        self.put_bytes(words.as_bytes())
    }

    /// Puts words, and a number in decimal behind them.
    pub fn put_field(&mut self, words: &str, number: u64) -> Result<(), Oom> {
        let digits = number.to_string(self.alloc)?;
        self.put(words)?;
        self.put(digits.as_str())
    }

    /// Puts words, and a client behind them.
    pub fn put_client(&mut self, words: &str, client: ClientId) -> Result<(), Oom> {
        self.put(words)?;
        self.put_field("c", u64::from(client.0))
    }

    /// Puts words, and a server behind them.
    pub fn put_server(&mut self, words: &str, server: ServerId) -> Result<(), Oom> {
        self.put(words)?;
        match server {
            ServerId::A => self.put("A"),
            ServerId::B => self.put("B"),
        }
    }

    /// Puts words, and bytes behind them in hexadecimal, two digits each, or a dash where there are none.
    pub fn put_hex(&mut self, words: &str, bytes: &[u8]) -> Result<(), Oom> {
        self.put(words)?;
        if bytes.is_empty() {
            self.put("-")
        } else {
            self.put_digits(bytes)
        }
    }

    /// Puts the lines of packets: `send FROM TO VIEW SEQ ACK BODY`.
    pub fn put_packets(&mut self, packets: &[Packet]) -> Result<(), Oom> {
        for packet in packets {
            self.put_packet(packet)?;
        }
        Ok(())
    }

    /// Puts the line of an entry: `entry call cX N new I reply R`, `entry flush cX I` or `entry purge cX`.
    pub fn put_entry(&mut self, entry: &Entry) -> Result<(), Oom> {
        match entry {
            Entry::Call {
                client,
                number,
                call: _,
                reply,
                new_ino,
            } => self.put_call_entry(*client, *number, *new_ino, reply),
            Entry::Flush { client, ino } => self.put_flush_entry(*client, *ino),
            Entry::Purge { client } => self.put_purge_entry(*client),
        }
    }

    /// Puts a reply, as it is spelled behind the number of its call.
    pub fn put_reply(&mut self, reply: &Reply) -> Result<(), Oom> {
        match reply {
            Reply::Done => self.put("ok"),
            Reply::Fd(fd) => self.put_field("ok ", u64::from(*fd)),
            Reply::Bytes(bytes) => self.put_read_bytes(bytes.as_slice()),
            Reply::Count(count) => self.put_field("ok ", u64::from(*count)),
            Reply::File(size) => self.put_field("ok file ", u64::from(*size)),
            Reply::Dir => self.put("ok dir"),
            Reply::Names(names) => self.put_names(names),
            Reply::Refused(why) => self.put_why(*why),
        }
    }

    /// Puts the line of a step that may not be made: `refused`.
    pub fn put_refused(&mut self) -> Result<(), Oom> {
        self.put("refused\n")
    }

    /// Ends a line, or puts the empty line between two rows.
    pub fn end(&mut self) -> Result<(), Oom> {
        self.put("\n")
    }

    /// Puts bytes as they are.
    fn put_bytes(&mut self, bytes: &[u8]) -> Result<(), Oom> {
        self.bytes.extend_from_slice(bytes)?;
        Ok(())
    }

    /// Puts bytes in hexadecimal.
    fn put_digits(&mut self, bytes: &[u8]) -> Result<(), Oom> {
        for byte in bytes {
            self.bytes.push(hex_digit(*byte / 16))?;
            self.bytes.push(hex_digit(*byte % 16))?;
        }
        Ok(())
    }

    /// Puts words, and a node behind them.
    fn put_node(&mut self, words: &str, node: NodeId) -> Result<(), Oom> {
        match node {
            NodeId::Client(client) => self.put_client(words, client),
            NodeId::Server(server) => self.put_server(words, server),
        }
    }

    /// Puts the line of a packet.
    fn put_packet(&mut self, packet: &Packet) -> Result<(), Oom> {
        self.put_node("send ", packet.from)?;
        self.put_node(" ", packet.to)?;
        self.put_numbers(packet)?;
        self.put_hex(" ", packet.body.as_slice())?;
        self.end()
    }

    /// Puts the view of a packet, its number and what it acknowledges.
    fn put_numbers(&mut self, packet: &Packet) -> Result<(), Oom> {
        self.put_field(" ", packet.view.0)?;
        self.put_field(" ", packet.seq)?;
        self.put_field(" ", packet.ack)
    }

    /// Puts the line of the entry of a call.
    fn put_call_entry(
        &mut self,
        client: ClientId,
        number: u64,
        new_ino: Option<Ino>,
        reply: &Reply,
    ) -> Result<(), Oom> {
        self.put_client("entry call ", client)?;
        self.put_field(" ", number)?;
        self.put_new_inode(new_ino)?;
        self.put(" reply ")?;
        self.put_reply(reply)?;
        self.end()
    }

    /// Puts the new inode of an entry, or a dash where there is none.
    fn put_new_inode(&mut self, new_ino: Option<Ino>) -> Result<(), Oom> {
        match new_ino {
            Some(ino) => self.put_field(" new ", u64::from(ino.0)),
            None => self.put(" new -"),
        }
    }

    /// Puts the line of the entry of a flush.
    fn put_flush_entry(&mut self, client: ClientId, ino: Ino) -> Result<(), Oom> {
        self.put_client("entry flush ", client)?;
        self.put_field(" ", u64::from(ino.0))?;
        self.end()
    }

    /// Puts the line of the entry of a purge.
    fn put_purge_entry(&mut self, client: ClientId) -> Result<(), Oom> {
        self.put_client("entry purge ", client)?;
        self.end()
    }

    /// Puts bytes that were read, behind their count.
    fn put_read_bytes(&mut self, bytes: &[u8]) -> Result<(), Oom> {
        self.put_field("ok ", bytes.len() as u64)?;
        if bytes.is_empty() {
            return Ok(());
        }
        self.put_hex(" ", bytes)
    }

    /// Puts the names of a directory behind their count.
    fn put_names(&mut self, names: &NameList) -> Result<(), Oom> {
        self.put_field("ok ", names.len() as u64)?;
        self.put_spaced(names.as_slice())
    }

    /// Puts each word behind a space.
    fn put_spaced(&mut self, words: &[Blob]) -> Result<(), Oom> {
        for word in words {
            self.put(" ")?;
            self.put_bytes(word.as_slice())?;
        }
        Ok(())
    }

    /// Puts why a call is refused.
    fn put_why(&mut self, why: Why) -> Result<(), Oom> {
        match why {
            Why::Exist => self.put("EEXIST"),
            Why::NoEnt => self.put("ENOENT"),
            Why::NotDir => self.put("ENOTDIR"),
            Why::IsDir => self.put("EISDIR"),
            Why::NotEmpty => self.put("ENOTEMPTY"),
            Why::Inval => self.put("EINVAL"),
            Why::Busy => self.put("EBUSY"),
            Why::MFile => self.put("EMFILE"),
            Why::BadF => self.put("EBADF"),
            Why::FBig => self.put("EFBIG"),
            Why::NoSpace { free, needed } => self.put_no_space(free, needed),
            Why::NoInode => self.put("NOINODE"),
            Why::DirFull => self.put("DIRFULL"),
        }
    }

    /// Puts that fewer blocks are free than are needed.
    fn put_no_space(&mut self, free: u16, needed: u16) -> Result<(), Oom> {
        self.put_field("NOSPACE ", u64::from(free))?;
        self.put_field(" ", u64::from(needed))
    }
}

/// A hexadecimal digit.
fn hex_digit(nibble: u8) -> u8
    requires { nibble < 16 }
{
    if nibble < 10 {
        b'0' + nibble
    } else {
        b'a' + (nibble - 10)
    }
}
