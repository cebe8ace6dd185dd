use cal_base::{Blob, ClientId, Ino};
use tree_law::Call;

/// What a line of a text tells of its history.
#[derive(Debug, Drop)]
pub enum Told {
    /// A client starts its call of this number.
    Starts {
        client: ClientId,
        number: u64,
        call: Call,
    },
    /// The entry of a call, with its new inode and its reply as it is written.
    Enters {
        client: ClientId,
        number: u64,
        new_ino: Option<Ino>,
        reply: Blob,
    },
    /// The entry of a flush.
    Flushes {
        client: ClientId,
        ino: Ino,
    },
    /// The entry of a purge.
    Purges {
        client: ClientId,
    },
    /// A client's call of this number is answered, with a reply as it is written.
    Answers {
        client: ClientId,
        number: u64,
        reply: Blob,
    },
}
