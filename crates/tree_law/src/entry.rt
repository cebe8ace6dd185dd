use crate::call::Call;
use crate::reply::Reply;
use cal_base::{ClientId, Ino};

/// An entry of a history: what happened to the file tree.
#[derive(Clone, Debug, Drop, PartialEq, Eq)]
pub enum Entry {
    /// A client's call was carried out, with this reply.
    Call {
        client: ClientId,
        /// The number of the call, from 1 for each client.
        number: u64,
        call: Call,
        reply: Reply,
        /// The inode that the call made.
        new_ino: Option<Ino>,
    },
    /// What a client wrote to a file since its last flush now lasts.
    Flush {
        client: ClientId,
        ino: Ino,
    },
    /// A crashed client's unflushed writes and its descriptors go, and it never returns.
    Purge {
        client: ClientId,
    },
}
