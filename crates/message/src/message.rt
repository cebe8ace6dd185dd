use cal_base::ClientId;
use token_kind::{Flush, GrantItemList, Piece, Release, Revoke};
use tree_law::{Call, Reply, Want};

/// A message between a client and a server.
#[derive(Clone, Debug, Drop, PartialEq, Eq)]
pub enum Message {
    /// To the server: the client wants the tokens of its call of this number.
    Acquire { number: u64, want: Want },
    /// To the client: tokens for its call of this number, in the order of the call's needs.
    Grant { number: u64, items: GrantItemList },
    /// To the client: fewer blocks are free than its call needs.
    Refuse { number: u64, free: u16, needed: u16 },
    /// To the server: a change of the tree.
    Change { number: u64, call: Call },
    /// To the client: the reply of its change.
    Done { number: u64, reply: Reply },
    /// To the server: the unflushed writes to one file.
    Flush(Flush),
    /// To the client: the flush of this number lasts.
    Flushed { number: u64 },
    /// To the client: the server asks for tokens back.
    Revoke(Revoke),
    /// To the server: the client gives tokens back.
    Release(Release),
    /// To the client: a server that collects asks what the client holds.
    Ask,
    /// To the server: a piece of the report of what the client holds.
    Piece(Piece),
    /// To the client: its call has to wait for this client.
    Wait { number: u64, client: ClientId },
    /// To the client: the server has all reports, and serves.
    Admit,
}
