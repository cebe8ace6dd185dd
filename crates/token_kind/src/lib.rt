//! Tokens, and the records that clients and servers hand one another.
//!
//! A [`Token`] is a [`Hold`] (none, Read or Write) of a [`Class`] (Names, Data, Attr or Open) on an inode.
//! [`conflicts`] tells whether holds of two clients may stand together: a Write conflicts with any hold of
//! another client in its class on that inode, and nothing else conflicts. [`Hold::is_above`] and
//! [`Hold::lesser`] order holds, and each `number` and `from_number` is the byte in a message; each of
//! these answers as its definition in specs/Class.antt and specs/Hold.antt says.
//!
//! The records are moved by the crates above. What of them the system sends is said here once: `IsFlush`
//! in specs/Flush.antt, `IsRevoke` and `IsRelease` in specs/Kept.antt, `IsReported` in specs/Token.antt.
//! `IsFlushed` says which contents a flush turns what is kept into, and [`one_flushed`] that there is one
//! such contents alone.
#![tactic(auto)]

mod block;
mod blocker;
mod class;
mod content;
mod flush;
mod grant_item;
mod hold;
mod law;
mod piece;
mod release;
mod reported;
mod revoke;
mod token;

pub use block::Block;
pub use blocker::{Blocker, BlockerList};
pub use class::Class;
pub use content::Content;
pub use flush::{Flush, PieceList};
pub use grant_item::{GrantItem, GrantItemList};
pub use hold::{Hold, conflicts};
pub use law::one_flushed;
pub use piece::{Piece, ReportedList};
pub use release::{HoldList, Release};
pub use reported::Reported;
pub use revoke::Revoke;
pub use token::{Token, TokenList};
