//! The thirteen messages between clients and servers, in bytes.
//!
//! [`encode`] writes the one spelling of a message that is within the grammar (`IsMessage` in
//! specs/Range.antt). [`encode_acquire`], [`encode_change`] and [`encode_flush`] write the same bytes of
//! a want, a call or a flush that stays with the client, since it may have to send it again.
//!
//! [`decode`] reads all of the bytes that a packet carries. It gives a message exactly where the bytes
//! are one's spelling; any other bytes are `BadMessage`, with the place of the first byte of the first
//! field that is wrong. Both directions are laws: [`read_again`] and [`one_spelling`].
//!
//! Fields are read from the left, each by a definition of its own (specs/Reading.antt, Field.antt,
//! Names.antt, Tokens.antt, Bodies.antt), and spelled by specs/Spelling.antt.
#![tactic(auto)]

mod calls;
mod encode_message;
mod field;
mod input;
mod law;
mod message;
mod names;
mod put;
mod read;
mod stop;
mod tokens;

pub use encode_message::{encode, encode_acquire, encode_change, encode_flush};
pub use law::{one_spelling, read_again};
pub use message::Message;
pub use read::{DecodeError, decode};
