//! The replies of changes in bytes, as messages and client slots carry them.
//!
//! - `put_reply` puts one byte, and behind an 11, want of blocks, two numbers of two bytes.
//! - `take_reply` takes a reply from the front of bytes, exactly where one stands there: `Short` where
//!   bytes are missing, `Unknown` where no reply begins so.
//!
//! Each reply of a change has one spelling, of 1 or 5 bytes, and none begins another (the laws
//! `one_or_five` and `one_spelling`).
#![tactic(auto)]

mod law;
mod put;
mod take;

pub use law::{one_or_five, one_spelling};
pub use put::put_reply;
pub use take::{BadReply, take_reply};
