//! How a reply is written in the text of a run.
//!
//! - [`put_reply`] puts a reply behind a text, and [`reply_text`] makes the text of one. The definition
//!   stands in specs/Text.antt: `ok` with what the call tells, or the name of the refusal.
//! - [`put`], [`put_bytes`], [`put_number`], [`put_field`], [`put_spaced`] and [`put_hex`] are the pieces
//!   of which lines are made.
//! - The law [`a_text_is_one_reply`] says that a text is the reply of a call in one way only: of the
//!   replies that a tree allows to a call no two are written alike.
#![tactic(auto)]

mod law;
mod putting;
mod replying;

pub use law::a_text_is_one_reply;
pub use putting::{put, put_bytes, put_field, put_hex, put_number, put_spaced};
pub use replying::{put_reply, reply_text};
