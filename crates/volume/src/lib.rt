//! The volume of the file system on the shared disk: its head, its format, and when its sectors stand
//! for a history of the file tree.
//!
//! - `read_head` answers the count of clients exactly where a sector is a head, and `write_head` is its
//!   one spelling (`one_head`).
//! - `format` writes a volume on which nothing has happened yet, the head last: a root directory without
//!   entries, and all else free. Afterwards the sectors stand for the empty history and the gate is
//!   closed (`a_format_stands_for_no_history`), in 531 writes (`a_format_is_531_writes`).
//! - `Stands` in the specs says when sectors stand for a history; they spell one volume at most
//!   (`one_volume`).
#![tactic(auto)]

mod formats;
mod head;
mod law;
mod writes;

pub use formats::{a_format_is_531_writes, a_format_stands_for_no_history, format};
pub use head::{BadHead, read_head, write_head};
pub use law::{one_head, one_volume};
