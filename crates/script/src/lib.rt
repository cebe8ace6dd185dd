//! Scripts of file calls and of what happens to a cluster, line by line.
//!
//! - [`read_script`] reads a whole script: what it answers is the script of these bytes, and what it
//!   refuses is refused for the first bad line and its first reason ([`BadLine`], [`BadWhy`], in the order
//!   in which reasons are tried).
//! - [`read_line`] reads one line by itself, and [`read_call`] a call without its client. What is read is
//!   a [`Said`], a [`Line`] or a `Call`.
//! - [`number_in`], [`client_in`] and [`are_hex_digits`] read or test one word, for other texts that are
//!   written with the same words.
//! - After want of memory nothing is said of the bytes.
//!
//! The grammar stands in specs/, from below: Lines and Words cut the bytes, Numbers and Places read one
//! word, CallLine and CommandLine a line, Reasons and Script the whole. Each function computes the
//! definition of its name. The laws say that each line has its words and is read back from them, so the
//! grammar can spell every line that it has.
#![tactic(auto)]

mod bad_line;
mod call_line;
mod call_name;
mod command;
mod command_line;
mod laws;
mod line_check;
mod numbers;
mod places;
mod read_error;
mod reading;
mod script;
mod words;

pub use bad_line::{BadLine, BadWhy};
pub use call_line::read_call;
pub use laws::{each_line_has_its_words, what_is_read_has_words};
pub use numbers::{are_hex_digits, number_in};
pub use places::client_in;
pub use read_error::ReadLineError;
pub use reading::{ReadScriptError, read_line, read_script};
pub use script::{How, Line, Said, Script};
