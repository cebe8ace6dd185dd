//! How a command ends, and how it prints.
//!
//! - A command ends with a [`Status`], whose `code` is the exit status of a program. All commands share
//!   them; what each means is said by the command's own clause, by cases on the status.
//! - [`print`] prints a text with room for all of it taken first, line by line, or tells why it didn't
//!   ([`PrintError`]); [`status_of`] is how a command ends whose text isn't printed.
//!
//! For the clauses of commands, specs/Taking.antt says what was taken of a source, Printing what printing
//! comes to, and Edge what a command read and wrote.
#![tactic(auto)]

mod printout;
mod status;

pub use printout::{PrintError, print};
pub use status::{Status, status_of};
