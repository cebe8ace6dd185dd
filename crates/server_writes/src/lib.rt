//! How the acts of a step come to the disk.
//!
//! A server plans a whole step before its first write. [`count_writes`] tells how much room its writes take, and
//! [`entries_of`] the entries of the history that they make; both before the first write. [`write_acts`] then writes
//! what is committed, commit by commit, in the order of the acts: the blocks that it lays, and its homes in one
//! transaction. It takes no memory. After a halt [`entries_left`] cuts the entries to those that are left, by the
//! writes that the port kept.
//!
//! Promised: the writes are those of the law for these acts, in order, to their end or to a halt; and a port that was
//! armed and keeps its writes ends the step on the disk as the law asks ([`a_step_writes_as_the_law`]).
#![tactic(auto)]

mod counting;
mod entries;
mod laws;
mod writing;

pub use counting::count_writes;
pub use entries::{entries_left, entries_of};
pub use laws::a_step_writes_as_the_law;
pub use writing::write_acts;
