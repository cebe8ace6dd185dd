//! The text of a run, line by line.
//!
//! - [`put_step`] puts all lines of a step of the cluster: its event, what it wrote, what happened to the
//!   file tree, the packets that it sent, the answer, what blocks the head of a server's line, and a halt.
//!   What isn't in the step itself, as its index, is its [`Place`]. [`put_covered_step`] puts the same lines
//!   for a call that its client answers by itself, out of its parts.
//! - [`put_run`], [`put_refused`], [`put_settled`] and [`put_end`] put the lines that are no step's.
//!
//! Each puts its lines behind a text that the caller has, and says in its one clause which bytes those are.
//! The definitions stand in the specs, one for each kind of line: Calls, Events, Sectors, Entries, Packets,
//! Serving and Runs; Steps has their order. Nothing is copied but into the text, and no memory is taken but
//! for the text.
//!
//! Laws: each line begins with the word of its kind ([`a_step_line_has_its_word`],
//! [`another_line_has_its_word`]), no line of a step has a line feed in it
//! ([`a_step_line_has_no_line_feed`]), and a number is read back from its text ([`a_number_is_read_back`]).
//! What a packet carries is named by its first byte, which is the message's own name wherever the body is
//! one's spelling ([`a_message_has_its_name`]).
#![tactic(auto)]

mod calls;
mod entries;
mod events;
mod laws;
mod packets;
mod runs;
mod sectors;
mod serving;
mod steps;
mod words;

pub use laws::{
    a_message_has_its_name, a_number_is_read_back, a_step_line_has_its_word,
    a_step_line_has_no_line_feed, another_line_has_its_word,
};
pub use runs::{Cause, Settled, put_end, put_refused, put_run, put_settled};
pub use steps::{Place, put_covered_step, put_step};
