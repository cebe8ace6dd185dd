//! A run of the cluster as a value, and its text.
//!
//! - A [`Trace`] is a whole run: how many clients there were, how many of them a server asked at a time after
//!   a takeover, and its items in the order of the text ([`TraceItem`]): the steps, and between them the
//!   events that were refused and the ends of a `settle`.
//! - [`write_trace`] writes its text: the bytes that the definition `text_of` of specs/Texts.antt says.
//!
//! Which runs have a text stands in specs/Traces.antt. What a step's lines tell and the step itself doesn't
//! have, as its index, follows from the items before it: specs/Past.antt.
#![tactic(auto)]

mod counts;
mod trace;
mod writing;

pub use trace::{Trace, TraceItem};
pub use writing::write_trace;
