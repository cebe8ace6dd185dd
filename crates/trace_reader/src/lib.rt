//! The text of a run, read back as the run.
//!
//! - [`read_trace`] reads a whole text: it gives the run that has this text, and [`ReadTraceError::BadTrace`]
//!   exactly where no run has it.
//!
//! A line is read by the crate trace_lines; what it adds to what was read before stands in specs/Adding.antt
//! and specs/Taking.antt. An entry's line doesn't tell its call: it is the call that its client has started
//! under that number, and is looked up by both. At the end the run's own text is compared with what was read,
//! so that each number, and the order of the lines in a step, is as it has to be.
#![tactic(auto)]

mod adding;
mod bodies;
mod calls;
mod events;
mod lines;
mod read_error;
mod reading;
mod taking;
mod totals;
mod whole;

pub use read_error::ReadTraceError;
pub use whole::read_trace;
