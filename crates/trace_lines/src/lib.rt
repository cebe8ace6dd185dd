//! One line of the text of a run, read back as what it tells.
//!
//! - [`read_trace_line`] reads a line of a step, or one between steps, as a [`TraceLine`].
//! - [`read_run_line`] reads the first line of a run, and [`read_end_line`] its last.
//!
//! What is read is within the limits of its line, and the line of each value within these limits is read
//! as this value. So a line tells one thing. The texts of replies are handed on as they are written, since
//! they are read only with their calls.
//!
//! How a line is written and what it can tell stands in specs/Lines and Limits, what a reader answers in
//! Reading. The grammar that the functions compute stands below: Places and Sectors say what stands at a
//! place, Events and Grammar read the whole.
#![tactic(auto)]

mod events;
mod line;
mod lines;
mod names;
mod places;
mod reading;
mod sectors;
mod words;

pub use line::{StepEvent, TraceLine};
pub use reading::{read_end_line, read_run_line, read_trace_line};
