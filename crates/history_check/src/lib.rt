//! The judgement of a history that was printed: whether the lines of a text tell of one that is legal.
//!
//! - A [`Told`] is what one line tells: a client starts a call, a call is carried out, a flush, a purge,
//!   an answer. Replies stand in it as they are written.
//! - A [`Judge`] takes the lines of a text one by one, from the first, and refuses the first that doesn't
//!   fit. It keeps one file tree, and for each client where its last call stands: a line costs what the
//!   tree costs, however long the text is.
//! - Which lines fit, and which history they tell, stands in specs/Fits.antt as `FitTo`; specs/Lines.antt
//!   has what lines tell of one call. `Judge::take` decides it exactly.
//! - The laws say what a text that fits shows: [`what_fits_is_legal`], [`each_call_is_carried_out_once`]
//!   and [`a_text_has_one_history`].
//!
//! Whoever reads a text makes a [`Judge`], hands it what each line tells, and ends at the first refusal.
#![tactic(auto)]

mod judge;
mod laws;
mod reading;
mod standing;
mod told;

pub use judge::{Judge, TakeError};
pub use laws::{a_text_has_one_history, each_call_is_carried_out_once, what_fits_is_legal};
pub use told::Told;
