//! The judgement of a printed text, from the bytes that come in to the line that goes out.
//!
//! - [`run_judge`] judges the text that a source has, with the one word `judge`, and answers the status of
//!   a command. Its one clause, `ends`, says for each status what was read and what was printed;
//!   specs/Judged.antt has it by cases, Texts says what a text of good lines is, and Verdicts what is found.
//! - `legal` comes where the text was read to its end, each line is good, and what the lines tell fits to a
//!   history. `illegal` and `BadText` name the first line with which it doesn't.
//!
//! A text is read in pieces of 65,536 bytes. Nothing of it is kept but the piece that was read last, the
//! front of a line that goes over pieces, and the judge.
#![tactic(auto)]

mod command;
mod judging;
mod long_line;
mod pieces;
mod text_judge;
mod verdict;

pub use command::run_judge;
