//! The lines of the text of a run, read as what they tell of its history.
//!
//! - [`read_told`] reads one line: the start of a call, an entry, an answer, or nothing of the history; or
//!   it tells that the line is outside its form ([`ReadWordsError`]).
//!
//! The grammar stands in specs/, from below, over the words of `line_words`: Places and Replies say what
//! has to stand at a place, Telling reads the line. Each function computes the definition of its
//! name. Spelling says which words a line has that tells this or that; the laws say that they are read
//! back, and that what is read is within the limits of its places.
#![tactic(auto)]

mod laws;
mod places;
mod reading;
mod replies;

pub use laws::{each_telling_has_its_line, what_is_told_is_within_limits};
pub use reading::read_told;
