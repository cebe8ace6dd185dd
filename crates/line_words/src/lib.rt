//! The words of a line, one space between each two, and what they are read as.
//!
//! What is left of a line is the text behind a space, if there is one ([`next_word`]): no list of words is
//! made. [`first_client`], [`first_number`] and [`behind_word`] read the first word and answer those behind
//! it; [`last_client`] reads the one word that is left. [`client_of`], [`node_of`], [`number_of`],
//! [`number_to`] and [`read_hex`] read a word alone, and [`read_call_of`] a call. Words that are something
//! else are outside their form ([`OutOfForm`]).
//!
//! Each function computes the definition of its name: Words in specs/ cuts a line, Places and Values say
//! what has to stand at a place.
#![tactic(auto)]

mod places;
mod read_error;
mod values;
mod words;

pub use places::{client_of, number_of, read_call_of};
pub use read_error::{OutOfForm, ReadWordsError};
pub use values::{node_of, number_to, read_hex};
pub use words::{behind_word, first_client, first_number, last_client, next_word};
