//! Lines of rows: what programs that play steps of nodes read and print alike.
//!
//! - Read is word by word: [`word_of`] cuts the first word off a line and [`behind`] several; [`client_in`],
//!   [`node_in`], [`number_in`], [`byte_in`] and [`bytes_in`] tell what one word says, and [`packet_in`] what six do.
//!   A word of another form is told by the reason for which a script's line is bad.
//! - Printed is into [`Lines`]: words, numbers, bytes, and whole lines for packets and entries.
//! - A [`Failure`] is why such a program ends before its input does.
#![tactic(auto)]

mod failure;
mod printing;
mod reading;

pub use failure::Failure;
pub use printing::Lines;
pub use reading::{behind, byte_in, bytes_in, client_in, node_in, number_in, packet_in, word_of};
