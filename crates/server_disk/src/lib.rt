//! How a planned step is carried out on the disk.
//!
//! All memory is taken first: the entries, a list for the writes that the disk accepts, and room on the disk. Then
//! what the acts commit is written, in order, to its end or to a halt ([`carry_out`]).
//!
//! Promised: want of memory leaves the disk as it was, its room apart. Else the writes, the entries, the disk and the
//! cause of a halt are what the law of the cluster says of these acts (`Carries`, specs/Carrying).
#![tactic(auto)]

mod carrying;

pub use carrying::{Carried, carry_out};
