//! What comes next in a run: the lines of a script one after the other, and the turns of a `settle`.
//!
//! - [`Schedule::next`] chooses what comes next ([`Choice`]): an event of the cluster, or a line that tells of none.
//!   It looks at the cluster as it stands, and changes nothing of it.
//! - [`Schedule::note`] takes notice of a step that was made of the event: which packets wait on the links now, and
//!   what is left of the stops that are armed.
//! - [`settle_budget`] is how many steps a `settle` may make.
//!
//! What each line means stands in specs/Lines, a `settle` in specs/Settling, a step that was made in specs/Noted, and
//! the stops that are armed on servers in specs/Stops. That a run of so many lines ends is said by counting turns
//! (specs/Turns): each choice leaves fewer of them.
#![tactic(auto)]

mod budget;
mod choice;
mod due;
mod lines;
mod noting;
mod schedule;
mod settling;
mod stops;

pub use budget::settle_budget;
pub use choice::{Choice, Phase, Settle};
pub use schedule::Schedule;
