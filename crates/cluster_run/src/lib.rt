//! The run of a script, from the bytes that come in to the bytes that go out.
//!
//! - [`run_cluster`] runs the command of some words over a source, a sink and a disk, and answers a `Status`, whose
//!   `code` is the exit status of a program. Its one clause, `ends`, says for each status what was read and printed,
//!   and what is left of the disk; specs/Run.antt has it by cases.
//! - A run goes turn by turn (specs/Turns): what comes next is chosen from the lines of the script and the rule of
//!   `settle`, and an event of the cluster is made as the machines of its nodes promise, or refused for its first
//!   reason. What is printed is the text of these turns, and nothing else (specs/Items, Following).
//!
//! The run reads the script whole, lets server A format the disk, and prints a turn's lines only once there is room
//! for all of them.
#![tactic(auto)]

mod cluster;
mod laws;
mod reading;
mod run;
mod text;

pub use cluster::run_cluster;
pub use laws::a_good_script_is_run;
