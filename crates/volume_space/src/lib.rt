//! How many data blocks are free after a plan, as laws over the definitions of `volume_edit` and
//! `volume_plan`. Each law is a public function, and its contract is the law.
//!
//! Whoever keeps blocks free for what is still to come needs no history for it: the laws speak of every
//! volume within its grammar whose map fits its pointers.
#![tactic(auto)]

mod law;

pub use law::{a_plan_takes_what_it_needs, a_refused_change_takes_nothing};
