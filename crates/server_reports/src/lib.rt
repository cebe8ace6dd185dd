//! How a server collects what clients hold.
//!
//! A server that takes over asks clients for their reports, as many as the window lets be asked at a time
//! ([`ask_clients`]), and lets a request that comes meanwhile wait, naming the least client that is missing
//! ([`answer_wait`]). In the step after which nobody is missing any longer it admits all whose reports are whole
//! ([`admit_clients`]). What each step does of this at its end is [`collect`].
//!
//! Promised: a draft that follows the law's server does so afterwards, and what a step owes is put to it: none
//! is left to be asked, none that may be admitted waits for its Admit, and a request that waits is told so, once.
//! Nothing else is told and nothing is removed (`TellsOnly`, specs/Reports), and nothing else changes of what the
//! server knows.
#![tactic(auto)]

mod admitting;
mod collecting;
mod waiting;

pub use admitting::admit_clients;
pub use collecting::{ask_clients, collect};
pub use waiting::answer_wait;
