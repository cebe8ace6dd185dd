//! How a server plans a step: it takes what comes, collects, and serves its line, all before the first write.
//!
//! Promised ([`plan_step`]): from each server of the law that holds the same and has the same volume, the acts of
//! the step are as the law asks, each where it stands; what is owed at the end of a step is done; and the server that
//! is planned is the law's then (`IsPlanned`, specs/Turn). Where a block can't be read the acts planned by then are as
//! the law asks, and the head of the line would read one (`IsRefused`). What a client is told, and the requests that
//! wait at the end, are together at most 2,048 more than the requests that waited before (`few`).
#![tactic(auto)]

mod planning;

pub use planning::{Planned, plan_step};
