//! How a server that takes over collects what clients hold, and what it knows of their holds since.
//!
//! It takes its room before it knows the disk (`new`), and lists the clients that may hold something
//! (`list`). It asks a few at a time, the least first (`next_to_ask`); takes their reports piece by piece,
//! each hold judged by the client's last committed flush (`fits`, `take_piece`); takes releases and purges
//! all the while (`release`, `lower`, `purge`); and is admitted once no client is `missing` (`phase`).
//! From then on it grants (`grant`) over the same `table`; `standing` still answers whose report is whole.
//!
//! As many clients are asked as the window says. A piece fits exactly where it is the next one of a client
//! that was asked and no hold of it conflicts with what another client reported. A request waits exactly
//! while a client is missing. After want of memory all is as it was.
#![tactic(auto)]

mod collect;
mod judged;
mod phase;
mod reporting;

pub use collect::Collect;
pub use judged::judged_hold;
pub use phase::Phase;
pub use reporting::Reporting;
