//! A client beside its session: what it does with what comes, and the messages that it makes.
//!
//! A [`Client`] has a cache of files with the Revokes that wait behind flushes, counts its calls, and knows its
//! outstanding call with the request for it, and whether it is moving from one server to another.
//! [`Client::start`] starts a call, [`Client::take`] takes a message, and [`Client::write_back`] flushes a file.
//! Each answers what the step made ([`Made`]): the bodies of its messages in the order in which they are to
//! be numbered, and the outstanding call, if it is finished, with its reply.
//!
//! Promised: the client after a step is `value_after` of the client before it, the messages are `messages_in`,
//! and the reply is `reply_at`, the definitions that keep the law of the cluster.
//!
//! A call owes that numbers are left: fewer than 2^63 calls were started, and the flushes so far and the waiting Revokes
//! together are fewer than 2^63. After want of memory nothing is promised of a client: whoever has it drops it.
#![tactic(auto)]

mod client;
mod made;
mod sending;
mod spelled;
mod taking;
mod trying;

pub use client::Client;
pub use made::{Finished, Made};
pub use spelled::is_call;
pub use trying::is_change;
