//! Tests of the wire's crates, over their public calls: bodies of messages, members, reports and sessions.
#![tactic(auto)]

#[cfg(test)]
mod joining;
#[cfg(test)]
mod message_bodies;
#[cfg(test)]
mod reports;
#[cfg(test)]
mod sessions;
