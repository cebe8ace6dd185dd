//! The line of requests at a server, and what it asks clients to give up for the request at its head.
//!
//! A request that comes is put at the end, unless it stands in line already (`push`). A server looks at the
//! `head` and at the holds that block it: those of others, which the token table tells, and those of the
//! caller itself of which a Revoke is unanswered (`put_own`). Where there are any it sends what `to_send`
//! gives, which is nothing where `is_all_asked`, and waits; where there are none it serves the request and
//! takes it out (`pop`). `lowered` notes that a hold went down, `drop_client` that a client is purged, and
//! `asked` tells what is asked of a hold.
//!
//! Requests stand in order of arrival, each once, and each is what a request may be. A hold is asked back
//! once, and again only to a lower mode. After want of memory all is as it was.
#![tactic(auto)]

mod asked;
mod asking;
mod laws;
mod line;
mod owner;

pub use laws::{revokes_go_in_order, what_blocks_is_asked, what_blocks_may_be_asked};
pub use line::{Line, RevokeList};
