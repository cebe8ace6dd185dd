//! That an end of a session sends what the rules of the cluster ask for on its lane, as laws over the
//! definitions of `session` and `cluster_law`. Each law is a public function, and its contract is the law.
//!
//! Whoever follows a node keeps a session for each lane on which the node speaks, and no trace. These laws
//! lead from one to the other:
//! - where nothing was made, taken or acknowledged on a lane, a new session fits it ([`a_session_begins`]);
//! - it goes on fitting (`a_session_goes_on` of `cluster_law`);
//! - a session that fits sends, packet for packet, what the step has to send on the lane
//!   ([`an_end_sends_as_its_lane`]).
//!
//! What a session sends of the bodies that it is handed, and what a heard packet lets out of its queue, is in
//! specs/Speaking.
#![tactic(auto)]

mod law;

pub use law::{a_session_begins, an_end_sends_as_its_lane};
