//! A server's mail in one step: what it hears of its clients, and how its acts go out.
//!
//! - [`hear`] gives a packet to the session of its client, and tells the message that it brings; a client whose
//!   purge is marked in the volume is not heard.
//! - [`resend_all`] sends the oldest message of each session again that isn't acknowledged, but to purged clients.
//! - [`send_acts`] sends the messages of a step's acts, in order.
//! - [`acknowledge`] acknowledges the packet that was heard by itself, where nothing else goes to its client.
//!
//! Promised, of each client apart: its session, and the packets that the step sends to it, after each of the four
//! (specs/Step). The sessions stay those of the server and the view, and all packets go from that server, in that
//! view, to clients of the cluster; so those on the lane of a client are those to the client
//! ([`a_lane_has_what_goes_to_its_client`]). What a step sends to one client is the repeated packet of a tick or
//! those that an acknowledgement lets out, then the messages that its acts make for that client, then a bare
//! acknowledgement if one is owed ([`what_is_heard_is_owed`]) and nothing else goes. For those who count the steps of
//! a session, [`no_client_is_told_more_than_is_done`].
//!
//! After want of memory nothing is promised of the sessions and packets: a server is spent then.
#![tactic(auto)]

mod acknowledging;
mod hearing;
mod laws;
mod resending;
mod sending;

pub use acknowledging::acknowledge;
pub use hearing::{FromClient, Heard, hear, takes};
pub use laws::{
    a_lane_has_what_goes_to_its_client, no_client_is_told_more_than_is_done, what_is_heard_is_owed,
};
pub use resending::resend_all;
pub use sending::send_acts;
