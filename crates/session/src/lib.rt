//! One end of a session: numbered messages over a network that loses, repeats and reorders packets.
//!
//! An end is made for a peer and a view (`new`, `peer`, `view`). It sends a message by `send`, which
//! answers the packet to put on the network; hears a packet by `on_packet`, which answers the message
//! that it brought, if that is the next one, and the packets that may now go out; sends its oldest
//! message again by `tick`; and tells the peer what it took by `bare_ack`. `is_quiet` says that nothing
//! waits to be acknowledged, and `is_of_session` whether a packet is heard at all.
//!
//! Messages are numbered from 1 in each direction, at most eight are unacknowledged, and the rest wait.
//! Whatever packets come, as often and in whatever order, what was taken is the beginning of what was
//! sent ([`delivered_is_a_prefix`]). After want of memory an end is as it was.
#![tactic(auto)]

mod body;
mod law;
mod packet;
mod session;

pub use body::Body;
pub use law::delivered_is_a_prefix;
pub use packet::{Packet, Taken};
pub use session::Session;
