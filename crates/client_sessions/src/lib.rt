//! The sessions of a server with its clients: a lower layer of the server's machine.
//!
//! [`ClientSessions`] has one end of a session with each of the 16 clients of a view, and the packets that a step
//! sends, in order. A packet is heard in the session of its sender ([`ClientSessions::hears`],
//! [`ClientSessions::hear`]); a message is numbered and kept by the session of its client
//! ([`ClientSessions::send`]), sent again ([`ClientSessions::resend`]) until it is acknowledged, and what was
//! taken is acknowledged by itself ([`ClientSessions::acknowledge`]) where no packet goes to that client
//! ([`ClientSessions::has_sent`]). [`ClientSessions::replace`] puts another session in the place of a client's, and
//! takes back what the step sends to that client. [`ClientSessions::take_sent`] hands on the packets of the step.
//!
//! Each call's meaning is one definition on all sessions and packets (specs/Mail.antt), and no call touches the
//! session of another client. The sessions stay those of the server and the view for which they were made
//! ([`sessions_stay_between`]), and a packet is heard exactly where it is from a client of the cluster, for the
//! server and of the view ([`a_packet_is_heard_from_its_client`]).
//!
//! After want of memory nothing is promised of the sessions and packets: a server is spent then.
#![tactic(auto)]

mod client_sessions;
mod law;

pub use client_sessions::ClientSessions;
pub use law::{a_packet_is_heard_from_its_client, sessions_stay_between};
