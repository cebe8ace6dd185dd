//! Which packets wait to be passed on between the nodes of a cluster.
//!
//! A packet goes on a link, from a client to a server or from a server to a client: 64 links between 16
//! clients and 2 servers, each way. Packets are known by number. A packet waits on its link once it was
//! sent (`send`), until it is delivered or lost (`remove`). A link may be cut (`cut`): all that waits there
//! is lost, and so is all that is sent there until it is mended (`mend`). `first` answers the least number
//! that waits on a link, and `first_for` the least that waits for a node.
//!
//! What each of these means stands in specs/Links.antt.
#![tactic(auto)]

mod law;
mod link;
mod links;
mod place;

pub use law::{
    a_cut_loses_its_link, a_mending_brings_nothing, a_removal_takes_its_packet,
    a_send_adds_its_packet,
};
pub use links::{Links, lesser};
