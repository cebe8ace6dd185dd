//! A server as a machine that goes by steps.
//!
//! [`ServerNode::format`] makes the server of view 1, on a fresh disk, and [`ServerNode::boot`] that of a later view,
//! on the disk that another server left. A step ([`ServerNode::step`]) takes a packet or a tick: it hears, plans all that
//! it does, and carries that out on the disk. All memory of a step is taken before its first write.
//!
//! Promised of a step, from each server of the law that the node stands for (specs/Step): its acts are as the law
//! asks, each where it stands; what is owed at the end is done; to each client go the packets that its session has to
//! send; the disk takes the writes of the commits in order, to their end or to a halt with its cause; and the entries
//! are those of the commits that are final. A node keeps its sessions for one view, and counts what they send
//! (`IsNode`, specs/Node).
#![tactic(auto)]

mod coming;
mod planning;
mod sending;
mod server_node;

pub use server_node::ServerNode;
