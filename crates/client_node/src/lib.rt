//! The client's machine: a client with its session.
//!
//! A [`ClientNode`] is made by [`ClientNode::new`], in view 1, in which the format has admitted it. One
//! [`ClientNode::step`] takes one input (a call that starts, a packet, a tick, or a file to write back)
//! and gives the packets that go out, the answer to the outstanding call if the step finishes it, and its
//! entry if the client answered it by itself. [`ClientNode::covers`] tells whether a call would be answered
//! without a packet, [`ClientNode::may_start`] whether it may start, [`ClientNode::busy`] whether a call is
//! outstanding, [`ClientNode::idle`] whether a tick would send nothing, and [`ClientNode::steps`] how many
//! steps were made.
//!
//! Promised: the node after a step is `node_after`, and what the step gives is told by `Gives` (specs/Step):
//! one equation each for the packets, the answer and the entry. By both it keeps the client's part of the law
//! of the cluster (`KeepsLaw` of `client_book`), where bytes that come with a Grant come clean.
#![tactic(auto)]

mod client_node;
mod ends;
mod hearing;
mod outgoing;

pub use client_node::ClientNode;
