//! How a server takes a flush.
//!
//! A flush that is on the disk already is told again, so that its client learns of it; the next one of a client is
//! committed, and then told; any other is passed over ([`take_flush`]).
//!
//! Promised: a draft that follows the law's server does so with the flush. A flush that the law uses is told to be
//! on the disk, once it is there, and one that it doesn't use changes nothing. With the commit the client's holds
//! are lowered to what the flush leaves, so that 16 blocks fewer are kept for it: as many as it may take.
#![tactic(auto)]

mod committing;
mod flushing;
mod standing;

pub use flushing::take_flush;
