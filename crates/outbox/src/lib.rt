//! The messages that a client makes in a step, in order, on their way to the packets that carry them.
//!
//! An [`Outbox`] has the bytes of each message. A client that is moving between servers keeps its flushes
//! back: [`Outbox::send`] and [`Outbox::flush`] then leave them out, and they are sent when the new server
//! has admitted the client. [`Outbox::into_bodies`] hands the bytes on.
//!
//! Promised: what goes out are the messages that were put in, in their order, but for what is kept back
//! ([`what_goes_out`]); and messages that are put in piece by piece go out as all of them at once
//! ([`one_after_another`]).
//!
//! After want of memory nothing is promised of an outbox: the step that filled it has come to nothing.
#![tactic(auto)]

mod law;
mod outbox;

pub use law::{one_after_another, what_goes_out};
pub use outbox::Outbox;
