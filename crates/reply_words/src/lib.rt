//! The text of a reply, read back.
//!
//! - [`read_reply`] reads what `reply_text` writes: the one reply that can answer a call and has this text, or
//!   it tells that none has it.
//!
//! Which replies can answer a call stands in the specs as `IsReplyOf` (Limits): what the call tells ([`Tells`]),
//! or a refusal. Telling says what words tell, Reading what is answered.
#![tactic(auto)]

mod outcomes;
mod reading;
mod refusals;
mod tells;

pub use reading::read_reply;
pub use tells::Tells;
