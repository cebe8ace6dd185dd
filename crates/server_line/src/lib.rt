//! How a server serves its line of requests.
//!
//! [`serve_line`] serves head after head until the line is empty or its head is blocked. An Acquire is granted what
//! its client lacks, with content where the client holds nothing in the class, or refused for want of blocks, and a
//! change is committed and answered, once by its number. What blocks the head is asked back, and the first of it is
//! named: holds of others, then the caller's own holds that are asked back, or else, for want of blocks, the Data
//! Write hold that was granted first.
//!
//! Promised, of a draft that follows the law's server (`Follows` of `server_draft`): it follows it still, the line
//! rests, nothing else is told or removed, and reports stand as they stood. That asks that the disk tells the
//! server's sectors where its key is the view (`SeesOwn`, specs/Known), and that each name of the volume stands for
//! something (`AreNamed` of `volume_names`), which changes keep. Where a block can't be read the draft follows all
//! the same, and the head would read one ([`ServeError::Refused`]); under another key nothing is read. After want of
//! memory nothing is promised of the draft.
#![tactic(auto)]

mod at_head;
mod changing;
mod granting;
mod needing;
mod resting;
mod serving;
mod stopping;
mod unnaming;

pub use serving::serve_line;
pub use stopping::ServeError;
