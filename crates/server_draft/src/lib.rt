//! The draft of a server's step.
//!
//! A server plans a whole step before its first write. A [`Draft`] is what the server knows as the acts that are
//! planned so far leave it, a [`Desk`](server_desk::Desk) of holds and requests and an [`Image`](image::Image) of
//! the volume, and these acts, in order ([`Acts`]): messages to clients, commits, and old requests that are dropped.
//!
//! Promised: a draft that follows the law's server (`Follows`, specs/Draft) does so with each act that is put to
//! it, where the act is what the law asks of one, and the desk was changed as the law says. To follow is that each
//! act is as the law asks where it stands, that the server in memory is the law's once the acts are done, and that
//! 16 blocks are free for each Data Write hold. Each act can be carried out: a message has a spelling and goes to a
//! client of the cluster, and blocks are laid into sectors of the disk. What was told or done stays so
//! ([`what_is_done_stays_done`]). Acts are kept in order; the law has them newest first (`acts_of`, specs/Acts).
#![tactic(auto)]

mod act;
mod acts;
mod draft;
mod laws;

pub use act::{Act, Commit, Deed};
pub use acts::Acts;
pub use draft::Draft;
pub use laws::what_is_done_stays_done;
