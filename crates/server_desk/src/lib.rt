//! What a server knows of holds and requests, in one value.
//!
//! A [`Desk`] joins what a server collects of reports, with the table of holds (`rebuild`), and the requests
//! that wait, with what was asked back (`revocation`). It is made before the disk is known (`new`), and lists
//! the clients that may hold something (`list`). It asks them (`ask_next`), waits for those that are `missing`,
//! and takes their reports (`fits`, `take_piece`). Requests come in at the end of the line (`arrive`) and are
//! served at its `head`, which a `grant` takes out, or `drop_head`. Holds go down by a `release`, by a flush
//! (`lower_by_flush`) and by a `purge`, and what blocks a request is asked back by `revoke`.
//!
//! Promised: each server of the law that holds the same as the desk before a call (`IsLike`, specs/Desk) is
//! followed, as the law says of that message or act, by one that holds the same as the desk after it. A new desk
//! is like a server that starts ([`a_new_desk_is_like_a_server_that_starts`]), and of a commit only the deed
//! matters to it ([`a_commit_does_its_deed_to_the_desk`]). After want of memory the desk is as it was. A
//! cluster has at most 16 clients.
#![tactic(auto)]

mod desk;
mod laws;

pub use desk::Desk;
pub use laws::{a_commit_does_its_deed_to_the_desk, a_new_desk_is_like_a_server_that_starts};
