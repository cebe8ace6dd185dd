//! That what a client knows goes on to follow the file tree, as laws over the definitions of
//! `client_cache`. Each law is a public function without a body, and its contract is the law.
//!
//! What is known follows a tree (`Follows`) that has the client's flushes up to a number. It goes on to
//! follow it
//! - through what others do, as far as that leaves what is held (`what_others_do_is_followed`);
//! - when a flush starts (`a_flush_that_starts_is_followed`), when it comes to be in the tree
//!   (`a_flush_in_the_tree_is_followed`), and when the client is told that it is done
//!   (`a_flush_that_is_done_is_followed`);
//! - when a hold is lowered (`a_lowering_is_followed`);
//! - when an item of a grant is taken (`a_taken_item_is_followed`);
//! - when the client carries out a call by itself (`an_answered_call_is_followed`).
#![tactic(auto)]

mod law;

pub use law::{
    a_flush_in_the_tree_is_followed, a_flush_that_is_done_is_followed,
    a_flush_that_starts_is_followed, a_lowering_is_followed, a_taken_item_is_followed,
    an_answered_call_is_followed, what_others_do_is_followed,
};
