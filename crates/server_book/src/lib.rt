//! A server's own values against the state that the law of the cluster speaks of.
//!
//! The law has a server's table and what it asks back as lists that grow at the front; a server may keep them
//! in any lists that hold the same. Servers that hold the same are alike (`Alike`, specs/Alike), and decide
//! the same ([`alike_servers_decide_alike`]), go on alike ([`alike_servers_go_on_alike`]) and keep the same
//! rules ([`alike_servers_keep_the_same_rules`]). Where a server's parts do what they promise, it is alike the
//! law's next ([`parts_change_as_the_law`], [`one_by_one_is_together`]), and so it is where it asks all that
//! blocks and tells the Revokes for it ([`revokes_ask_what_blocks`]), each once ([`a_revoke_is_told_once`]).
//! All of them may go out in one step, those for the head of the line ([`what_blocks_is_asked_in_turn`]) and
//! those for an orphan ([`an_orphan_is_asked_for_in_turn`]). A piece fits where the law uses it
//! ([`a_piece_fits_where_it_is_used`]).
#![tactic(auto)]

mod bridges;
mod laws;

pub use bridges::{
    a_piece_fits_where_it_is_used, a_revoke_is_told_once, an_orphan_is_asked_for_in_turn,
    one_by_one_is_together, parts_change_as_the_law, revokes_ask_what_blocks,
    what_blocks_is_asked_in_turn,
};
pub use laws::{
    alike_servers_decide_alike, alike_servers_go_on_alike, alike_servers_keep_the_same_rules,
};
