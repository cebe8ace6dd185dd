//! What a cache knows, read as the book and the sight that the law of the cluster speaks of.
//!
//! `book_of` and `sight_of` (specs/Booked) read a cache so. A call is covered by the cache exactly where the
//! law covers it ([`a_cache_covers_as_its_book`]), and the cache goes on with it as the law says
//! ([`a_cache_goes_on_as_its_book`]). A flush that starts or ends, an item that is taken, a hold that is
//! lowered and a call that is answered change the cache as they change its book
//! ([`a_cache_changes_as_its_book`]). So do a Revoke, a Flushed, a Grant and a write-back, with the Revokes
//! that wait behind flushes ([`a_cache_hears_as_its_book`], specs/Memory); and what the cache reports is its
//! book ([`a_cache_reports_its_book`]). Together, a client at its own values (specs/Client) steps as the law
//! says ([`a_client_steps_as_the_law`]). While what it has is sound and what comes is spelled (specs/Sound),
//! the messages that it makes (specs/Made) and its reply are those of the law too
//! ([`a_client_says_what_it_owes`]), so that each of its steps keeps the law ([`a_client_keeps_the_law`]).
//! It is sound at first and stays so ([`a_new_client_is_sound`], [`a_client_stays_sound`]), and its counts
//! grow slowly ([`counts_grow_slowly`]).
#![tactic(auto)]

mod laws;
mod steps;

pub use laws::{
    a_cache_changes_as_its_book, a_cache_covers_as_its_book, a_cache_goes_on_as_its_book,
    a_cache_hears_as_its_book, a_cache_reports_its_book, a_client_steps_as_the_law,
};
pub use steps::{
    a_client_keeps_the_law, a_client_says_what_it_owes, a_client_stays_sound,
    a_new_client_is_sound, counts_grow_slowly,
};
