//! The table of a server: which client holds what, and in which order the writing of files was granted.
//!
//! A server makes one empty (`new`) and fills it from what clients report (`grant_all`). For a request it
//! asks which holds of others are in the way (`blockers`, `touchers`, or `first_write` where blocks are
//! short); where there are none it grants (`grant_needs`, `grant`). Holds go down as clients release them
//! or flush (`lower`), and go as a client is purged (`drop_client`). `held`, `writes`, `is_opened` and
//! `opened` answer what stands.
//!
//! At any time no two clients hold conflicting tokens, Names and Open are never Write, and each Data Write
//! hold stands once in the order of writes. Each change sets what it names and nothing else, and after want
//! of memory the table is as it was.
#![tactic(auto)]

mod gather;
mod hold_key;
mod hold_map;
mod is_held;
mod token_table;

pub use gather::put_item;
pub use hold_key::HoldKey;
pub use token_table::TokenTable;
