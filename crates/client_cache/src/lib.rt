//! What a client holds and knows, and what it answers by itself.
//!
//! A [`Cache`] has the client's holds with the contents that came under them, its descriptors, its
//! unflushed writes and its outstanding flushes. [`Cache::new`] knows nothing. [`Cache::take`] takes the
//! items of a grant. [`Cache::next`] tells what the client does with its call now: [`Cache::answer`]
//! answers one that [`Cache::covers`] tells, or a last `close`; [`Cache::start_flush`] starts a flush,
//! which stands among [`Cache::outstanding`] until [`Cache::flushed`] takes it as done;
//! [`Cache::lower`] gives up a hold; [`Cache::holds`] is the report to a new server.
//! [`Cache::expects`] tells whether an item of a grant may be taken.
//! [`Cache::want`] is what is asked of a server for a call.
//!
//! Promised: each call makes of what is known exactly what its definition says, and keeps what stands
//! of it at all times (`IsKnown`), such as that every outstanding flush has a spelling and is the only
//! one of its file. A client whose holdings are the tree's answers as the tree
//! ([`a_cache_answers_as_the_tree`]).
#![tactic(auto)]

mod answer;
mod cache;
mod cached_inode;
mod covers;
mod entries;
mod flushes;
mod holds;
mod law;
mod next_step;
mod resolve;
mod want;

pub use cache::Cache;
pub use cached_inode::CachedInode;
pub use entries::Entries;
pub use flushes::Left;
pub use holds::Holds;
pub use law::{a_cache_answers_as_the_tree, a_cache_asks_as_the_tree, what_follows_agrees};
pub use next_step::Next;
