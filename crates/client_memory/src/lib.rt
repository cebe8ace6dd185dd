//! What a client has in memory of files: its cache, and the Revokes that wait behind flushes.
//!
//! [`Memory::new`] is that of a client that has done nothing. [`Memory::revoke`], [`Memory::flushed`] and
//! [`Memory::take`] take a Revoke, a Flushed and the items of a Grant; [`Memory::write_back`] writes a file
//! back, and [`Memory::flush`] starts a flush before a call. [`Memory::next`], [`Memory::answer`],
//! [`Memory::want`] and [`Memory::lower`] are those of the cache, which [`Memory::cache`] lends. The messages
//! of a step go into an outbox.
//!
//! Promised: each call makes of the memory what its definition says, and puts exactly its messages into the
//! outbox. What stands of the cache at all times goes on to stand, and each Revoke that waits is one that a
//! message spells. After want of memory nothing is promised of the memory or the outbox.
#![tactic(auto)]

mod carrying;
mod flushed;
mod memory;
mod revoke;

pub use memory::Memory;
