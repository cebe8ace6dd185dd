//! The unflushed writes of a client to one file, of at most 262,144 bytes in 64 blocks.
//!
//! [`Delayed::new`] begins with what the server keeps. [`Delayed::write`] and [`Delayed::truncate`]
//! change the present bytes and mark the blocks that the server hasn't got: at most 16, which
//! [`Delayed::blocks_after`] and [`Delayed::blocks_after_truncate`] tell beforehand.
//! [`Delayed::to_flush`] makes the flush, which carries the marked blocks, the size and the least size
//! since the last flush, and [`Delayed::flushed`] takes all as handed over.
//!
//! Promised: reads are of the present bytes; exactly the right blocks are marked
//! ([`marks_are_exact`]); and after each call the flush would turn what the server keeps into the
//! present bytes, also where the file shrank and grew again.
#![tactic(auto)]

mod delayed;
mod law;
mod marks;
mod pieces;

pub use delayed::Delayed;
pub use law::marks_are_exact;
