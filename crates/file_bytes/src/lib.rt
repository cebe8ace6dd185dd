//! The bytes of one file, at most 262,144, as POSIX.1's `ftruncate`, `pwrite` and `pread` treat them.
//!
//! - [`resize`] cuts them off or grows them by zeros, [`write`] lays bytes at an offset, with zeros in a
//!   gap before it, and [`read`] gives those from an offset on, none at or past the end.
//! - [`block`] is one block of 4,096 bytes with zeros past the end, as a disk has it; [`copy`] a copy.
//!
//! Each computes one definition of specs/Bytes.antt. The file tree and a client's unflushed writes cite
//! the same ones, so what a client answers and what the tree says can't differ in them. After want of
//! memory the bytes are as they were.
#![tactic(auto)]

mod bytes;

pub use bytes::{block, copy, read, resize, write};
