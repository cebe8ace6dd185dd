//! The inodes of a volume, one a sector: kind, name mark, size and 64 pointers.
//!
//! - `read_inode` answers an inode exactly where a sector spells one: free and all zeros; a file with no
//!   pointer behind its last byte's block; or a named directory of whole blocks without a hole.
//! - `write_inode` is an inode's one spelling (the law `one_inode`).
//!
//! The fields are read first and then tested as one predicate, so that reading and writing cite one
//! grammar.
#![tactic(auto)]

mod check;
mod inode;
mod law;
mod read;
mod write;

pub use inode::{Inode, Kind};
pub use law::one_inode;
pub use read::{BadInode, read_inode};
pub use write::write_inode;
