//! Which inodes an entry of a history leaves as they were, as laws that follow from the definitions of
//! the file tree. Each law is a public function without a body, and its contract is the law. Whoever
//! keeps a copy of an inode can go on with it while these say that it stays.
//!
//! - [`an_untouched_inode_keeps_its_node`]: a change of the tree leaves each inode that is in no class
//!   among what the change touches, but for the one that it makes (`all`); so no other file is dropped
//!   by it. Where something stands, one class tells as much: Names of a directory, Data or Attr of a
//!   file (`class`), so that who holds a token of that class can go on.
//! - [`a_call_on_a_file_leaves_all_others`]: any other call leaves all but the file that it writes to,
//!   cuts or closes, and a flush all but its file.
#![tactic(auto)]

mod touching;

pub use touching::{a_call_on_a_file_leaves_all_others, an_untouched_inode_keeps_its_node};
