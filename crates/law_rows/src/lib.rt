//! Short runs of a cluster, each of whose steps keeps the rules: so the rules don't contradict one another.
//!
//! - [`a_directory_is_read_twice`]: a client asks for the names of the root, is granted them, answers, and
//!   answers a second call by itself.
//! - [`a_file_is_created`]: a client's change is committed and answered.
//! - [`a_write_is_read_by_another`]: a client writes under tokens, and another, for which it has to flush, reads
//!   what it wrote.
#![tactic(auto)]

mod rows;

pub use rows::{a_directory_is_read_twice, a_file_is_created, a_write_is_read_by_another};
