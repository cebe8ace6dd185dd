//! What a user of the file tree can rely on, as laws that follow from its definitions. Each law is a
//! public function without a body, and its contract is the law.
//!
//! - Bytes: only a flush makes bytes last (`kept_is_what_flushes_leave`,
//!   `a_flushed_file_lasts_as_it_is`); what was written is what is read next (`a_read_after_a_write`);
//!   a renamed file stays as it was (`a_renamed_file_keeps_its_contents`).
//! - Names: an inode has one name (`an_inode_has_one_name`).
//! - Clients: unflushed writes end by their writer's flush or purge alone
//!   (`a_writer_goes_by_its_flush_or_purge`), and a call leaves the descriptors of other clients
//!   (`a_call_leaves_other_clients`).
//! - In the tree of a legal history no file is past its limit, no writer is purged, and each descriptor
//!   is of a file (`a_legal_tree_is_sound`).
#![tactic(auto)]

mod law;
mod one_name;
mod standing;

pub use law::{
    a_flushed_file_lasts_as_it_is, a_read_after_a_write, a_renamed_file_keeps_its_contents,
    kept_is_what_flushes_leave,
};
pub use one_name::an_inode_has_one_name;
pub use standing::{
    a_call_leaves_other_clients, a_legal_tree_is_sound, a_writer_goes_by_its_flush_or_purge,
};
