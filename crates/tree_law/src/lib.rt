//! What calypso promises of files: one file tree, its thirteen calls, and the histories that are legal
//! for it. No word of packets, disks or servers stands here; what these do is measured by it.
//!
//! - [`read_path`] reads a path; [`Call`], [`Reply`] and [`Why`] are what clients ask and are told, and
//!   an [`Entry`] is what happened: a call with its reply and its new inode, a flush, or a purge.
//! - [`PlainTree`] is the tree. `answer` is the reply that the tree gives to a call, `makes` tells
//!   whether it would make a name, and `least_free` finds its inode.
//! - `PlainTree::apply` takes an entry exactly where the tree allows it next, and then the tree is the
//!   one defined; after an error it is as it was. `change` makes an entry that is known to be allowed.
//!
//! The definitions stand in specs/, and are to be read before the code: Answer (replies), After (what an
//! entry makes of the tree), Legal (which entries are allowed), Idle (which files go of themselves),
//! Needs and Part (what a client holds). `PlainTree` computes them one by one; it is plain and slow.
//! The laws say what follows from the definitions.
#![tactic(auto)]

mod answer;
mod apply;
mod call;
mod change;
mod descriptor;
mod directory;
mod entry;
mod flushed;
mod law;
mod lookup;
mod mode;
mod node;
mod opened;
mod path;
mod plain_lookup;
mod plain_tree;
mod regular_file;
mod rename;
mod reply;
mod request;
mod resolving;
mod sweep;

pub use apply::ApplyError;
pub use call::Call;
pub use descriptor::{Descriptor, DescriptorTable};
pub use directory::Directory;
pub use entry::Entry;
pub use law::{
    a_part_answers_as_the_whole, a_part_with_names_asks_as_the_whole, a_purge_takes_one_client,
    a_write_is_read_back, an_unlinked_file_still_reads, no_file_is_idle, one_answer,
};
pub use lookup::Lookup;
pub use mode::Mode;
pub use node::Node;
pub use path::{Path, ReadPathError, is_before, is_name, read_path};
pub use plain_tree::PlainTree;
pub use regular_file::RegularFile;
pub use rename::{Move, move_of};
pub use reply::{Reply, Why};
pub use request::{Asked, Request, Want};
pub use resolving::{file_named, new_place, parent_of, removable, resolve};
