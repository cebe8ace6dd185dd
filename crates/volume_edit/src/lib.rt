//! What one transaction alters of a volume: a client's slot, an inode, a directory's growth, an entry
//! that goes and one that comes. Its homes are the parts that it alters, in the order of their sectors.
//! An edit keeps the volume within its grammar, and where its homes are written the sectors spell the
//! volume then; the bytes of files stay.
#![tactic(auto)]

mod blocks;
mod edit;
mod law;

pub use blocks::{an_edit_keeps_blocks, data_goes_to_free_blocks};
pub use edit::{Edit, Entering, Growth, InodeEdit, Leaving, SlotEdit};
pub use law::{
    an_edit_is_spelled, an_edit_keeps_files, an_edit_keeps_the_grammar, homes_are_a_transaction,
    one_whole_volume,
};
