//! Which edit of a volume a change, a flush, a purge or a reaping makes, and that the sectors then stand
//! for the history with its entry.
#![tactic(auto)]

mod edits;

pub use edits::{a_plan_asks_only_what_is_open, a_plan_is_an_edit, a_plan_takes_free_blocks};

mod changing;
mod flushing;
mod making;
mod moving;
mod numbering;
mod purging;
mod removing;
mod showing;

pub use changing::a_change_stands;
pub use flushing::{a_flush_reads_with_its_pieces, a_flush_stands};
pub use making::{a_creation_stands, a_plan_touches_what_its_change_does, a_refusal_stands};
pub use moving::a_rename_stands;
pub use numbering::a_number_commits_once;
pub use purging::{a_purge_stands, a_reaping_stands};
pub use removing::{a_nameless_file_is_freed_or_kept, a_removal_stands};
pub use showing::a_volume_shows_its_tree;
