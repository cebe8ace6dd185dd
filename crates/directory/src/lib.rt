//! The directory of a volume: at most eight blocks of 128 slots, as a finite map from names to inodes,
//! with places.
//!
//! - `DirBlocks::room` takes all memory that a directory will need. `load` takes the next block exactly
//!   where it may follow those before it; `store` writes a block in its one spelling (`one_block`), which
//!   loads back (`stored_loads_back`).
//! - `find`, `place` and `by_name` look up by an index that is kept in the order of names, by halves.
//! - `insert` puts an entry into the first empty slot, or behind a new block of empty ones; the directory
//!   is full at 1,024 entries. `replace` keeps the slot, `remove` and `clear` leave it empty.
//! - Each name stands once, for one inode (`one_inode_a_name`).
#![tactic(auto)]

mod block;
mod dir_blocks;
mod entry;
mod index;
mod law;
mod load;
mod slot_changes;
mod slot_table;

pub use block::BadBlock;
pub use dir_blocks::{DirBlocks, DirFull};
pub use entry::{DirEntry, EntryName};
pub use law::{one_block, one_inode_a_name, stored_loads_back};
pub use slot_changes::{PlacedEntry, SlotChanges};
