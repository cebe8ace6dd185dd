//! The block map of a volume: which of its 2,048 data blocks are free.
//!
//! - `SpaceMap::read` reads a sector, exactly where it spells such a set; `write` is its one spelling
//!   (`one_spelling`).
//! - `take_least` takes the least free block, if there is one, and `give` gives one back. `free` counts.
//!
//! The map looks at eight bytes at a time and keeps a hint below which none is free. No contract speaks
//! of the hint: it changes how long a call takes, and never what it answers.
#![tactic(auto)]

mod bits;
mod law;
mod space_map;

pub use law::one_spelling;
pub use space_map::{BadMap, SpaceMap};
