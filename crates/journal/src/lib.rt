//! Transactions on the shared disk.
//!
//! - `commit` writes header and contents to the journal's body, opens the gate, writes the homes and
//!   closes the gate. `replay` of an open gate writes the homes and closes it, and of a closed one
//!   writes nothing. Neither takes memory.
//! - Wherever the writes of a commit stop, and whatever a torn one leaves, a replay leaves the volume's
//!   sectors as they were before, or all with the homes of the transaction (`commit_is_atomic`); and a
//!   replay that is cut leaves the same volume (`replay_is_stable`).
//! - `is_commit_opened` tells by the writes that a port kept which of the two it is. `commit_length` is
//!   how many writes a commit makes, so that the place of the next commit's writes is known.
//! - A header that names the same homes is the same bytes (`a_header_has_one_spelling`).
#![tactic(auto)]

mod commits;
mod gate;
mod header;
mod openings;
mod replay_halt;
mod replays;
mod write_back;
mod write_one;

pub use commits::{commit, commit_is_atomic};
pub use header::a_header_has_one_spelling;
pub use openings::{an_opening_stands_at_its_place, commit_length, is_commit_opened};
pub use replay_halt::ReplayHalt;
pub use replays::{replay, replay_is_stable};
