//! The slots of a volume's clients, one a sector: the number and the reply of a client's last change,
//! the number of its last flush, and whether it was purged.
//!
//! - `read_slot` answers a slot exactly where a sector spells one, and `write_slot` is its one spelling
//!   (the law `one_slot`).
//! - `Slot::judge` says what a slot knows of the number of a change: kept with its reply at the slot's
//!   number, old below it, new above. A server that writes the number in the transaction of the change
//!   can thus never make it twice.
#![tactic(auto)]

mod judge;
mod law;
mod read;
mod slot;
mod write;

pub use judge::Judged;
pub use law::one_slot;
pub use read::{BadSlot, read_slot};
pub use slot::Slot;
pub use write::write_slot;
