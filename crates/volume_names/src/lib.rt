//! What the names of a volume stand for, as laws over the definitions of `volume_edit` and `volume_plan`.
//! Each law is a public function, and its contract is the law.
//!
//! Whoever lists a directory needs no history for it: from one volume to the next each plan keeps that every
//! name stands for something, that no inode has two names, and that the root has none.
#![tactic(auto)]

mod law;

pub use law::{a_mounted_volume_is_named, a_plan_keeps_names};
