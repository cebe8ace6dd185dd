//! Worked runs over the public calls of a volume in memory: what a plan writes, byte for byte, a full
//! volume, and what a mount and a read take from a disk.
#![tactic(auto)]

#[cfg(test)]
mod making;
#[cfg(test)]
mod plans;
#[cfg(test)]
mod reads;
