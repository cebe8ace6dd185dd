//! A cluster by steps: its clients, its two servers, and the packets that were sent.
//!
//! [`World::new`] makes a world whose server A has formatted the disk. [`World::step`] makes one step of an event over a
//! disk that is handed in, or says why the event can't happen. [`World::runs`], [`World::busy`], [`World::idle`],
//! [`World::packet`], [`World::delivered`] and others answer what stands, and take no memory.
//!
//! Promised of a step (`StepsSo`, specs/Step): the node of the event makes one step of its machine, by that machine's
//! contract, with what was sent before and with the members as they are; the printed step is what it gave; and what it
//! sends is kept. An event is refused exactly where `refusal_of` (specs/Refusals) has a reason, and then nothing
//! changes. What stands of a world at all times is `IsWorld` (specs/World).
#![tactic(auto)]

mod clients;
mod cluster;
mod laws;
mod moving;
mod packets;
mod quiet;
mod refusals;
mod servers;
mod steps;
mod taking;
mod world;

pub use laws::a_step_is_counted;
pub use refusals::{Refused, StepRefused};
pub use world::World;
