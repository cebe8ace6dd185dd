//! How a server's step begins.
//!
//! A step takes what comes to a server ([`Coming`]): the next message of a client, a tick, or nothing. A request goes
//! to the end of the line of an admitted server; one that comes while reports are missing is told to wait. What a
//! client gives up is lowered, a piece of a report is taken where it fits, and a flush is committed or told again. A
//! tick purges the client that is due, or else deals with an orphan that nobody uses. What is neither is passed
//! over: an Acquire of the bytes of what is no file, and a message that no client makes.
//!
//! Promised ([`open_step`]): from each server of the law that holds the same, has the same volume, and keeps blocks
//! for what is held, the draft follows the law's server that has heard what comes; what the law says that is owed
//! for a message is told, and what it says of a tick is removed; and nobody is admitted or
//! granted anything yet (`Opens`, specs/Opens).
#![tactic(auto)]

mod hearing;
mod opening;

pub use opening::{Coming, open_step};
