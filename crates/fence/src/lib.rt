//! The right to write to the shared disk, for one view.
//!
//! - `Port::take` fences the disk to the view, and gives a port only if the key is then that view.
//! - `keep` hands in a list for the writes to come, and `arm` a stop. Then `read`, `write` and
//!   `write_all` are calls of the disk under the view: they change it only while the key is that view,
//!   so a server whose successor has fenced the disk can no longer write.
//! - An armed stop halts before one of the writes, or within it with any bytes left in that sector.
//! - `kept` shows the accepted writes, a torn one with its bytes, and `hand_out` gives the list away;
//!   both take no memory, after a halt too.
//!
//! The law `a_run_tells_what_was_written` says, by the cause of a halt, which writes were accepted and
//! what they left.
#![tactic(auto)]

mod endings;
mod kept_writes;
mod port;
mod port_halt;

pub use endings::a_run_tells_what_was_written;
pub use port::Port;
pub use port_halt::PortHalt;
