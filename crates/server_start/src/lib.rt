//! How a server begins to serve a view.
//!
//! A server begins with the format of a disk, for view 1 ([`format_volume`]), or boots for a later view on a disk that
//! has a volume ([`boot`]). Both take all memory first, and then the fence. A boot replays the journal, mounts the
//! volume, lists the clients whose purge isn't marked, and asks the first of them for their reports, as many as the
//! window lets. What then serves is a [`Started`]: the port, the desk, the image and the sessions.
//!
//! Promised of a format: the disk's writes are those of a format, in order, and it serves view 1 with the volume of
//! a fresh disk, in which nobody holds anything. Promised of a boot: what it writes, and why it halts, is as the law
//! of the cluster asks of a boot (`WritesOn`); its acts are those of a boot, each as the law asks, and what is owed at
//! its end is done; the server in memory is the law's then; and the packets are the Asks of the clients that are
//! asked, and no others. After want of memory the disk is as it was, but that its room may have grown.
#![tactic(auto)]

mod asks;
mod boots;
mod formats;
mod halting;
mod laws;
mod listing;
mod opening;
mod started;
mod stops;

pub use boots::boot;
pub use formats::format_volume;
pub use halting::{of_mount, of_port, of_refusal, of_replay};
pub use laws::each_client_is_asked_in_its_session;
pub use started::Started;
pub use stops::{FormatError, StepError};
