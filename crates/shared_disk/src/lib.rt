//! The disk that both servers share: 2,596 sectors of 4,096 bytes under one key.
//!
//! - `PortDisk` is what every disk promises. A call under a view that isn't the key is refused and
//!   changes nothing; a fence raises the key and never lowers it; an acknowledged write is stable; a
//!   failed one leaves any bytes in its one sector. Room for writes is made by `reserve` beforehand.
//! - `MemDisk` keeps everything in memory and never fails. `FaultDisk` fails at the calls that it is
//!   given, and a write that fails leaves its sector or, made by `leaving`, bytes that are given.
//! - Which sector holds what is named once, by the constants from `AT_HEAD` to `FIRST_BLOCK`, and for
//!   contracts by specs/Map.antt.
//! - `Txn` is a transaction: home sectors that ascend, each with what is to stand there.
//! - `Stop` is where a server is to stop; `cut` in the specs is what that leaves of a list of writes.
//!   The law `writes_keep_the_count` says that writes never change how many sectors there are.
#![tactic(auto)]

mod disk_refusal;
mod fault_disk;
mod law;
mod map;
mod mem_disk;
mod port_disk;
mod stop;
mod txn;

pub use disk_refusal::DiskRefusal;
pub use fault_disk::FaultDisk;
pub use law::writes_keep_the_count;
pub use map::{
    AT_GATE, AT_HEAD, AT_HEADER, AT_MAP, FIRST_BLOCK, FIRST_CONTENT, FIRST_INODE, FIRST_SLOT,
    JOURNAL_SECTORS,
};
pub use mem_disk::MemDisk;
pub use port_disk::PortDisk;
pub use stop::Stop;
pub use txn::Txn;
