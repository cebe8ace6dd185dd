//! What all parts of calypso name, and the edges through which bytes come in and go out.
//!
//! - [`ClientId`], [`ServerId`], [`NodeId`], [`View`], [`Ino`] and [`Sector`] name who takes part and
//!   where bytes stand; the limits are constants, and stand in specs/Limits.antt for contracts.
//! - [`Items`] is the list type of records ([`Blob`], [`NameList`], [`EntryList`]), which contracts see
//!   as a list. [`cut_at`] cuts a text at its first separator.
//! - A [`Source`] gives bytes and a [`Sink`] takes them, with room made by `Sink::reserve` before. What
//!   they have left and hold is told or untold. [`Failed`] comes only in a call in which the count of
//!   faults rose, so that no caller can hide behind a device.
//! - [`MemSource`] and [`MemSink`] are in memory and never fail; [`FaultSource`] and [`FaultSink`] fail
//!   exactly in their listed calls; [`StdSource`] and [`StdSink`] are the system's readers and writers,
//!   and tell no bytes.
//! - [`Oom`] is want of memory, after which a value is as it was.
#![tactic(auto)]

mod cut;
mod directory_entry;
mod failed;
mod fault_sink;
mod fault_source;
mod identity;
mod items;
mod limits;
mod mem_sink;
mod mem_source;
mod oom;
mod sink;
mod source;
mod std_sink;
mod std_source;

pub use cut::cut_at;
pub use directory_entry::{DirectoryEntry, EntryKind};
pub use failed::Failed;
pub use fault_sink::FaultSink;
pub use fault_source::FaultSource;
pub use identity::{ClientId, Ino, NodeId, Sector, ServerId, View};
pub use items::{Blob, EntryList, Items, NameList};
pub use limits::{
    BLOCK_SIZE, BLOCKS, CLIENTS, DEFAULT_WINDOW, DESCRIPTORS, DIRECTORY_BLOCKS, DIRECTORY_ENTRIES,
    DIRECTORY_SIZE, FILE_BLOCKS, FILE_SIZE, HOLDS_PER_PIECE, INODES, LAST_INODE, LINE_BYTES,
    MAP_SIZE, NAME_BYTES, PATH_NAMES, SCRIPT_BYTES, SCRIPT_LINES, SECTORS, SLOT_SIZE,
    SLOTS_PER_BLOCK, TRANSACTION_HOMES, UNACKNOWLEDGED, UNFLUSHED_BLOCKS, WINDOW, WRITE_SIZE,
};
pub use mem_sink::MemSink;
pub use mem_source::MemSource;
pub use oom::Oom;
pub use sink::Sink;
pub use source::Source;
pub use std_sink::StdSink;
pub use std_source::StdSource;
