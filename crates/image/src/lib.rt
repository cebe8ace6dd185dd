//! The volume in a server's memory. It takes all memory that it will ever need at once: a look-up or an
//! edit takes none.
//!
//! `Image::room` takes that memory; `mkfs` makes a new file system in it and on a disk, and `mount` reads
//! one, or names the first sector that is outside its grammar. What is mounted stands for the history for
//! which its sectors do (`a_mounted_volume_stands`).
//!
//! The calls that answer read it: `entries`, `needs`, `resolve`, and `read_file` with the bytes of a file
//! from its disk (`read_file_behind` where writes are still to be made). `plan_change`, `plan_flush`,
//! `plan_purge` and `plan_reap` each find an edit and the transaction that carries it out; the image stays
//! as it is until `apply` makes the edit. Each plan is that of the specs, keeps the volume within its
//! grammar and takes free blocks alone; with its homes in place the sectors stand for one entry more.
#![tactic(auto)]

mod after_edit;
mod apply;
mod change_plan;
mod directories;
mod entries;
mod file_read;
mod flush_plan;
mod home;
mod homes;
mod image;
mod inodes;
mod law;
mod made;
mod making;
mod marking;
mod mount_halt;
mod mounts;
mod moving;
mod needs;
mod plan_edits;
mod plans;
mod read_lists;
mod read_parts;
mod removing;
mod resolving;
mod room;
mod search;
mod shown_node;
mod slots;
mod touches;

pub use change_plan::{ChangePlan, TouchList};
pub use file_read::{read_file, read_file_behind};
pub use flush_plan::{FlushPlan, SectorWrites};
pub use image::Image;
pub use law::{a_file_reads_as_it_lasts, a_mounted_volume_stands};
pub use made::mkfs;
pub use mount_halt::MountHalt;
pub use mounts::mount;
pub use plan_edits::EditPlan;
pub use plans::Planned;
pub use shown_node::ShownNode;
