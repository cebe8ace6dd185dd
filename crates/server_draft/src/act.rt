use cal_base::{ClientId, Ino};
use image::SectorWrites;
use message::Message;
use shared_disk::Txn;
use token_kind::Flush;
use tree_law::{Reply, Request};
use volume_edit::Edit;

/// What a server makes final on the disk.
#[derive(Drop)]
pub enum Deed {
    /// The change of a request, with its reply and the inode that it makes.
    Changes {
        request: Request,
        reply: Reply,
        new_ino: Option<Ino>,
    },
    /// A client's flush.
    Flushes {
        client: ClientId,
        flush: Flush,
    },
    /// The purge of a client that is gone.
    Purges(ClientId),
    /// The freeing of a file that has no name and that nobody uses.
    Reaps(Ino),
}

/// A deed with what it writes: blocks that are laid first, where nothing points yet, and then the homes of its
/// edit of the volume, in one transaction.
#[derive(Drop)]
pub struct Commit {
    /// What is made final.
    pub deed: Deed,
    /// The blocks that are laid before, each into its sector.
    pub lays: SectorWrites,
    /// What is altered of the volume.
    pub edit: Edit,
    /// The homes of the edit.
    pub homes: Txn,
}

/// One thing that a server does within a step.
#[derive(Drop)]
pub enum Act {
    /// A message is made for a client.
    Tells { client: ClientId, message: Message },
    /// A deed is made final.
    Commits(Commit),
    /// The request at the head of the line is an old one, and dropped.
    Drops,
}
