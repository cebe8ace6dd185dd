ghost use Rattle.std.specs.Prelude.{◌≡◌};
ghost use Rattle.std.specs.Option.{option_copied};
ghost use Rattle.tree_law.specs.Tree.{node_at, writer_of};
ghost use Rattle.tree_law.specs.FileState.{is_writer};
ghost use Rattle.tree_law.specs.Legal.{is_flushed_by, is_flushed_by_all, is_flushed_by_others, is_flushed_for, is_flushed_for_reply, is_flushed_move, is_flushed_target, is_own_or_none};

use crate::call::Call;
use crate::node::Node;
use crate::plain_tree::PlainTree;
use crate::regular_file::is_writer;
use crate::rename::{Move, move_of};
use crate::reply::{Reply, Why};
use crate::resolving::{file_named, resolve};
use cal_base::{ClientId, Ino};

impl PlainTree {
    /// The client whose writes to what stands at a number aren't flushed yet.
    pub(crate) fn writer(&self, ino: Ino) -> Option<ClientId>
        ensures { result ≡ writer_of (node_at self.now ino) }
    {
        match self.node(ino) {
            Some(Node::Directory(_)) => None,
            Some(Node::Regular(file)) => file.writer(),
            None => None,
        }
    }

    /// Whether what a call with this reply meets is flushed.
    pub(crate) fn is_flushed_for_reply(&self, client: ClientId, call: &Call, reply: &Reply) -> bool
        ensures { result ≡ is_flushed_for_reply self.now client call.now reply.now }
    {
        match reply {
            Reply::Refused(_) => true,
            Reply::Done => self.is_flushed_for(client, call),
            Reply::Fd(_) => self.is_flushed_for(client, call),
            Reply::Bytes(_) => self.is_flushed_for(client, call),
            Reply::Count(_) => self.is_flushed_for(client, call),
            Reply::File(_) => self.is_flushed_for(client, call),
            Reply::Dir => self.is_flushed_for(client, call),
            Reply::Names(_) => self.is_flushed_for(client, call),
        }
    }

    /// Whether what a call meets is flushed.
    fn is_flushed_for(&self, client: ClientId, call: &Call) -> bool
        ensures { result ≡ is_flushed_for self.now client call.now }
    {
        match call {
            Call::Create(_) => true,
            Call::Mkdir(_) => true,
            Call::Unlink(path) => self.is_flushed_by_all(file_named(self, path.names())),
            Call::Rmdir(_) => true,
            Call::Rename(path, goal) => {
                self.is_flushed_move(move_of(self, path.names(), goal.names()))
            }
            Call::Open(_, _) => true,
            Call::Close(_) => true,
            Call::Read { fd, .. } => self.is_flushed_by_others(client, self.readable(client, *fd)),
            Call::Write { fd, .. } => self.is_flushed_by_others(client, self.writable(client, *fd)),
            Call::Truncate { fd, .. } => {
                self.is_flushed_by_others(client, self.writable(client, *fd))
            }
            Call::Stat(path) => self.is_flushed_by_others(client, resolve(self, path.names())),
            Call::Readdir(_) => true,
            Call::Fsync(fd) => self.is_flushed_by(client, self.opened(client, *fd)),
        }
    }

    /// Whether nobody has unflushed writes in a file.
    fn is_flushed_by_all(&self, file: Result<Ino, Why>) -> bool
        ensures { result ≡ is_flushed_by_all self.now file }
    {
        match file {
            Ok(ino) => self.writer(ino).is_none(),
            Err(_) => true,
        }
    }

    /// Whether nobody but this client has unflushed writes in a file.
    fn is_flushed_by_others(&self, client: ClientId, file: Result<Ino, Why>) -> bool
        ensures { result ≡ is_flushed_by_others self.now client file }
    {
        match file {
            Ok(ino) => is_own_or_none(self.writer(ino), client),
            Err(_) => true,
        }
    }

    /// Whether this client has no unflushed writes in a file.
    fn is_flushed_by(&self, client: ClientId, file: Result<Ino, Why>) -> bool
        ensures { result ≡ is_flushed_by self.now client file }
    {
        match file {
            Ok(ino) => !is_writer(self.writer(ino), client),
            Err(_) => true,
        }
    }

    /// Whether nobody has unflushed writes in what a `rename` replaces.
    fn is_flushed_move(&self, moving: Result<Move, Why>) -> bool
        ensures { result ≡ is_flushed_move self.now moving }
    {
        match moving {
            Ok(moving) => self.is_flushed_target(moving.replaced),
            Err(_) => true,
        }
    }

    /// Whether nobody has unflushed writes in what is replaced.
    fn is_flushed_target(&self, replaced: Option<Ino>) -> bool
        ensures { result ≡ is_flushed_target self.now replaced }
    {
        match replaced {
            Some(ino) => self.writer(ino).is_none(),
            None => true,
        }
    }
}

/// Whether there is no writer, or this client is it.
fn is_own_or_none(writer: Option<ClientId>, client: ClientId) -> bool
    ensures { result ≡ is_own_or_none writer client }
{
    match writer {
        Some(writer) => writer.0 == client.0,
        None => true,
    }
}
