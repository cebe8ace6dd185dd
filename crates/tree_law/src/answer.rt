ghost use Rattle.std.specs.Prelude.{◌≡◌, ◌+◌, IfOk, length};
ghost use Rattle.tree_law.specs.Tree.{table_of};
ghost use Rattle.tree_law.specs.Descriptors.{within_limit, writable};
ghost use Rattle.tree_law.specs.Answer.{answer, bytes_of, counted, listing_of, made, moved, opened_as, status_of, told_at};

use crate::call::Call;
use crate::node::Node;
use crate::plain_tree::PlainTree;
use crate::rename::{Move, move_of};
use crate::reply::{Reply, Why};
use crate::resolving::{file_named, new_place, removable, resolve};
use cal_base::{Blob, ClientId, Ino, Oom};
use std::alloc::Global;

impl PlainTree {
    /// The answer to a client's call, where neither an inode nor a block is wanting: the first refusal,
    /// else what the call tells where it is carried out.
    pub fn answer(&self, alloc: Global, client: ClientId, call: &Call) -> Result<Reply, Oom>
        ensures { IfOk result (λ reply. reply ≡ answer self.now client call.now) }
    {
        match call {
            Call::Create(path) => Ok(reply_of(new_place(self, path.names()))),
            Call::Mkdir(path) => Ok(reply_of(new_place(self, path.names()))),
            Call::Unlink(path) => Ok(reply_of(file_named(self, path.names()))),
            Call::Rmdir(path) => Ok(reply_of(removable(self, path.names()))),
            Call::Rename(path, goal) => Ok(moved(move_of(self, path.names(), goal.names()))),
            Call::Open(path, _) => Ok(opened_as(
                self.least_unused(client),
                file_named(self, path.names()),
            )),
            Call::Close(fd) => Ok(reply_of(self.opened(client, *fd))),
            Call::Read { fd, offset, len } => {
                self.read(alloc, self.readable(client, *fd), *offset, *len)
            }
            Call::Write { fd, offset, bytes } => Ok(self.write_count(client, *fd, *offset, bytes)),
            Call::Truncate { fd, size } => Ok(reply_of(self.truncate_place(client, *fd, *size))),
            Call::Stat(path) => Ok(self.status(resolve(self, path.names()))),
            Call::Readdir(path) => self.list(alloc, resolve(self, path.names())),
            Call::Fsync(fd) => Ok(reply_of(self.opened(client, *fd))),
        }
    }

    /// How many bytes are written, or why none are.
    fn write_count(&self, client: ClientId, fd: u8, offset: u64, bytes: &Blob) -> Reply
        ensures { result ≡ counted (length bytes.now) (within_limit (offset + length bytes.now) (writable (table_of self.now client) fd)) }
    {
        match self.write_place(client, fd, offset, bytes.len()) {
            Ok(_) => Reply::Count(bytes.len() as u32),
            Err(why) => Reply::Refused(why),
        }
    }

    /// The bytes of a file from an offset on, at most so many.
    fn read(
        &self,
        alloc: Global,
        file: Result<Ino, Why>,
        offset: u64,
        len: u32,
    ) -> Result<Reply, Oom>
        ensures { IfOk result (λ reply. reply ≡ told_at (bytes_of offset len) self.now file) }
    {
        match file {
            Ok(ino) => match self.node(ino) {
                Some(Node::Directory(_)) => Ok(Reply::Bytes(Blob::new(alloc))),
                Some(Node::Regular(file)) => Ok(Reply::Bytes(file.read(
                    alloc,
                    offset as usize,
                    len as usize,
                )?)),
                None => Ok(Reply::Bytes(Blob::new(alloc))),
            },
            Err(why) => Ok(Reply::Refused(why)),
        }
    }

    /// What stands where resolving ends, as `stat` tells it.
    fn status(&self, at: Result<Ino, Why>) -> Reply
        ensures { result ≡ told_at status_of self.now at }
    {
        match at {
            Ok(ino) => match self.node(ino) {
                Some(Node::Directory(_)) => Reply::Dir,
                Some(Node::Regular(file)) => Reply::File(file.size()),
                None => Reply::Refused(Why::NoEnt),
            },
            Err(why) => Reply::Refused(why),
        }
    }

    /// The names of a directory, as `readdir` tells them.
    fn list(&self, alloc: Global, at: Result<Ino, Why>) -> Result<Reply, Oom>
        ensures { IfOk result (λ reply. reply ≡ told_at listing_of self.now at) }
    {
        match at {
            Ok(ino) => match self.node(ino) {
                Some(Node::Directory(directory)) => Ok(Reply::Names(directory.names(alloc)?)),
                Some(Node::Regular(_)) => Ok(Reply::Refused(Why::NotDir)),
                None => Ok(Reply::Refused(Why::NoEnt)),
            },
            Err(why) => Ok(Reply::Refused(why)),
        }
    }
}

/// The reply of a call that tells nothing.
fn reply_of(place: Result<Ino, Why>) -> Reply
    ensures { result ≡ made place }
{
    match place {
        Ok(_) => Reply::Done,
        Err(why) => Reply::Refused(why),
    }
}

/// The reply of `rename`.
fn moved(moving: Result<Move, Why>) -> Reply
    ensures { result ≡ moved moving }
{
    match moving {
        Ok(_) => Reply::Done,
        Err(why) => Reply::Refused(why),
    }
}

/// The reply of `open`.
fn opened_as(fd: Option<u8>, file: Result<Ino, Why>) -> Reply
    ensures { result ≡ opened_as fd file }
{
    match fd {
        Some(fd) => match file {
            Ok(_) => Reply::Fd(fd),
            Err(why) => Reply::Refused(why),
        },
        None => Reply::Refused(Why::MFile),
    }
}
