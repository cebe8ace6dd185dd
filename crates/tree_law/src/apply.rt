ghost use Rattle.std.specs.Prelude.{◌≡◌, ◌↔◌, IsTrue, IfOk, OnOk, OnErr, IsErrOf};
ghost use Rattle.tree_law.specs.Tree.{node_at, writer_of};
ghost use Rattle.tree_law.specs.FileState.{is_writer};
ghost use Rattle.tree_law.specs.Legal.{Makes, IsWantOfRoom, IsNewInode, IsAllowed, IsNext, IsNextCall, IsMade, after, after_call, is_flushed_for_reply, blocks_of_move, blocks_wanted, unless_refused};
ghost use Rattle.tree_law.specs.declared.apply.ApplyError.TheVariants.{OutOfMemory};
ghost use Rattle.tree_law.specs.declared.entry.Entry.TheVariants.{Flush, Purge};
ghost use Rattle.tree_law.specs.declared.reply.Reply.TheVariants.{Refused};

use crate::call::Call;
use crate::entry::Entry;
use crate::plain_tree::PlainTree;
use crate::regular_file::is_writer;
use crate::rename::{Move, move_of};
use crate::reply::{Reply, Why};
use crate::resolving::new_place;
use cal_base::{Blob, ClientId, Ino, NameList, Oom};

/// Why an entry was not taken. The tree is then as it was.
#[derive(Clone, Copy, Debug, PartialEq, Eq)]
pub enum ApplyError {
    /// The tree doesn't allow the entry next.
    NotLegal,
    OutOfMemory,
}

impl From<Oom> for ApplyError {
    ghost from_gives = { λ _ e. e ≡ OutOfMemory };

    fn from(_error: Oom) -> ApplyError {
        ApplyError::OutOfMemory
    }
}

impl PlainTree {
    /// Takes an entry that the tree allows next. A call has to be of a client that isn't purged. Its
    /// reply has to be the tree's own, or want of an inode or of blocks where an entry or bytes would be
    /// made; its new inode free exactly where one was made; and what it meets flushed. A flush has to be
    /// the writer's, and a purge of a client that isn't purged.
    pub fn apply(&mut self, entry: &Entry) -> Result<(), ApplyError>
        ensures legal { OnOk result (IsNext self.old entry.now) }
        ensures ok { OnOk result (self.new ≡ after self.old entry.now) }
        ensures not_legal { IsErrOf result ApplyError.NotLegal → ¬ (IsNext self.old entry.now) }
        ensures err { OnErr result (self.new ≡ self.old) }
    {
        match entry {
            Entry::Call {
                client,
                call,
                reply,
                new_ino,
                ..
            } => self.apply_call(*client, call, reply, *new_ino),
            Entry::Flush { client, ino } => self.apply_flush(*client, *ino),
            Entry::Purge { client } => self.apply_purge(*client),
        }
    }

    /// Takes a call that the tree allows next.
    fn apply_call(
        &mut self,
        client: ClientId,
        call: &Call,
        reply: &Reply,
        new_ino: Option<Ino>,
    ) -> Result<(), ApplyError>
        ensures legal { OnOk result (IsNextCall self.old client call.now reply.now new_ino) }
        ensures ok { OnOk result (self.new ≡ after_call self.old client call.now reply.now new_ino) }
        ensures not_legal { IsErrOf result ApplyError.NotLegal → ¬ (IsNextCall self.old client call.now reply.now new_ino) }
        ensures err { OnErr result (self.new ≡ self.old) }
    {
        if !self.is_next_call(client, call, reply, new_ino)? {
            return Err(ApplyError::NotLegal);
        }
        self.change(client, call, reply, new_ino)?;
        Ok(())
    }

    /// Takes a flush of a file whose writer this client is.
    fn apply_flush(&mut self, client: ClientId, ino: Ino) -> Result<(), ApplyError>
        ensures legal { OnOk result (IsNext self.old (Flush client ino)) }
        ensures ok { OnOk result (self.new ≡ after self.old (Flush client ino)) }
        ensures not_legal { IsErrOf result ApplyError.NotLegal → ¬ (IsNext self.old (Flush client ino)) }
        ensures err { OnErr result (self.new ≡ self.old) }
    {
        if !is_writer(self.writer(ino), client) {
            return Err(ApplyError::NotLegal);
        }
        self.flush(ino);
        Ok(())
    }

    /// Takes a purge of a client that isn't purged.
    fn apply_purge(&mut self, client: ClientId) -> Result<(), ApplyError>
        ensures legal { OnOk result (IsNext self.old (Purge client)) }
        ensures ok { OnOk result (self.new ≡ after self.old (Purge client)) }
        ensures not_legal { IsErrOf result ApplyError.NotLegal → ¬ (IsNext self.old (Purge client)) }
        ensures err { OnErr result (self.new ≡ self.old) }
    {
        if self.is_purged(client) {
            return Err(ApplyError::NotLegal);
        }
        self.purge(client);
        Ok(())
    }

    /// Whether the tree allows a call next, with this reply and this new inode.
    fn is_next_call(
        &self,
        client: ClientId,
        call: &Call,
        reply: &Reply,
        new_ino: Option<Ino>,
    ) -> Result<bool, Oom>
        ensures { IfOk result (λ is_next. IsTrue is_next ↔ IsNextCall self.now client call.now reply.now new_ino) }
    {
        if self.is_purged(client) {
            return Ok(false);
        }
        if !self.is_new_inode(call, reply, new_ino) {
            return Ok(false);
        }
        if !self.is_flushed_for_reply(client, call, reply) {
            return Ok(false);
        }
        self.allows(client, call, reply)
    }

    /// Whether the tree allows this reply of a call.
    fn allows(&self, client: ClientId, call: &Call, reply: &Reply) -> Result<bool, Oom>
        ensures { IfOk result (λ allowed. IsTrue allowed ↔ IsAllowed self.now client call.now reply.now) }
    {
        let own = self.answer(self.alloc(), client, call)?;
        if is_same(&own, reply) {
            return Ok(true);
        }
        Ok(self.is_want_of_room(client, call, reply))
    }

    /// Whether a reply tells of want of an inode or of blocks, where the call may want them.
    fn is_want_of_room(&self, client: ClientId, call: &Call, reply: &Reply) -> bool
        ensures { IsTrue result ↔ IsWantOfRoom self.now client call.now reply.now }
    {
        match reply {
            Reply::Refused(why) => self.is_want(client, call, *why),
            Reply::Done => false,
            Reply::Fd(_) => false,
            Reply::Bytes(_) => false,
            Reply::Count(_) => false,
            Reply::File(_) => false,
            Reply::Dir => false,
            Reply::Names(_) => false,
        }
    }

    /// The same of a refusal.
    fn is_want(&self, client: ClientId, call: &Call, why: Why) -> bool
        ensures { IsTrue result ↔ IsWantOfRoom self.now client call.now (Refused why) }
    {
        match why {
            Why::NoInode => self.makes(call),
            Why::NoSpace { free, needed } => {
                free < needed && needed == self.blocks_wanted(client, call)
            }
            Why::Exist => false,
            Why::NoEnt => false,
            Why::NotDir => false,
            Why::IsDir => false,
            Why::NotEmpty => false,
            Why::Inval => false,
            Why::Busy => false,
            Why::MFile => false,
            Why::BadF => false,
            Why::FBig => false,
            Why::DirFull => false,
        }
    }

    /// How many blocks a call may want: 1 for an entry more in a directory, 16 for the bytes of a file.
    pub fn blocks_wanted(&self, client: ClientId, call: &Call) -> u16
        ensures { result ≡ blocks_wanted self.now client call.now }
    {
        match call {
            Call::Create(path) => unless_refused(1, new_place(self, path.names())),
            Call::Mkdir(path) => unless_refused(1, new_place(self, path.names())),
            Call::Unlink(_) => 0,
            Call::Rmdir(_) => 0,
            Call::Rename(path, goal) => blocks_of_move(move_of(self, path.names(), goal.names())),
            Call::Open(_, _) => 0,
            Call::Close(_) => 0,
            Call::Read { .. } => 0,
            Call::Write { fd, offset, bytes } => {
                unless_refused(16, self.write_place(client, *fd, *offset, bytes.len()))
            }
            Call::Truncate { fd, size } => {
                unless_refused(16, self.truncate_place(client, *fd, *size))
            }
            Call::Stat(_) => 0,
            Call::Readdir(_) => 0,
            Call::Fsync(_) => 0,
        }
    }

    /// Whether a call would make an inode.
    pub fn makes(&self, call: &Call) -> bool
        ensures { IsTrue result ↔ Makes self.now call.now }
    {
        match call {
            Call::Create(path) => new_place(self, path.names()).is_ok(),
            Call::Mkdir(path) => new_place(self, path.names()).is_ok(),
            Call::Unlink(_) => false,
            Call::Rmdir(_) => false,
            Call::Rename(_, _) => false,
            Call::Open(_, _) => false,
            Call::Close(_) => false,
            Call::Read { .. } => false,
            Call::Write { .. } => false,
            Call::Truncate { .. } => false,
            Call::Stat(_) => false,
            Call::Readdir(_) => false,
            Call::Fsync(_) => false,
        }
    }

    /// Whether this can be the new inode of a call with this reply.
    fn is_new_inode(&self, call: &Call, reply: &Reply, new_ino: Option<Ino>) -> bool
        ensures { IsTrue result ↔ IsNewInode self.now call.now reply.now new_ino }
    {
        match call {
            Call::Create(_) => self.is_made(reply, new_ino),
            Call::Mkdir(_) => self.is_made(reply, new_ino),
            Call::Unlink(_) => new_ino.is_none(),
            Call::Rmdir(_) => new_ino.is_none(),
            Call::Rename(_, _) => new_ino.is_none(),
            Call::Open(_, _) => new_ino.is_none(),
            Call::Close(_) => new_ino.is_none(),
            Call::Read { .. } => new_ino.is_none(),
            Call::Write { .. } => new_ino.is_none(),
            Call::Truncate { .. } => new_ino.is_none(),
            Call::Stat(_) => new_ino.is_none(),
            Call::Readdir(_) => new_ino.is_none(),
            Call::Fsync(_) => new_ino.is_none(),
        }
    }

    /// Whether this can be the new inode of a call that makes one, with this reply.
    fn is_made(&self, reply: &Reply, new_ino: Option<Ino>) -> bool
        ensures { IsTrue result ↔ IsMade self.now reply.now new_ino }
    {
        match reply {
            Reply::Done => match new_ino {
                Some(ino) => self.is_free(ino),
                None => false,
            },
            Reply::Fd(_) => new_ino.is_none(),
            Reply::Bytes(_) => new_ino.is_none(),
            Reply::Count(_) => new_ino.is_none(),
            Reply::File(_) => new_ino.is_none(),
            Reply::Dir => new_ino.is_none(),
            Reply::Names(_) => new_ino.is_none(),
            Reply::Refused(_) => new_ino.is_none(),
        }
    }
}

/// Blocks, unless the call is refused.
fn unless_refused(blocks: u16, place: Result<Ino, Why>) -> u16
    ensures { result ≡ unless_refused blocks place }
{
    match place {
        Ok(_) => blocks,
        Err(_) => 0,
    }
}

/// Blocks that a `rename` may want.
fn blocks_of_move(moving: Result<Move, Why>) -> u16
    ensures { result ≡ blocks_of_move moving }
{
    match moving {
        Ok(moving) => {
            if moving.replaced.is_none() && moving.from.0 != moving.to.0 {
                1
            } else {
                0
            }
        }
        Err(_) => 0,
    }
}

/// Whether the replies are one.
fn is_same(own: &Reply, reply: &Reply) -> bool
    ensures { IsTrue result ↔ (reply.now ≡ own.now) }
{
    match (own, reply) {
        (Reply::Done, Reply::Done) => true,
        (Reply::Fd(fd), Reply::Fd(other)) => *fd == *other,
        (Reply::Bytes(bytes), Reply::Bytes(others)) => is_same_bytes(bytes, others),
        (Reply::Count(count), Reply::Count(other)) => *count == *other,
        (Reply::File(size), Reply::File(other)) => *size == *other,
        (Reply::Dir, Reply::Dir) => true,
        (Reply::Names(names), Reply::Names(others)) => is_same_list(names, others),
        (Reply::Refused(why), Reply::Refused(other)) => *why == *other,
        (Reply::Done, _)
        | (Reply::Fd(_), _)
        | (Reply::Bytes(_), _)
        | (Reply::Count(_), _)
        | (Reply::File(_), _)
        | (Reply::Dir, _)
        | (Reply::Names(_), _)
        | (Reply::Refused(_), _) => false,
    }
}

/// Whether the bytes are the same.
fn is_same_bytes(bytes: &Blob, others: &Blob) -> bool
    ensures { IsTrue result ↔ (others.now ≡ bytes.now) }
{
    bytes == others
}

/// Whether the lists of names are one.
fn is_same_list(names: &NameList, others: &NameList) -> bool
    ensures { IsTrue result ↔ (others.now ≡ names.now) }
{
    names == others
}
