ghost use Rattle.std.specs.Prelude.{◌≡◌, true};
ghost use Rattle.cal_base.specs.declared.identity.Ino.{Ino as Inode};
ghost use Rattle.client_cache.specs.declared.next_step.Next.TheVariants.{Answer, Flushes, LastClose};
ghost use Rattle.client_cache.specs.Covered.{IsSpelled, is_answerable};
ghost use Rattle.client_cache.specs.Known.{inode_at, is_settled};
ghost use Rattle.client_cache.specs.Next.{file_if_any, last_close, next_of, next_on, next_uncovered};

use crate::cache::Cache;
use cal_base::Ino;
use tree_law::{Call, Why};

/// What a client does with its outstanding call now.
#[derive(Clone, Copy, Debug, PartialEq, Eq)]
pub enum Next {
    /// It answers the call by what it holds.
    Answer,
    /// It answers this `close`, the last one of the file, and gives the Open of it back.
    LastClose(Ino),
    /// It waits until a flush is done.
    Waits,
    /// It starts a flush of this file that leaves Read of its bytes and its size, and waits.
    Flushes(Ino),
    /// It asks the server: a change of the tree is sent, for another call what it needs is asked for.
    Asks,
}

impl Cache {
    /// What a client does with a call now: the first that applies of these. A covered call is answered.
    /// A change of the tree is sent. A last `close` is answered, and Open given back. A call waits while
    /// a flush is outstanding of the file whose bytes or size it needs, or that it syncs. A write or
    /// truncate that would leave more than 16 blocks unflushed, and `fsync`, start a flush of a file of
    /// which something is unflushed. For every other call the server is asked.
    pub fn next(&self, call: &Call) -> Next
        requires { IsSpelled call.now }
        ensures value { result ≡ next_of self.now call.now }
        ensures answers { result ≡ Answer → is_answerable self.now call.now ≡ true }
        ensures closes { (ino : Inode) → result ≡ LastClose ino → is_answerable self.now call.now ≡ true }
        ensures flushes { (ino : Inode) → result ≡ Flushes ino → (is_settled self.now ino ≡ true) × ((inode_at self.now ino).file.unflushed ≡ true) }
    {
        self.choose(call)
    }

    fn choose(&self, call: &Call) -> Next
        requires { IsSpelled call.now }
        ensures { result ≡ next_of self.now call.now }
    {
        if self.covers(call) {
            Next::Answer
        } else {
            self.next_uncovered(call)
        }
    }

    fn next_uncovered(&self, call: &Call) -> Next
        requires { IsSpelled call.now }
        ensures { result ≡ next_uncovered self.now call.now }
    {
        match call {
            Call::Create(_) => Next::Asks,
            Call::Mkdir(_) => Next::Asks,
            Call::Unlink(_) => Next::Asks,
            Call::Rmdir(_) => Next::Asks,
            Call::Rename(_, _) => Next::Asks,
            Call::Open(_, _) => Next::Asks,
            Call::Close(fd) => last_close(self.opened(*fd)),
            Call::Read {
                fd,
                offset: _,
                len: _,
            } => self.next_on(false, file_if_any(self.readable(*fd))),
            Call::Write { fd, offset, bytes } => self.next_on(
                !self.write_room(*fd, *offset, bytes.len()),
                file_if_any(self.write_place(*fd, *offset, bytes.len())),
            ),
            Call::Truncate { fd, size } => self.next_on(
                !self.truncate_room(*fd, *size),
                file_if_any(self.truncate_place(*fd, *size)),
            ),
            Call::Stat(path) => self.next_on(false, self.target(path)),
            Call::Readdir(_) => Next::Asks,
            Call::Fsync(fd) => self.next_on(true, file_if_any(self.opened(*fd))),
        }
    }

    /// What comes of a call on a file that isn't covered; `first` where a flush has to come before it.
    fn next_on(&self, first: bool, file: Option<Ino>) -> Next
        ensures { result ≡ next_on self.now first file }
    {
        match file {
            Some(ino) => {
                if self.flushing(ino) {
                    Next::Waits
                } else if first && self.unflushed(ino) {
                    Next::Flushes(ino)
                } else {
                    Next::Asks
                }
            }
            None => Next::Asks,
        }
    }
}

fn last_close(file: Result<Ino, Why>) -> Next
    ensures { result ≡ last_close file }
{
    match file {
        Ok(ino) => Next::LastClose(ino),
        Err(_) => Next::Answer,
    }
}

fn file_if_any(file: Result<Ino, Why>) -> Option<Ino>
    ensures { result ≡ file_if_any file }
{
    match file {
        Ok(ino) => Some(ino),
        Err(_) => None,
    }
}
