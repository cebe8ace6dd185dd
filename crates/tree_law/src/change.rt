ghost use Rattle.std.specs.Prelude.{◌≡◌, ◌+◌, OnOk, OnErr, Ok, None, length};
ghost use Rattle.tree_law.specs.Tree.{node_at, table_of, least_unused, empty_directory, empty_file};
ghost use Rattle.file_bytes.specs.Bytes.{resized, written};
ghost use Rattle.tree_law.specs.Resolve.{last_of, new_place, file_named, removable, parent_of};
ghost use Rattle.tree_law.specs.Rename.{move_of};
ghost use Rattle.tree_law.specs.Descriptors.{writable, within_limit};
ghost use Rattle.tree_law.specs.Idle.{swept, with_node};
ghost use Rattle.tree_law.specs.After.{after_call, carried_out, flushed_node, with_bytes, with_descriptor, with_entry, with_move, with_open, without_client, without_directory, without_entry, without_replaced};
ghost use Rattle.tree_law.specs.Legal.{IsNewInode};

use crate::call::Call;
use crate::descriptor::Descriptor;
use crate::directory::Directory;
use crate::lookup::Lookup;
use crate::mode::Mode;
use crate::node::Node;
use crate::path::{Path, copy_name};
use crate::plain_tree::PlainTree;
use crate::regular_file::RegularFile;
use crate::rename::{Move, move_of};
use crate::reply::{Reply, Why};
use crate::resolving::{file_named, new_place, parent_of, removable};
use cal_base::{Blob, ClientId, Ino, Oom};

impl PlainTree {
    /// Changes the tree as a client's call does that was answered so and made this inode. A refusal
    /// changes nothing.
    pub fn change(
        &mut self,
        client: ClientId,
        call: &Call,
        reply: &Reply,
        new_ino: Option<Ino>,
    ) -> Result<(), Oom>
        requires { IsNewInode self.old call.now reply.now new_ino }
        ensures ok { OnOk result (self.new ≡ after_call self.old client call.now reply.now new_ino) }
        ensures err { OnErr result (self.new ≡ self.old) }
    {
        match reply {
            Reply::Refused(_) => Ok(()),
            Reply::Done => self.carry_out(client, call, new_ino),
            Reply::Fd(_) => self.carry_out(client, call, new_ino),
            Reply::Bytes(_) => self.carry_out(client, call, new_ino),
            Reply::Count(_) => self.carry_out(client, call, new_ino),
            Reply::File(_) => self.carry_out(client, call, new_ino),
            Reply::Dir => self.carry_out(client, call, new_ino),
            Reply::Names(_) => self.carry_out(client, call, new_ino),
        }
    }

    /// Carries a call out, which makes this inode.
    fn carry_out(&mut self, client: ClientId, call: &Call, new_ino: Option<Ino>) -> Result<(), Oom>
        ensures ok { OnOk result (self.new ≡ carried_out self.old client call.now new_ino) }
        ensures err { OnErr result (self.new ≡ self.old) }
    {
        match call {
            Call::Create(path) => self.create(path, new_ino),
            Call::Mkdir(path) => self.make_directory(path, new_ino),
            Call::Unlink(path) => {
                self.unlink(path);
                Ok(())
            }
            Call::Rmdir(path) => {
                self.remove_directory(path);
                Ok(())
            }
            Call::Rename(path, goal) => self.rename(path, goal),
            Call::Open(path, mode) => {
                self.open(client, path, *mode);
                Ok(())
            }
            Call::Close(fd) => {
                self.close(client, *fd);
                Ok(())
            }
            Call::Read { .. } => Ok(()),
            Call::Write { fd, offset, bytes } => self.write(client, *fd, *offset, bytes),
            Call::Truncate { fd, size } => self.truncate(client, *fd, *size),
            Call::Stat(_) => Ok(()),
            Call::Readdir(_) => Ok(()),
            Call::Fsync(_) => Ok(()),
        }
    }

    /// Makes an empty file under the last name of a path.
    fn create(&mut self, path: &Path, new_ino: Option<Ino>) -> Result<(), Oom>
        ensures ok { OnOk result (self.new ≡ swept (with_entry self.old (new_place self.old path.now) (last_of path.now) new_ino empty_file)) }
        ensures err { OnErr result (self.new ≡ self.old) }
    {
        let file = Node::Regular(RegularFile::new(self.alloc()));
        self.make_node(path.names(), new_ino, file)?;
        self.sweep();
        Ok(())
    }

    /// Makes an empty directory under the last name of a path.
    fn make_directory(&mut self, path: &Path, new_ino: Option<Ino>) -> Result<(), Oom>
        ensures ok { OnOk result (self.new ≡ swept (with_entry self.old (new_place self.old path.now) (last_of path.now) new_ino empty_directory)) }
        ensures err { OnErr result (self.new ≡ self.old) }
    {
        let directory = Node::Directory(Directory::new(self.alloc()));
        self.make_node(path.names(), new_ino, directory)?;
        self.sweep();
        Ok(())
    }

    /// Makes a node under the last name of a path, where that can be made.
    fn make_node(&mut self, path: &[Blob], new_ino: Option<Ino>, node: Node) -> Result<(), Oom>
        ensures ok { OnOk result (self.new ≡ with_entry self.old (new_place self.old path.now) (last_of path.now) new_ino node) }
        ensures err { OnErr result (self.new ≡ self.old) }
    {
        match new_place(self, path) {
            Ok(place) => match new_ino {
                Some(ino) => {
                    let name = copy_name(self.alloc(), path[path.len() - 1].as_slice())?;
                    self.put_name(place, name, ino)?;
                    self.put_node(ino.0, Some(node));
                    Ok(())
                }
                None => Ok(()),
            },
            Err(_) => Ok(()),
        }
    }

    /// Takes a file's name away.
    fn unlink(&mut self, path: &Path)
        ensures { self.new ≡ swept (without_entry self.old (parent_of self.old path.now) path.now) }
    {
        self.take_entry(path.names());
        self.sweep();
    }

    /// Takes the last name of a path out of its directory.
    fn take_entry(&mut self, path: &[Blob])
        ensures { self.new ≡ without_entry self.old (parent_of self.old path.now) path.now }
    {
        match parent_of(self, path) {
            Ok(place) => {
                if !path.is_empty() {
                    self.take_name(place, &path[path.len() - 1]);
                }
            }
            Err(_) => (),
        }
    }

    /// Removes an empty directory.
    fn remove_directory(&mut self, path: &Path)
        ensures { self.new ≡ swept (without_directory self.old (removable self.old path.now) (parent_of self.old path.now) path.now) }
    {
        self.take_directory(path.names());
        self.sweep();
    }

    /// Takes an empty directory and its name away.
    fn take_directory(&mut self, path: &[Blob])
        ensures { self.new ≡ without_directory self.old (removable self.old path.now) (parent_of self.old path.now) path.now }
    {
        match removable(self, path) {
            Ok(ino) => {
                self.take_entry(path);
                self.put_node(ino.0, None);
            }
            Err(_) => (),
        }
    }

    /// Moves an entry.
    fn rename(&mut self, path: &Path, goal: &Path) -> Result<(), Oom>
        ensures ok { OnOk result (self.new ≡ swept (with_move self.old (move_of self.old path.now goal.now) (last_of path.now) (last_of goal.now))) }
        ensures err { OnErr result (self.new ≡ self.old) }
    {
        self.move_entry(path.names(), goal.names())?;
        self.sweep();
        Ok(())
    }

    /// Moves an entry from a path to a goal, where nothing refuses that.
    fn move_entry(&mut self, path: &[Blob], goal: &[Blob]) -> Result<(), Oom>
        ensures ok { OnOk result (self.new ≡ with_move self.old (move_of self.old path.now goal.now) (last_of path.now) (last_of goal.now)) }
        ensures err { OnErr result (self.new ≡ self.old) }
    {
        match move_of(self, path, goal) {
            Ok(moving) => self.carry_move(moving, &path[path.len() - 1], &goal[goal.len() - 1]),
            Err(_) => Ok(()),
        }
    }

    /// Puts the new name, takes the old one, and drops a directory that was replaced.
    fn carry_move(&mut self, moving: Move, name: &Blob, goal: &Blob) -> Result<(), Oom>
        ensures ok { OnOk result (self.new ≡ with_move self.old (Ok moving) name.now goal.now) }
        ensures err { OnErr result (self.new ≡ self.old) }
    {
        if moving.is_same {
            return Ok(());
        }
        let goal = copy_name(self.alloc(), goal.as_slice())?;
        self.put_name(moving.to, goal, moving.ino)?;
        self.take_name(moving.from, name);
        self.drop_replaced(moving.replaced);
        Ok(())
    }

    /// Drops a directory that an entry has replaced. A file stays while it is in use.
    fn drop_replaced(&mut self, replaced: Option<Ino>)
        ensures { self.new ≡ without_replaced self.old replaced }
    {
        if let Some(ino) = replaced {
            if self.is_directory(ino) {
                self.put_node(ino.0, None);
            }
        }
    }

    /// Opens a file under the lowest unused descriptor.
    fn open(&mut self, client: ClientId, path: &Path, mode: Mode)
        ensures { self.new ≡ swept (with_open self.old client (least_unused (table_of self.old client)) (file_named self.old path.now) mode) }
    {
        self.put_open(
            client,
            self.least_unused(client),
            file_named(self, path.names()),
            mode,
        );
        self.sweep();
    }

    /// Makes a descriptor stand for a file, if there are both.
    fn put_open(&mut self, client: ClientId, fd: Option<u8>, file: Result<Ino, Why>, mode: Mode)
        ensures { self.new ≡ with_open self.old client fd file mode }
    {
        match fd {
            Some(fd) => match file {
                Ok(ino) => self.set_descriptor(client, fd, Some(Descriptor { ino, mode })),
                Err(_) => (),
            },
            None => (),
        }
    }

    /// Gives a descriptor back.
    fn close(&mut self, client: ClientId, fd: u8)
        ensures { self.new ≡ swept (with_descriptor self.old client fd None) }
    {
        self.set_descriptor(client, fd, None);
        self.sweep();
    }

    /// Lays bytes over those of a file.
    fn write(&mut self, client: ClientId, fd: u8, offset: u64, bytes: &Blob) -> Result<(), Oom>
        ensures ok { OnOk result (self.new ≡ swept (with_bytes self.old client (λ contents. written contents offset bytes.now) (within_limit (offset + length bytes.now) (writable (table_of self.old client) fd)))) }
        ensures err { OnErr result (self.new ≡ self.old) }
    {
        match self.write_place(client, fd, offset, bytes.len()) {
            Ok(ino) => self.write_node(ino, client, offset as usize, bytes.as_slice())?,
            Err(_) => (),
        }
        self.sweep();
        Ok(())
    }

    /// Sets a file's size.
    fn truncate(&mut self, client: ClientId, fd: u8, size: u64) -> Result<(), Oom>
        ensures ok { OnOk result (self.new ≡ swept (with_bytes self.old client (λ contents. resized contents size) (within_limit size (writable (table_of self.old client) fd)))) }
        ensures err { OnErr result (self.new ≡ self.old) }
    {
        match self.truncate_place(client, fd, size) {
            Ok(ino) => self.truncate_node(ino, client, size as usize)?,
            Err(_) => (),
        }
        self.sweep();
        Ok(())
    }

    /// Makes what a client wrote to a file last.
    pub(crate) fn flush(&mut self, ino: Ino)
        ensures { self.new ≡ swept (with_node self.old ino.0 (flushed_node (node_at self.old ino))) }
    {
        self.flush_node(ino);
        self.sweep();
    }

    /// Takes a client and its unflushed writes away.
    pub(crate) fn purge(&mut self, client: ClientId)
        ensures { self.new ≡ swept (without_client self.old client) }
    {
        self.remove_client(client);
        self.sweep();
    }
}
