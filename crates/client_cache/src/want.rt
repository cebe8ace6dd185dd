ghost use Rattle.std.specs.Prelude.{◌≡◌, IfOk};
ghost use Rattle.tree_law.specs.Needs.{want_of, want_open, want_read, want_write};
ghost use Rattle.client_cache.specs.Changes.{is_expected};
ghost use Rattle.client_cache.specs.Known.{inode_at};

use crate::cache::Cache;
use crate::holds::is_held;
use cal_base::{Ino, Oom};
use token_kind::{Class, Content, GrantItem};
use tree_law::{Call, Path, Want, Why};

impl Cache {
    /// Whether an item of a grant may be taken: one without content is of Open, or of a class in which
    /// something is held.
    pub fn expects(&self, item: &GrantItem) -> bool
        ensures { result ≡ is_expected (inode_at self.now item.now.ino) item.now.class item.now.content }
    {
        match item.class {
            Class::Names => match &item.content {
                Content::Nothing => is_held(self.held(item.ino, Class::Names)),
                Content::Names(_) | Content::Bytes(_) | Content::Size(_) => true,
            },
            Class::Data => match &item.content {
                Content::Nothing => is_held(self.held(item.ino, Class::Data)),
                Content::Names(_) | Content::Bytes(_) | Content::Size(_) => true,
            },
            Class::Attr => match &item.content {
                Content::Nothing => is_held(self.held(item.ino, Class::Attr)),
                Content::Names(_) | Content::Bytes(_) | Content::Size(_) => true,
            },
            Class::Open => true,
        }
    }

    /// What tokens are asked of a server for a call; none where it needs none, or is EBADF, EMFILE or
    /// EFBIG by the descriptors.
    pub fn want(&self, call: &Call) -> Result<Option<Want>, Oom>
        ensures { IfOk result (λ want. want ≡ want_of self.now.table call.now) }
    {
        match call {
            Call::Create(_) => Ok(None),
            Call::Mkdir(_) => Ok(None),
            Call::Unlink(_) => Ok(None),
            Call::Rmdir(_) => Ok(None),
            Call::Rename(_, _) => Ok(None),
            Call::Open(path, _) => Ok(want_open(self.least_unused(), path)?),
            Call::Close(_) => Ok(None),
            Call::Read {
                fd,
                offset: _,
                len: _,
            } => Ok(want_read(self.readable(*fd))),
            Call::Write { fd, offset, bytes } => {
                Ok(want_write(self.write_place(*fd, *offset, bytes.len())))
            }
            Call::Truncate { fd, size } => Ok(want_write(self.truncate_place(*fd, *size))),
            Call::Stat(path) => Ok(Some(Want::Stat(path.clone()?))),
            Call::Readdir(path) => Ok(Some(Want::Readdir(path.clone()?))),
            Call::Fsync(_) => Ok(None),
        }
    }
}

/// What `open` of a path wants with the lowest unused descriptor.
fn want_open(fd: Option<u8>, path: &Path) -> Result<Option<Want>, Oom>
    ensures { IfOk result (λ want. want ≡ want_open fd path.now) }
{
    match fd {
        Some(_) => Ok(Some(Want::Open(path.clone()?))),
        None => Ok(None),
    }
}

fn want_read(file: Result<Ino, Why>) -> Option<Want>
    ensures { result ≡ want_read file }
{
    match file {
        Ok(ino) => Some(Want::Read(ino)),
        Err(_) => None,
    }
}

fn want_write(file: Result<Ino, Why>) -> Option<Want>
    ensures { result ≡ want_write file }
{
    match file {
        Ok(ino) => Some(Want::Write(ino)),
        Err(_) => None,
    }
}
