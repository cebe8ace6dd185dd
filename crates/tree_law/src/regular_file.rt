ghost use Rattle.std.specs.Prelude.{◌≡◌, ◌≤◌, ◌+◌, Some, IfOk, OnOk, OnErr, length, unwrap_or};
ghost use Rattle.cal_base.specs.Limits.{file_size};
ghost use Rattle.tree_law.specs.FileState.{new_file, changed_file, flushed_file, restored_file, is_writer};
ghost use Rattle.file_bytes.specs.Bytes.{read_at, resized, written};

use cal_base::{Blob, ClientId, Oom};
use std::alloc::Global;
use std::marker::Model;

/// A regular file: its present bytes, at most 262,144; those that last; and the client whose writes
/// aren't flushed yet.
#[derive(Debug, Drop)]
pub struct RegularFile {
    contents: Vec<u8>,
    /// What lasts, where that isn't the present bytes.
    kept: Option<Blob>,
    writer: Option<ClientId>,
}

impl Model for RegularFile {
    ghost use Rattle.std.specs.Prelude.{◌≤◌, length, unwrap_or};
    ghost use Rattle.cal_base.specs.Limits.{file_size};
    ghost use Rattle.tree_law.specs.FileState.{FileState};

    ghost Value = { FileState };

    ghost view = { λ file. record { contents = file.contents.items; kept = unwrap_or file.kept file.contents.items; writer = file.writer } };

    ghost invariant = { λ file. (length file.contents.items ≤ file_size) × (length (unwrap_or file.kept file.contents.items) ≤ file_size) };
}

impl RegularFile {
    /// A file without bytes. It takes no memory.
    pub fn new(alloc: Global) -> RegularFile
        ensures { result ≡ new_file }
    {
        RegularFile {
            contents: Vec::new(alloc),
            kept: None,
            writer: None,
        }
    }

    /// Its size in bytes.
    pub fn size(&self) -> u32
        ensures { result ≡ length self.now.contents }
    {
        self.contents.len() as u32
    }

    /// The client whose writes aren't flushed yet.
    pub fn writer(&self) -> Option<ClientId>
        ensures { result ≡ self.now.writer }
    {
        self.writer
    }

    /// The present bytes from an offset on, at most so many.
    pub fn read(&self, alloc: Global, offset: usize, count: usize) -> Result<Blob, Oom>
        ensures { IfOk result (λ bytes. bytes ≡ read_at self.now.contents offset count) }
    {
        file_bytes::read(alloc, self.contents.as_slice(), offset, count)
    }

    /// Lays bytes over the present ones; a gap before them becomes zeros. What lasts stays.
    pub fn write(
        &mut self,
        alloc: Global,
        client: ClientId,
        offset: usize,
        bytes: &[u8],
    ) -> Result<(), Oom>
        requires { offset + length bytes.now ≤ file_size }
        ensures ok { OnOk result (self.new ≡ changed_file client (written self.old.contents offset bytes.now) self.old) }
        ensures err { OnErr result (self.new ≡ self.old) }
    {
        keep(alloc, &mut self.kept, self.contents.as_slice())?;
        file_bytes::write(&mut self.contents, offset, bytes)?;
        self.writer = Some(client);
        Ok(())
    }

    /// Cuts the present bytes off at a size, or grows them to it by zeros. What lasts stays.
    pub fn truncate(&mut self, alloc: Global, client: ClientId, size: usize) -> Result<(), Oom>
        requires { size ≤ file_size }
        ensures ok { OnOk result (self.new ≡ changed_file client (resized self.old.contents size) self.old) }
        ensures err { OnErr result (self.new ≡ self.old) }
    {
        keep(alloc, &mut self.kept, self.contents.as_slice())?;
        file_bytes::resize(&mut self.contents, size)?;
        self.writer = Some(client);
        Ok(())
    }

    /// Makes the present bytes last.
    pub fn flush(&mut self)
        ensures { self.new ≡ flushed_file self.old }
    {
        self.kept = None;
        self.writer = None;
    }

    /// Goes back to what lasts, if the unflushed writes are this client's.
    pub fn restore(&mut self, client: ClientId)
        ensures { self.new ≡ restored_file client self.old }
    {
        if is_writer(self.writer, client) {
            if let Some(kept) = self.kept.take() {
                self.contents = kept.into_vec();
            }
            self.flush();
        }
    }
}

/// Whether a client is the writer.
pub(crate) fn is_writer(writer: Option<ClientId>, client: ClientId) -> bool
    ensures { result ≡ is_writer writer client }
{
    match writer {
        Some(writer) => writer.0 == client.0,
        None => false,
    }
}

/// Sets what lasts apart from the present bytes.
fn keep(alloc: Global, kept: &mut Option<Blob>, contents: &[u8]) -> Result<(), Oom>
    ensures ok { OnOk result (kept.new ≡ Some (unwrap_or kept.old contents.now)) }
    ensures err { OnErr result (kept.new ≡ kept.old) }
{
    match kept {
        Some(_) => Ok(()),
        None => {
            *kept = Some(file_bytes::copy(alloc, contents)?);
            Ok(())
        }
    }
}
