ghost use Rattle.std.specs.Prelude.{◌≡◌, ◌≤◌, ◌<◌, ◌+◌, ℕ, List, false, IfOk, OnOk, OnErr, length};
ghost use Rattle.cal_base.specs.Limits.{file_size, inodes, unflushed_blocks};
ghost use Rattle.token_kind.specs.Flush.{IsFlush, IsFlushed};
ghost use Rattle.token_kind.specs.Hold.{hold_number};
ghost use Rattle.file_bytes.specs.Bytes.{read_at};
ghost use Rattle.delayed_write.specs.Marks.{marked_by_truncate, marked_by_write, marked_count};
ghost use Rattle.delayed_write.specs.Delayed.{IsDelayed, Turns, after_truncate, after_write, clean, flush_of};

use crate::marks;
use crate::pieces::pieces;
use cal_base::{Blob, FILE_BLOCKS, Ino, Oom};
use std::marker::Model;
use token_kind::{Flush, Hold};

/// A file of which a client may have unflushed writes: its present bytes, the marked blocks, whose
/// bytes the server hasn't got, and the cut, the least size since the last flush. A file has at most
/// 262,144 bytes, in 64 blocks of 4,096, of which at most 16 are marked.
#[derive(Drop)]
pub struct Delayed {
    contents: Vec<u8>,
    marks: [bool; FILE_BLOCKS],
    cut: u32,
    unflushed: bool,
}

impl Model for Delayed {
    ghost use Rattle.delayed_write.specs.Delayed.{Delayed as DelayedFile, IsDelayed};

    ghost Value = { DelayedFile };

    ghost view = { λ d. record { contents = d.contents.items; marks = d.marks; cut = d.cut; unflushed = d.unflushed } };

    ghost invariant = { λ d. IsDelayed (record { contents = d.contents.items; marks = d.marks; cut = d.cut; unflushed = d.unflushed }) };
}

impl Delayed {
    /// A file with these contents, as the server keeps them: nothing is unflushed. It takes no memory.
    pub fn new(kept: Blob) -> Delayed
        requires { length kept ≤ file_size }
        ensures value { result ≡ clean kept }
        ensures turns { Turns kept result }
    {
        let contents = kept.into_vec();
        let cut = contents.len() as u32;
        Delayed {
            contents,
            marks: [false; FILE_BLOCKS],
            cut,
            unflushed: false,
        }
    }

    /// The size of the file in bytes, at most 262,144.
    pub fn size(&self) -> u32
        ensures value { result ≡ length self.now.contents }
        ensures limit { result ≤ file_size }
    {
        self.contents.len() as u32
    }

    /// Whether there was a write or a truncate since the last flush. If not, nothing is marked and the
    /// cut is the size.
    pub fn unflushed(&self) -> bool
        ensures value { result ≡ self.now.unflushed }
        ensures idle { result ≡ false → self.now ≡ clean self.now.contents }
    {
        self.unflushed
    }

    /// The bytes from an offset on, at most `len`, none at or past the end.
    pub fn read(&self, offset: u32, len: u32) -> Result<Blob, Oom>
        ensures { IfOk result (λ bytes. bytes ≡ read_at self.now.contents offset len) }
    {
        file_bytes::read(
            *self.contents.allocator(),
            &self.contents,
            offset as usize,
            len as usize,
        )
    }

    /// Writes 1 to 32,768 bytes at an offset; a gap before it reads as zeros. The write ends within the
    /// limit of a file and leaves at most 16 blocks marked. After want of memory all is as it was.
    pub fn write(&mut self, offset: u32, bytes: &[u8]) -> Result<(), Oom>
        requires some { 1 ≤ length bytes.now }
        requires few { length bytes.now ≤ 32768 }
        requires end { offset + length bytes.now ≤ file_size }
        requires marks { marked_count (marked_by_write self.old.marks offset (length bytes.now)) ≤ unflushed_blocks }
        ensures ok { OnOk result (self.new ≡ after_write self.old offset bytes.now) }
        ensures limits { OnOk result (IsDelayed self.new) }
        ensures turns { OnOk result ((kept : List ℕ) → Turns kept self.old → Turns kept self.new) }
        ensures err { OnErr result (self.new ≡ self.old) }
    {
        file_bytes::write(&mut self.contents, offset as usize, bytes)?;
        marks::mark_write(&mut self.marks, offset as usize, bytes.len());
        self.unflushed = true;
        Ok(())
    }

    /// Sets the size: the file is cut off, or grows by zeros. The size is within the limit of a file, and
    /// at most 16 blocks are left marked. After want of memory all is as it was.
    pub fn truncate(&mut self, size: u32) -> Result<(), Oom>
        requires size { size ≤ file_size }
        requires marks { marked_count (marked_by_truncate self.old.marks (length self.old.contents) size) ≤ unflushed_blocks }
        ensures ok { OnOk result (self.new ≡ after_truncate self.old size) }
        ensures limits { OnOk result (IsDelayed self.new) }
        ensures turns { OnOk result ((kept : List ℕ) → Turns kept self.old → Turns kept self.new) }
        ensures err { OnErr result (self.new ≡ self.old) }
    {
        let old = self.contents.len();
        file_bytes::resize(&mut self.contents, size as usize)?;
        marks::mark_truncate(&mut self.marks, old, size as usize);
        self.cut = self.cut.min(size);
        self.unflushed = true;
        Ok(())
    }

    /// How many blocks are marked after a write of so many bytes at an offset.
    pub fn blocks_after(&self, offset: u32, len: u32) -> u8
        requires few { len ≤ 32768 }
        requires end { offset + len ≤ file_size }
        ensures { result ≡ marked_count (marked_by_write self.now.marks offset len) }
    {
        let mut after = self.marks;
        marks::mark_write(&mut after, offset as usize, len as usize);
        marks::count(&after)
    }

    /// How many blocks are marked after a truncate to a size.
    pub fn blocks_after_truncate(&self, size: u32) -> u8
        requires { size ≤ file_size }
        ensures { result ≡ marked_count (marked_by_truncate self.now.marks (length self.now.contents) size) }
    {
        let mut left = self.marks;
        marks::mark_truncate(&mut left, self.contents.len(), size as usize);
        marks::count(&left)
    }

    /// The flush with this number, from 1, of the file with this inode, below 512: exactly the marked
    /// blocks, with zeros past the end, the size and the cut. It leaves Read or none of Data and Attr.
    pub fn to_flush(
        &self,
        ino: Ino,
        leave_data: Hold,
        leave_attr: Hold,
        number: u64,
    ) -> Result<Flush, Oom>
        requires number { 1 ≤ number }
        requires ino { ino.0 < inodes }
        requires leave_data { hold_number leave_data ≤ 1 }
        requires leave_attr { hold_number leave_attr ≤ 1 }
        ensures value { IfOk result (λ flush. flush ≡ flush_of self.now ino leave_data leave_attr number) }
        ensures grammar { IfOk result IsFlush }
        ensures turns { IfOk result (λ flush. (kept : List ℕ) → Turns kept self.now → IsFlushed kept flush.size flush.cut flush.pieces self.now.contents) }
    {
        let pieces = pieces(
            *self.contents.allocator(),
            &self.contents,
            &self.marks,
            marks::count(&self.marks),
        )?;
        Ok(Flush {
            number,
            ino,
            size: self.contents.len() as u32,
            cut: self.cut,
            leave_data,
            leave_attr,
            pieces,
        })
    }

    /// Takes the present contents as those that the server keeps, or gets by the flush that was made of
    /// them: nothing is unflushed, nothing marked.
    pub fn flushed(&mut self)
        ensures value { self.new ≡ clean self.old.contents }
        ensures turns { Turns self.new.contents self.new }
    {
        self.marks = [false; FILE_BLOCKS];
        self.cut = self.contents.len() as u32;
        self.unflushed = false;
    }
}
