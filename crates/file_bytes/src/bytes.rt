ghost use Rattle.std.specs.Prelude.{◌≡◌, ◌≤◌, ◌+◌, IfOk, OnOk, OnErr, length, take, drop};
ghost use Rattle.cal_base.specs.Limits.{block_size, file_blocks, file_size};
ghost use Rattle.file_bytes.specs.Bytes.{block_at, grown, overlaid, read_at, resized, written};

use cal_base::{BLOCK_SIZE, Blob, Oom, Sector};
use std::alloc::Global;

/// Cuts the contents off, or grows them by zeros, as POSIX.1's `ftruncate`. After want of memory they are
/// as they were.
pub fn resize(contents: &mut Vec<u8>, size: usize) -> Result<(), Oom>
    ensures ok { OnOk result (contents.new.items ≡ resized contents.old.items size) }
    ensures err { OnErr result (contents.new.items ≡ contents.old.items) }
{
    contents.resize(size, 0)?;
    Ok(())
}

/// Writes bytes at an offset, up to the limit of a file; a gap before it becomes zeros, as with POSIX.1's
/// `pwrite`. After want of memory the contents are as they were.
pub fn write(contents: &mut Vec<u8>, offset: usize, bytes: &[u8]) -> Result<(), Oom>
    requires { offset + length bytes.now ≤ file_size }
    ensures ok { OnOk result (contents.new.items ≡ written contents.old.items offset bytes.now) }
    ensures err { OnErr result (contents.new.items ≡ contents.old.items) }
{
    grow(contents, offset + bytes.len())?;
    overlay(contents, offset, bytes);
    Ok(())
}

/// Grows the contents by zeros up to an end, where they are shorter.
fn grow(contents: &mut Vec<u8>, end: usize) -> Result<(), Oom>
    ensures ok { OnOk result (contents.new.items ≡ grown contents.old.items end) }
    ensures err { OnErr result (contents.new.items ≡ contents.old.items) }
{
    if contents.len() < end {
        contents.resize(end, 0)?;
    }
    Ok(())
}

/// Lays bytes over the contents.
fn overlay(contents: &mut [u8], offset: usize, bytes: &[u8])
    requires { offset + length bytes.now ≤ length contents.old }
    ensures { contents.new ≡ overlaid contents.old offset bytes.now }
{
    contents[offset..offset + bytes.len()].copy_from_slice(bytes);
}

/// The bytes from an offset on, at most so many; none at or past the end, as with POSIX.1's `pread`.
pub fn read(alloc: Global, contents: &[u8], offset: usize, count: usize) -> Result<Blob, Oom>
    ensures { IfOk result (λ bytes. bytes ≡ read_at contents.now offset count) }
{
    copy(alloc, first(from(contents, offset), count))
}

/// A copy of bytes.
pub fn copy(alloc: Global, bytes: &[u8]) -> Result<Blob, Oom>
    ensures { IfOk result (λ copied. copied ≡ bytes.now) }
{
    let mut copied = Vec::with_capacity(alloc, bytes.len())?;
    copied.extend_from_slice(bytes)?;
    Ok(Blob::from_vec(copied))
}

/// A block of 4,096 bytes of the contents, with zeros past their end.
pub fn block(contents: &[u8], index: usize) -> Sector
    requires { index ≤ file_blocks }
    ensures { result ≡ block_at contents.now index }
{
    padded(first(from(contents, index * BLOCK_SIZE), BLOCK_SIZE))
}

/// At most 4,096 bytes, and zeros behind them.
fn padded(bytes: &[u8]) -> Sector
    requires { length bytes.now ≤ block_size }
    ensures { result ≡ resized bytes.now block_size }
{
    let mut sector = [0; BLOCK_SIZE];
    overlay(&mut sector, 0, bytes);
    sector
}

/// The bytes from an offset on.
fn from(contents: &[u8], offset: usize) -> &[u8]
    ensures { result.now ≡ drop offset contents.now }
{
    if offset < contents.len() {
        &contents[offset..]
    } else {
        &[]
    }
}

/// The first bytes, at most so many.
fn first(contents: &[u8], count: usize) -> &[u8]
    ensures { result.now ≡ take count contents.now }
{
    if count < contents.len() {
        &contents[..count]
    } else {
        contents
    }
}
