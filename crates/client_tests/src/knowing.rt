ghost use Rattle.std.specs.Prelude.{◌≡◌, ◌≤◌, IfOk, length};
ghost use Rattle.tree_law.specs.Entries.{AreEntries};
ghost use Rattle.tree_law.specs.Path.{IsName};
ghost use Rattle.client_cache.specs.Covered.{IsSpelled};

use cal_base::{Blob, DirectoryEntry, EntryKind, EntryList, Ino, Oom};
use client_cache::{Cache, Next};
use std::alloc::Global;
use std::test::Fail;
use token_kind::{Class, Content, GrantItem, Hold};
use tree_law::{Call, Mode, Path, Reply, is_name, read_path};

/// These bytes.
fn blob(alloc: Global, bytes: &[u8]) -> Result<Blob, Oom>
    ensures { IfOk result (λ blob. blob ≡ bytes.now) }
{
    Ok(Blob::from_vec(Vec::from_slice(alloc, bytes)?))
}

/// The path of a file of the root.
fn path(alloc: Global) -> Result<Path, Oom> {
    match read_path(alloc, b"/a".as_slice()) {
        Ok(path) => Ok(path),
        Err(_) => Err(Oom),
    }
}

/// The entries of the root: a file with this name, as inode 3.
#[tactic(auto, using(crate::proofs::OneEntry::one_listed))]
fn entries(alloc: Global, name: Blob) -> Result<EntryList, Oom>
    requires { IsName name }
    ensures { IfOk result AreEntries }
{
    let mut entries = EntryList::new(alloc);
    entries.push(DirectoryEntry {
        name,
        ino: Ino(3),
        kind: EntryKind::File,
    })?;
    Ok(entries)
}

/// Read of the entries of the root is granted.
fn hold_root(cache: &mut Cache, entries: EntryList)
    requires { AreEntries entries }
{
    cache.take(GrantItem {
        ino: Ino(0),
        class: Class::Names,
        hold: Hold::Read,
        fresh: true,
        content: Content::Names(entries),
    });
}

/// Write of the bytes of file 3 is granted.
fn hold_bytes(cache: &mut Cache, bytes: Blob)
    requires { length bytes ≤ 262144 }
{
    cache.take(GrantItem {
        ino: Ino(3),
        class: Class::Data,
        hold: Hold::Write,
        fresh: true,
        content: Content::Bytes(bytes),
    });
}

/// Write of the size of file 3, five bytes, is granted.
fn hold_size(cache: &mut Cache) {
    cache.take(GrantItem {
        ino: Ino(3),
        class: Class::Attr,
        hold: Hold::Write,
        fresh: true,
        content: Content::Size(5),
    });
}

/// Open of file 3 is granted.
fn hold_open(cache: &mut Cache) {
    cache.take(GrantItem {
        ino: Ino(3),
        class: Class::Open,
        hold: Hold::Read,
        fresh: true,
        content: Content::Nothing,
    });
}

/// The client may read the root, and write file 3, whose name is `a`.
fn grant(cache: &mut Cache, alloc: Global) -> Result<(), Oom> {
    let name = blob(alloc, b"a".as_slice())?;
    if is_name(name.as_slice()) {
        hold_root(cache, entries(alloc, name)?);
    }
    hold_bytes(cache, blob(alloc, b"abcde".as_slice())?);
    hold_size(cache);
    hold_open(cache);
    Ok(())
}

/// The answer to a call, if it is covered.
fn ask(cache: &mut Cache, call: &Call) -> Result<Option<Reply>, Oom>
    requires { IsSpelled call.now }
{
    match cache.next(call) {
        Next::Answer => Ok(Some(cache.answer(call)?)),
        Next::LastClose(_) | Next::Waits | Next::Flushes(_) | Next::Asks => Ok(None),
    }
}

/// Opens the file for reading and writing: whether that gives descriptor 0.
fn opens(cache: &mut Cache, alloc: Global) -> Result<bool, Oom> {
    let call = Call::Open(path(alloc)?, Mode::Rw);
    match ask(cache, &call)? {
        Some(Reply::Fd(fd)) => Ok(fd == 0),
        _ => Ok(false),
    }
}

/// Whether the open file can be truncated to two bytes.
fn cuts(cache: &mut Cache) -> Result<bool, Oom> {
    match ask(cache, &Call::Truncate { fd: 0, size: 2 })? {
        Some(Reply::Done) => Ok(true),
        _ => Ok(false),
    }
}

/// Whether a byte is written at offset 4.
fn writes(cache: &mut Cache, bytes: Blob) -> Result<bool, Oom>
    requires { length bytes ≡ 1 }
{
    let call = Call::Write {
        fd: 0,
        offset: 4,
        bytes,
    };
    match ask(cache, &call)? {
        Some(Reply::Count(count)) => Ok(count == 1),
        _ => Ok(false),
    }
}

/// Whether the open file has these bytes.
fn reads(cache: &mut Cache, bytes: &[u8]) -> Result<bool, Oom> {
    let call = Call::Read {
        fd: 0,
        offset: 0,
        len: 9,
    };
    match ask(cache, &call)? {
        Some(Reply::Bytes(read)) => Ok(read.as_slice() == bytes),
        _ => Ok(false),
    }
}

/// Whether the file has this size in bytes.
fn has_size(cache: &mut Cache, alloc: Global, bytes: u32) -> Result<bool, Oom> {
    let call = Call::Stat(path(alloc)?);
    match ask(cache, &call)? {
        Some(Reply::File(size)) => Ok(size == bytes),
        _ => Ok(false),
    }
}

/// Starts a flush of file 3 that leaves Read of its bytes and its size, if one is due: its number, its
/// size, its cut and how many blocks it carries.
fn flush(cache: &mut Cache) -> Result<Option<(u64, u32, u32, usize)>, Oom> {
    let is_due = cache.unflushed(Ino(3)) && !cache.flushing(Ino(3));
    if is_due && cache.last_flush() < u64::MAX {
        cache.start_flush(Ino(3), Hold::Read, Hold::Read)?;
    }
    Ok(match cache.outstanding().last() {
        Some(flush) => Some((flush.number, flush.size, flush.cut, flush.pieces.len())),
        None => None,
    })
}

#[test]
fn a_truncate_and_a_write_are_flushed(rt: HostRuntime) -> Result<(), Fail> {
    let alloc = rt.alloc();
    let mut cache = Cache::new(alloc)?;
    grant(&mut cache, alloc)?;
    assert!(rt; opens(&mut cache, alloc)?);
    assert!(rt; cuts(&mut cache)?);
    assert!(rt; writes(&mut cache, blob(alloc, b"x".as_slice())?)?);
    assert!(rt; has_size(&mut cache, alloc, 5)?);
    assert_eq!(rt; cache.next(&Call::Fsync(0)), Next::Flushes(Ino(3)));
    assert_eq!(rt; flush(&mut cache)?, Some((1, 5, 2, 1)));
    assert_eq!(rt; cache.next(&Call::Fsync(0)), Next::Waits);
    assert!(rt; !reads(&mut cache, b"ab\0\0x".as_slice())?);
    assert_eq!(rt; cache.flushed(1), Some(Ino(3)));
    assert!(rt; reads(&mut cache, b"ab\0\0x".as_slice())?);
    cache.lower(Ino(3), Class::Data, Hold::None);
    assert_eq!(rt; cache.held(Ino(3), Class::Data), Hold::None);
    assert_eq!(rt; cache.holds()?.len(), 3);
    assert_eq!(rt; cache.next(&Call::Close(0)), Next::LastClose(Ino(3)));
    Ok(())
}
