ghost use Rattle.std.specs.Prelude.{◌≡◌, ◌≤◌, IfOk, replicate};
ghost use Rattle.script.specs.CallLine.{path_call_or, other_call, call_name, path_call, file_call, path_call_said, rename_said, second_mode, open_said, descriptor_in, offset_in, file_call_said, read_said, write_said, fill_said, truncate_said, call_with, call_said};
ghost use Rattle.script.specs.Numbers.{number_in};
ghost use Rattle.script.specs.Outcome.{Answers};
ghost use Rattle.script.specs.Words.{words};

use crate::bad_line::BadWhy;
use crate::call_name::{CallName, FileCall, PathCall};
use crate::numbers::{byte_of, hex_in, number_in};
use crate::places::{mode_in, path_in};
use crate::read_error::ReadLineError;
use crate::words::{four_of, next_word, one_of, three_of, two_of};
use cal_base::{Blob, FILE_SIZE, Oom, WRITE_SIZE};
use std::alloc::Global;
use tree_law::{Call, Mode, Path};

fn path_call_or(word: &[u8], other: Result<CallName, BadWhy>) -> Result<CallName, BadWhy>
    ensures { result ≡ path_call_or word.now other }
{
    if word == b"create".as_slice() {
        Ok(CallName::OnPath(PathCall::Creates))
    } else if word == b"mkdir".as_slice() {
        Ok(CallName::OnPath(PathCall::Makes))
    } else if word == b"unlink".as_slice() {
        Ok(CallName::OnPath(PathCall::Unlinks))
    } else if word == b"rmdir".as_slice() {
        Ok(CallName::OnPath(PathCall::Removes))
    } else if word == b"stat".as_slice() {
        Ok(CallName::OnPath(PathCall::Stats))
    } else if word == b"readdir".as_slice() {
        Ok(CallName::OnPath(PathCall::Lists))
    } else {
        other
    }
}

fn other_call(word: &[u8]) -> Result<CallName, BadWhy>
    ensures { result ≡ other_call word.now }
{
    if word == b"rename".as_slice() {
        Ok(CallName::Renames)
    } else if word == b"open".as_slice() {
        Ok(CallName::Opens)
    } else if word == b"close".as_slice() {
        Ok(CallName::OnFile(FileCall::Closes))
    } else if word == b"fsync".as_slice() {
        Ok(CallName::OnFile(FileCall::Syncs))
    } else if word == b"read".as_slice() {
        Ok(CallName::Reads)
    } else if word == b"write".as_slice() {
        Ok(CallName::Writes)
    } else if word == b"fill".as_slice() {
        Ok(CallName::Fills)
    } else if word == b"truncate".as_slice() {
        Ok(CallName::Truncates)
    } else {
        Err(BadWhy::Word)
    }
}

/// The call that a word names.
fn call_name(word: &[u8]) -> Result<CallName, BadWhy>
    ensures { result ≡ call_name word.now }
{
    path_call_or(word, other_call(word))
}

fn path_call(call: PathCall, path: Path) -> Call
    ensures { result ≡ path_call call path }
{
    match call {
        PathCall::Creates => Call::Create(path),
        PathCall::Makes => Call::Mkdir(path),
        PathCall::Unlinks => Call::Unlink(path),
        PathCall::Removes => Call::Rmdir(path),
        PathCall::Stats => Call::Stat(path),
        PathCall::Lists => Call::Readdir(path),
    }
}

fn file_call(call: FileCall, fd: u8) -> Call
    ensures { result ≡ file_call call fd }
{
    match call {
        FileCall::Closes => Call::Close(fd),
        FileCall::Syncs => Call::Fsync(fd),
    }
}

fn read_path_call(alloc: Global, call: PathCall, args: &[u8]) -> Result<Call, ReadLineError>
    ensures { Answers (path_call_said call (words args.now)) result }
{
    let word = one_of(args)?;
    let path = path_in(alloc, word)?;
    Ok(path_call(call, path))
}

fn read_rename(alloc: Global, args: &[u8]) -> Result<Call, ReadLineError>
    ensures { Answers (rename_said (words args.now)) result }
{
    let places = two_of(args)?;
    let from = path_in(alloc, places.first)?;
    let to = path_in(alloc, places.second)?;
    Ok(Call::Rename(from, to))
}

/// The mode in the second place.
fn second_mode(args: &[u8]) -> Result<Mode, BadWhy>
    ensures { result ≡ second_mode (words args.now) }
{
    let Some((_, rest)) = next_word(args) else {
        return Err(BadWhy::Count);
    };
    match next_word(rest) {
        Some((mode, _)) => mode_in(mode),
        None => Err(BadWhy::Count),
    }
}

fn read_open(alloc: Global, args: &[u8]) -> Result<Call, ReadLineError>
    ensures { Answers (open_said (words args.now)) result }
{
    let mode = second_mode(args)?;
    let places = two_of(args)?;
    let path = path_in(alloc, places.first)?;
    Ok(Call::Open(path, mode))
}

/// A descriptor, 0 to 255.
pub(crate) fn descriptor_in(word: &[u8]) -> Result<u8, BadWhy>
    ensures { result ≡ descriptor_in word.now }
{
    match number_in(0, 255, word) {
        Ok(fd) => Ok(fd as u8),
        Err(why) => Err(why),
    }
}

/// Any number.
fn offset_in(word: &[u8]) -> Result<u64, BadWhy>
    ensures { result ≡ offset_in word.now }
{
    number_in(0, u64::MAX, word)
}

/// A count of bytes from the least to the most.
fn count_in(least: u32, most: u32, word: &[u8]) -> Result<u32, BadWhy>
    ensures said { result ≡ number_in least most word.now }
    ensures within { IfOk result (λ count. (least ≤ count) × (count ≤ most)) }
{
    match number_in(u64::from(least), u64::from(most), word) {
        Ok(count) => Ok(count as u32),
        Err(why) => Err(why),
    }
}

fn read_file_call(call: FileCall, args: &[u8]) -> Result<Call, ReadLineError>
    ensures { Answers (file_call_said call (words args.now)) result }
{
    let word = one_of(args)?;
    let fd = descriptor_in(word)?;
    Ok(file_call(call, fd))
}

fn read_read(args: &[u8]) -> Result<Call, ReadLineError>
    ensures { Answers (read_said (words args.now)) result }
{
    let places = three_of(args)?;
    let fd = descriptor_in(places.first)?;
    let offset = offset_in(places.second)?;
    let len = count_in(0, FILE_SIZE as u32, places.third)?;
    Ok(Call::Read { fd, offset, len })
}

fn read_write(alloc: Global, args: &[u8]) -> Result<Call, ReadLineError>
    ensures { Answers (write_said (words args.now)) result }
{
    let places = three_of(args)?;
    let fd = descriptor_in(places.first)?;
    let offset = offset_in(places.second)?;
    let bytes = hex_in(alloc, WRITE_SIZE, places.third)?;
    Ok(Call::Write { fd, offset, bytes })
}

/// So many times a byte.
fn filled(alloc: Global, count: u32, byte: u8) -> Result<Blob, Oom>
    ensures { IfOk result (λ bytes. bytes ≡ replicate count byte) }
{
    Ok(Blob::from_vec(vec![in alloc; byte; count as usize]?))
}

fn read_fill(alloc: Global, args: &[u8]) -> Result<Call, ReadLineError>
    ensures { Answers (fill_said (words args.now)) result }
{
    let places = four_of(args)?;
    let fd = descriptor_in(places.first)?;
    let offset = offset_in(places.second)?;
    let count = count_in(1, WRITE_SIZE as u32, places.third)?;
    let byte = byte_of(places.fourth)?;
    let bytes = filled(alloc, count, byte)?;
    Ok(Call::Write { fd, offset, bytes })
}

fn read_truncate(args: &[u8]) -> Result<Call, ReadLineError>
    ensures { Answers (truncate_said (words args.now)) result }
{
    let places = two_of(args)?;
    let fd = descriptor_in(places.first)?;
    let size = offset_in(places.second)?;
    Ok(Call::Truncate { fd, size })
}

/// The call of this name with these words.
fn read_call_with(alloc: Global, call: CallName, args: &[u8]) -> Result<Call, ReadLineError>
    ensures { Answers (call_with call (words args.now)) result }
{
    match call {
        CallName::OnPath(call) => read_path_call(alloc, call, args),
        CallName::OnFile(call) => read_file_call(call, args),
        CallName::Renames => read_rename(alloc, args),
        CallName::Opens => read_open(alloc, args),
        CallName::Reads => read_read(args),
        CallName::Writes => read_write(alloc, args),
        CallName::Fills => read_fill(alloc, args),
        CallName::Truncates => read_truncate(args),
    }
}

/// Reads a call as a script's line has it behind its client: the call's name, and then the words of its
/// places. What is read is the call of these words; a call that isn't read is bad for the first reason,
/// an unknown word before a wrong count of words, and that before a bad number, path or bytes, of which
/// the leftmost is told.
pub fn read_call(alloc: Global, text: &[u8]) -> Result<Call, ReadLineError>
    ensures { Answers (call_said (words text.now)) result }
{
    let Some((name, args)) = next_word(text) else {
        return Err(ReadLineError::Bad(BadWhy::Count));
    };
    let call = call_name(name)?;
    read_call_with(alloc, call, args)
}
