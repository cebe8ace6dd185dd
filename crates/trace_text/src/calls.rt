ghost use Rattle.std.specs.Prelude.{◌≡◌, ◌++◌, ◌∷◌, [], OnOk};
ghost use Rattle.std.specs.Fmt.{decimal};
ghost use Rattle.tree_law.specs.Path.{path_text, slashed};
ghost use Rattle.reply_text.specs.Text.{hex_text, spaced};
ghost use Rattle.script.specs.Spelling.{command_of, places_of, mode_word};
ghost use Rattle.trace_text.specs.Calls.{call_text};

use cal_base::{Blob, Oom};
use reply_text::{put, put_bytes, put_hex, put_number};
use tree_law::{Call, Mode, Path};

/// Puts each name behind a slash.
fn put_slashed(text: &mut Vec<u8>, names: &[Blob]) -> Result<(), Oom>
    ensures { OnOk result (text.new.items ≡ text.old.items ++ slashed names.now) }
{
    for name in names {
        put(text, "/")?;
        put_bytes(text, name.as_slice())?;
    }
    Ok(())
}

/// Puts a path as it is written.
fn put_path(text: &mut Vec<u8>, path: &Path) -> Result<(), Oom>
    ensures { OnOk result (text.new.items ≡ text.old.items ++ path_text path.now) }
{
    if path.names().is_empty() {
        return put(text, "/");
    }
    put_slashed(text, path.names())
}

/// Puts a path behind a space.
fn put_path_word(text: &mut Vec<u8>, path: &Path) -> Result<(), Oom>
    ensures { OnOk result (text.new.items ≡ text.old.items ++ spaced (path_text path.now ∷ [])) }
{
    put(text, " ")?;
    put_path(text, path)
}

/// Puts a number behind a space.
fn put_number_word(text: &mut Vec<u8>, number: u64) -> Result<(), Oom>
    ensures { OnOk result (text.new.items ≡ text.old.items ++ spaced (decimal number ∷ [])) }
{
    put(text, " ")?;
    put_number(text, number)
}

/// Puts bytes in hexadecimal behind a space.
fn put_hex_word(text: &mut Vec<u8>, bytes: &[u8]) -> Result<(), Oom>
    ensures { OnOk result (text.new.items ≡ text.old.items ++ spaced (hex_text bytes.now ∷ [])) }
{
    put(text, " ")?;
    put_hex(text, bytes)
}

/// The word of a mode.
fn mode_word(mode: Mode) -> &'static str
    ensures { result.now ≡ mode_word mode }
{
    match mode {
        Mode::R => "r",
        Mode::W => "w",
        Mode::Rw => "rw",
    }
}

/// Puts two paths, each behind a space.
fn put_two_paths(text: &mut Vec<u8>, from: &Path, to: &Path) -> Result<(), Oom>
    ensures { OnOk result (text.new.items ≡ text.old.items ++ spaced (path_text from.now ∷ path_text to.now ∷ [])) }
{
    put_path_word(text, from)?;
    put_path_word(text, to)
}

/// Puts a path and a mode, each behind a space.
fn put_path_and_mode(text: &mut Vec<u8>, path: &Path, mode: Mode) -> Result<(), Oom>
    ensures { OnOk result (text.new.items ≡ text.old.items ++ spaced (path_text path.now ∷ mode_word mode ∷ [])) }
{
    put_path_word(text, path)?;
    put(text, " ")?;
    put(text, mode_word(mode))
}

/// Puts a descriptor and a number, each behind a space.
fn put_two_numbers(text: &mut Vec<u8>, fd: u8, number: u64) -> Result<(), Oom>
    ensures { OnOk result (text.new.items ≡ text.old.items ++ spaced (decimal fd ∷ decimal number ∷ [])) }
{
    put_number_word(text, u64::from(fd))?;
    put_number_word(text, number)
}

/// Puts a descriptor, an offset and a count, each behind a space.
fn put_read_words(text: &mut Vec<u8>, fd: u8, offset: u64, len: u32) -> Result<(), Oom>
    ensures { OnOk result (text.new.items ≡ text.old.items ++ spaced (decimal fd ∷ decimal offset ∷ decimal len ∷ [])) }
{
    put_two_numbers(text, fd, offset)?;
    put_number_word(text, u64::from(len))
}

/// Puts a descriptor, an offset and bytes, each behind a space.
fn put_write_words(text: &mut Vec<u8>, fd: u8, offset: u64, bytes: &[u8]) -> Result<(), Oom>
    ensures { OnOk result (text.new.items ≡ text.old.items ++ spaced (decimal fd ∷ decimal offset ∷ hex_text bytes.now ∷ [])) }
{
    put_two_numbers(text, fd, offset)?;
    put_hex_word(text, bytes)
}

/// The word of a call.
fn command(call: &Call) -> &'static str
    ensures { result.now ≡ command_of call.now }
{
    match call {
        Call::Create(_) => "create",
        Call::Mkdir(_) => "mkdir",
        Call::Unlink(_) => "unlink",
        Call::Rmdir(_) => "rmdir",
        Call::Rename(_, _) => "rename",
        Call::Open(_, _) => "open",
        Call::Close(_) => "close",
        Call::Read { .. } => "read",
        Call::Write { .. } => "write",
        Call::Truncate { .. } => "truncate",
        Call::Stat(_) => "stat",
        Call::Readdir(_) => "readdir",
        Call::Fsync(_) => "fsync",
    }
}

/// Puts the words of a call's places, each behind a space.
fn put_places(text: &mut Vec<u8>, call: &Call) -> Result<(), Oom>
    ensures { OnOk result (text.new.items ≡ text.old.items ++ spaced (places_of call.now)) }
{
    match call {
        Call::Create(path) => put_path_word(text, path),
        Call::Mkdir(path) => put_path_word(text, path),
        Call::Unlink(path) => put_path_word(text, path),
        Call::Rmdir(path) => put_path_word(text, path),
        Call::Rename(from, to) => put_two_paths(text, from, to),
        Call::Open(path, mode) => put_path_and_mode(text, path, *mode),
        Call::Close(fd) => put_number_word(text, u64::from(*fd)),
        Call::Read { fd, offset, len } => put_read_words(text, *fd, *offset, *len),
        Call::Write { fd, offset, bytes } => put_write_words(text, *fd, *offset, bytes.as_slice()),
        Call::Truncate { fd, size } => put_two_numbers(text, *fd, *size),
        Call::Stat(path) => put_path_word(text, path),
        Call::Readdir(path) => put_path_word(text, path),
        Call::Fsync(fd) => put_number_word(text, u64::from(*fd)),
    }
}

/// Puts a call as a script spells it.
pub(crate) fn put_call(text: &mut Vec<u8>, call: &Call) -> Result<(), Oom>
    ensures { OnOk result (text.new.items ≡ text.old.items ++ call_text call.now) }
{
    put(text, command(call))?;
    put_places(text, call)
}
