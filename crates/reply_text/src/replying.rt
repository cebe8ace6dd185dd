ghost use Rattle.std.specs.Prelude.{◌≡◌, ◌++◌, codes, IfOk, OnOk};
ghost use Rattle.std.specs.Fmt.{decimal};
ghost use Rattle.reply_text.specs.Text.{bytes_text, hex_text, reply_text, spaced, why_text};

use crate::putting::{put, put_field, put_hex, put_spaced};
use cal_base::{NameList, Oom};
use std::alloc::Global;
use tree_law::{Reply, Why};

/// Puts bytes that were read, behind their count.
fn put_read_bytes(text: &mut Vec<u8>, bytes: &[u8]) -> Result<(), Oom>
    ensures { OnOk result (text.new.items ≡ text.old.items ++ bytes_text bytes.now) }
{
    if bytes.is_empty() {
        return put(text, "ok 0");
    }
    put_field(text, "ok ", bytes.len() as u64)?;
    put(text, " ")?;
    put_hex(text, bytes)
}

/// Puts the names of a directory behind their count.
fn put_names(text: &mut Vec<u8>, names: &NameList) -> Result<(), Oom>
    ensures { OnOk result (text.new.items ≡ text.old.items ++ reply_text (Reply.Names names.now)) }
{
    put_field(text, "ok ", names.len() as u64)?;
    put_spaced(text, names.as_slice())
}

/// Puts why a call is refused.
fn put_why(text: &mut Vec<u8>, why: Why) -> Result<(), Oom>
    ensures { OnOk result (text.new.items ≡ text.old.items ++ why_text why) }
{
    match why {
        Why::Exist => put(text, "EEXIST"),
        Why::NoEnt => put(text, "ENOENT"),
        Why::NotDir => put(text, "ENOTDIR"),
        Why::IsDir => put(text, "EISDIR"),
        Why::NotEmpty => put(text, "ENOTEMPTY"),
        Why::Inval => put(text, "EINVAL"),
        Why::Busy => put(text, "EBUSY"),
        Why::MFile => put(text, "EMFILE"),
        Why::BadF => put(text, "EBADF"),
        Why::FBig => put(text, "EFBIG"),
        Why::NoSpace { free, needed } => {
            put_field(text, "NOSPACE ", u64::from(free))?;
            put_field(text, " ", u64::from(needed))
        }
        Why::NoInode => put(text, "NOINODE"),
        Why::DirFull => put(text, "DIRFULL"),
    }
}

/// Puts a reply as it is written.
pub fn put_reply(text: &mut Vec<u8>, reply: &Reply) -> Result<(), Oom>
    ensures { OnOk result (text.new.items ≡ text.old.items ++ reply_text reply.now) }
{
    match reply {
        Reply::Done => put(text, "ok"),
        Reply::Fd(fd) => put_field(text, "ok ", u64::from(*fd)),
        Reply::Bytes(bytes) => put_read_bytes(text, bytes.as_slice()),
        Reply::Count(count) => put_field(text, "ok ", u64::from(*count)),
        Reply::File(size) => put_field(text, "ok file ", u64::from(*size)),
        Reply::Dir => put(text, "ok dir"),
        Reply::Names(names) => put_names(text, names),
        Reply::Refused(why) => put_why(text, *why),
    }
}

/// A reply as it is written.
pub fn reply_text(alloc: Global, reply: &Reply) -> Result<Vec<u8>, Oom>
    ensures { IfOk result (λ text. text.items ≡ reply_text reply.now) }
{
    let mut text = Vec::new(alloc);
    put_reply(&mut text, reply)?;
    Ok(text)
}
