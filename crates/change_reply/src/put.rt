ghost use Rattle.std.specs.Prelude.{◌≡◌, ◌++◌, OnOk, OnErr};
ghost use Rattle.change_reply.specs.ReplyBytes.{IsChangeReply, IsChangeWhy, reply_bytes, why_bytes};

use cal_base::Oom;
use cal_fields::{put_bytes, put_u8};
use tree_law::{Reply, Why};

/// Puts a reply of a change at the end. After want of memory `out` is as it was.
pub fn put_reply(out: &mut Vec<u8>, reply: &Reply) -> Result<(), Oom>
    requires { IsChangeReply reply.now }
    ensures ok { OnOk result (out.new.items ≡ out.old.items ++ reply_bytes reply.now) }
    ensures err { OnErr result (out.new.items ≡ out.old.items) }
{
    match reply {
        Reply::Done => put_u8(out, 0),
        Reply::Refused(why) => put_why(out, *why),
        _ => Ok(()),
    }
}

fn put_why(out: &mut Vec<u8>, why: Why) -> Result<(), Oom>
    requires { IsChangeWhy why }
    ensures ok { OnOk result (out.new.items ≡ out.old.items ++ why_bytes why) }
    ensures err { OnErr result (out.new.items ≡ out.old.items) }
{
    match why {
        Why::NoEnt => put_u8(out, 1),
        Why::NotDir => put_u8(out, 2),
        Why::IsDir => put_u8(out, 3),
        Why::Exist => put_u8(out, 4),
        Why::Inval => put_u8(out, 5),
        Why::NotEmpty => put_u8(out, 6),
        Why::Busy => put_u8(out, 7),
        Why::NoSpace { free, needed } => put_no_space(out, free, needed),
        Why::NoInode => put_u8(out, 12),
        Why::DirFull => put_u8(out, 13),
        Why::MFile | Why::BadF | Why::FBig => Ok(()),
    }
}

fn put_no_space(out: &mut Vec<u8>, free: u16, needed: u16) -> Result<(), Oom>
    ensures ok { OnOk result (out.new.items ≡ out.old.items ++ why_bytes (Why.NoSpace free needed)) }
    ensures err { OnErr result (out.new.items ≡ out.old.items) }
{
    let bytes = [
        11,
        (free / 256) as u8,
        (free % 256) as u8,
        (needed / 256) as u8,
        (needed % 256) as u8,
    ];
    put_bytes(out, &bytes)
}
