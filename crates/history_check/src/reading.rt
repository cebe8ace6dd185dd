ghost use Rattle.std.specs.Prelude.{◌≡◌, ◌↔◌, IfOk, IsTrue};
ghost use Rattle.reply_text.specs.Text.{reply_text};
ghost use Rattle.history_check.specs.Steps.{IsWantOfInode, Reads, ReadsBlocks};

use cal_base::{Blob, ClientId, Oom};
use reply_text::reply_text;
use std::alloc::Global;
use tree_law::{Call, PlainTree, Reply, Why};

/// The reply with this text that the tree allows to a client's call, if there is one: the tree's own, or
/// want of an inode or of blocks. There are no two.
pub(crate) fn reading(
    alloc: Global,
    tree: &PlainTree,
    client: ClientId,
    call: &Call,
    text: &Blob,
) -> Result<Option<Reply>, Oom>
    ensures { IfOk result (Reads tree.now client call.now text.now) }
{
    let own = tree.answer(alloc, client, call)?;
    if is_written(alloc, &own, text.as_slice())? {
        return Ok(Some(own));
    }
    if is_want_of_inode(tree, call, text.as_slice()) {
        return Ok(Some(Reply::Refused(Why::NoInode)));
    }
    want_of_blocks(alloc, tree.blocks_wanted(client, call), text.as_slice())
}

/// Whether a reply is written so.
fn is_written(alloc: Global, reply: &Reply, text: &[u8]) -> Result<bool, Oom>
    ensures { IfOk result (λ same. IsTrue same ↔ (reply_text reply.now ≡ text.now)) }
{
    let written = reply_text(alloc, reply)?;
    Ok(is_same(written.as_slice(), text))
}

/// Whether the bytes are the same.
fn is_same(bytes: &[u8], others: &[u8]) -> bool
    ensures { IsTrue result ↔ (bytes.now ≡ others.now) }
{
    bytes == others
}

/// Whether the call would make an inode, and the text tells that none is free.
fn is_want_of_inode(tree: &PlainTree, call: &Call, text: &[u8]) -> bool
    ensures { IsTrue result ↔ IsWantOfInode tree.now call.now text.now }
{
    tree.makes(call) && is_same(b"NOINODE".as_slice(), text)
}

/// The reply with this text that tells of fewer free blocks than are needed, if there is one. A call
/// needs 16 at most.
fn want_of_blocks(alloc: Global, needed: u16, text: &[u8]) -> Result<Option<Reply>, Oom>
    ensures { IfOk result (ReadsBlocks needed text.now) }
{
    for free in 0..needed {
        let reply = Reply::Refused(Why::NoSpace { free, needed });
        if is_written(alloc, &reply, text)? {
            return Ok(Some(reply));
        }
    }
    Ok(None)
}
