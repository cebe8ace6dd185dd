ghost use Rattle.std.specs.Prelude.{◌≡◌, ◌<◌, ◌≤◌, ◌^◌, ◌++◌, ◌∷◌, [], ℕ, List, All, OnOk, length};
ghost use Rattle.std.specs.List.{flat_map};
ghost use Rattle.cal_base.specs.Limits.{file_size, holds_per_piece, unflushed_blocks};
ghost use Rattle.cal_fields.specs.BigEndian.{big_endian};
ghost use Rattle.message.specs.Fits.{ContentFits, NameFits};
ghost use Rattle.message.specs.Range.{IsChange, IsWant};
ghost use Rattle.message.specs.Spelling.{block_bytes, change_bytes, content_bytes, entries_bytes, entry_bytes, entry_kind_byte, flag_byte, flush_bytes, flush_head_bytes, grant_item_bytes, grant_items_bytes, inode_bytes, item_bytes, items_bytes, name_bytes, path_bytes, piece_bytes, reported_bytes, want_bytes};
ghost use Rattle.token_kind.specs.Class.{class_number};
ghost use Rattle.token_kind.specs.Hold.{hold_number};
ghost use Rattle.tree_law.specs.Path.{IsPath};

use cal_base::{Blob, DirectoryEntry, EntryKind, Ino, Oom, Sector};
use cal_fields::{put_bytes, put_u8, put_u16, put_u32, put_u64};
use token_kind::{Class, Content, Flush, GrantItem, Hold, Piece, Reported};
use tree_law::{Call, Path, Want};

pub(crate) fn put_inode(out: &mut Vec<u8>, ino: Ino) -> Result<(), Oom>
    ensures { OnOk result (out.new.items ≡ out.old.items ++ inode_bytes ino) }
{
    put_u32(out, ino.0)
}

fn put_flag(out: &mut Vec<u8>, flag: bool) -> Result<(), Oom>
    ensures { OnOk result (out.new.items ≡ out.old.items ++ flag_byte flag ∷ []) }
{
    if flag { put_u8(out, 1) } else { put_u8(out, 0) }
}

fn put_name(out: &mut Vec<u8>, name: &[u8]) -> Result<(), Oom>
    requires { NameFits name.now }
    ensures { OnOk result (out.new.items ≡ out.old.items ++ name_bytes name.now) }
{
    put_u8(out, name.len() as u8)?;
    put_bytes(out, name)
}

fn put_names(out: &mut Vec<u8>, names: &[Blob]) -> Result<(), Oom>
    requires { All NameFits names.now }
    ensures { OnOk result (out.new.items ≡ out.old.items ++ flat_map name_bytes names.now) }
{
    for name in names {
        put_name(out, name.as_slice())?;
    }
    Ok(())
}

#[tactic(auto, unfolding(crate::specs::Spelling::path_bytes))]
fn put_path(out: &mut Vec<u8>, path: &Path) -> Result<(), Oom>
    requires { IsPath path.now }
    ensures { OnOk result (out.new.items ≡ out.old.items ++ path_bytes path.now) }
{
    let names = path.names();
    put_u8(out, names.len() as u8)?;
    put_names(out, names)
}

pub(crate) fn put_want(out: &mut Vec<u8>, want: &Want) -> Result<(), Oom>
    requires { IsWant want.now }
    ensures { OnOk result (out.new.items ≡ out.old.items ++ want_bytes want.now) }
{
    match want {
        Want::Stat(path) => {
            put_u8(out, 1)?;
            put_path(out, path)
        }
        Want::Open(path) => {
            put_u8(out, 2)?;
            put_path(out, path)
        }
        Want::Readdir(path) => {
            put_u8(out, 3)?;
            put_path(out, path)
        }
        Want::Read(ino) => {
            put_u8(out, 4)?;
            put_inode(out, *ino)
        }
        Want::Write(ino) => {
            put_u8(out, 5)?;
            put_inode(out, *ino)
        }
    }
}

pub(crate) fn put_change(out: &mut Vec<u8>, call: &Call) -> Result<(), Oom>
    requires { IsChange call.now }
    ensures { OnOk result (out.new.items ≡ out.old.items ++ change_bytes call.now) }
{
    match call {
        Call::Create(path) => {
            put_u8(out, 1)?;
            put_path(out, path)
        }
        Call::Mkdir(path) => {
            put_u8(out, 2)?;
            put_path(out, path)
        }
        Call::Unlink(path) => {
            put_u8(out, 3)?;
            put_path(out, path)
        }
        Call::Rmdir(path) => {
            put_u8(out, 4)?;
            put_path(out, path)
        }
        Call::Rename(old_path, new_path) => {
            put_u8(out, 5)?;
            put_path(out, old_path)?;
            put_path(out, new_path)
        }
        Call::Open(_, _)
        | Call::Close(_)
        | Call::Read { .. }
        | Call::Write { .. }
        | Call::Truncate { .. }
        | Call::Stat(_)
        | Call::Readdir(_)
        | Call::Fsync(_) => Ok(()),
    }
}

fn put_entry_kind(out: &mut Vec<u8>, kind: EntryKind) -> Result<(), Oom>
    ensures { OnOk result (out.new.items ≡ out.old.items ++ entry_kind_byte kind ∷ []) }
{
    match kind {
        EntryKind::File => put_u8(out, 1),
        EntryKind::Directory => put_u8(out, 2),
    }
}

#[tactic(auto, unfolding(crate::specs::Spelling::entry_bytes))]
fn put_entry(out: &mut Vec<u8>, entry: &DirectoryEntry) -> Result<(), Oom>
    requires { NameFits entry.now.name }
    ensures { OnOk result (out.new.items ≡ out.old.items ++ entry_bytes entry.now) }
{
    put_name(out, entry.name.as_slice())?;
    put_inode(out, entry.ino)?;
    put_entry_kind(out, entry.kind)
}

fn put_each_entry(out: &mut Vec<u8>, entries: &[DirectoryEntry]) -> Result<(), Oom>
    requires { All (λ entry. NameFits entry.name) entries.now }
    ensures { OnOk result (out.new.items ≡ out.old.items ++ flat_map entry_bytes entries.now) }
{
    for entry in entries {
        put_entry(out, entry)?;
    }
    Ok(())
}

#[tactic(auto, unfolding(crate::specs::Spelling::entries_bytes))]
fn put_entries(out: &mut Vec<u8>, entries: &[DirectoryEntry]) -> Result<(), Oom>
    requires count { length entries.now < 2 ^ 16 }
    requires names { All (λ entry. NameFits entry.name) entries.now }
    ensures { OnOk result (out.new.items ≡ out.old.items ++ entries_bytes entries.now) }
{
    put_u16(out, entries.len() as u16)?;
    put_each_entry(out, entries)
}

fn put_contents(out: &mut Vec<u8>, contents: &[u8]) -> Result<(), Oom>
    requires { length contents.now ≤ file_size }
    ensures { OnOk result (out.new.items ≡ out.old.items ++ content_bytes (Content.Bytes contents.now)) }
{
    put_u32(out, contents.len() as u32)?;
    put_bytes(out, contents)
}

fn put_content(out: &mut Vec<u8>, content: &Content) -> Result<(), Oom>
    requires { ContentFits content.now }
    ensures { OnOk result (out.new.items ≡ out.old.items ++ content_bytes content.now) }
{
    match content {
        Content::Nothing => Ok(()),
        Content::Names(entries) => put_entries(out, entries.as_slice()),
        Content::Bytes(contents) => put_contents(out, contents.as_slice()),
        Content::Size(size) => put_u32(out, *size),
    }
}

fn put_class(out: &mut Vec<u8>, class: Class) -> Result<(), Oom>
    ensures { OnOk result (out.new.items ≡ out.old.items ++ class_number class ∷ []) }
{
    put_u8(out, class.number())
}

fn put_hold(out: &mut Vec<u8>, hold: Hold) -> Result<(), Oom>
    ensures { OnOk result (out.new.items ≡ out.old.items ++ hold_number hold ∷ []) }
{
    put_u8(out, hold.number())
}

#[tactic(auto, unfolding(crate::specs::Spelling::grant_item_bytes))]
fn put_grant_item(out: &mut Vec<u8>, item: &GrantItem) -> Result<(), Oom>
    requires { ContentFits item.now.content }
    ensures { OnOk result (out.new.items ≡ out.old.items ++ grant_item_bytes item.now) }
{
    put_inode(out, item.ino)?;
    put_class(out, item.class)?;
    put_hold(out, item.hold)?;
    put_flag(out, item.fresh)?;
    put_content(out, &item.content)
}

fn put_each_grant_item(out: &mut Vec<u8>, items: &[GrantItem]) -> Result<(), Oom>
    requires { All (λ item. ContentFits item.content) items.now }
    ensures { OnOk result (out.new.items ≡ out.old.items ++ flat_map grant_item_bytes items.now) }
{
    for item in items {
        put_grant_item(out, item)?;
    }
    Ok(())
}

#[tactic(auto, unfolding(crate::specs::Spelling::grant_items_bytes))]
pub(crate) fn put_grant_items(out: &mut Vec<u8>, items: &[GrantItem]) -> Result<(), Oom>
    requires count { length items.now < 2 ^ 16 }
    requires contents { All (λ item. ContentFits item.content) items.now }
    ensures { OnOk result (out.new.items ≡ out.old.items ++ grant_items_bytes items.now) }
{
    put_u16(out, items.len() as u16)?;
    put_each_grant_item(out, items)
}

fn put_block(out: &mut Vec<u8>, block: &(u8, Sector)) -> Result<(), Oom>
    ensures { OnOk result (out.new.items ≡ out.old.items ++ block_bytes block.now) }
{
    put_u8(out, block.0)?;
    put_bytes(out, &block.1)
}

fn put_each_block(out: &mut Vec<u8>, blocks: &[(u8, Sector)]) -> Result<(), Oom>
    ensures { OnOk result (out.new.items ≡ out.old.items ++ flat_map block_bytes blocks.now) }
{
    for block in blocks {
        put_block(out, block)?;
    }
    Ok(())
}

#[tactic(auto, unfolding(crate::specs::Spelling::flush_head_bytes))]
fn put_flush_head(out: &mut Vec<u8>, flush: &Flush) -> Result<(), Oom>
    ensures { OnOk result (out.new.items ≡ out.old.items ++ flush_head_bytes flush.now) }
{
    put_u64(out, flush.number)?;
    put_inode(out, flush.ino)?;
    put_u32(out, flush.size)?;
    put_u32(out, flush.cut)
}

#[tactic(auto, unfolding(crate::specs::Spelling::flush_bytes))]
pub(crate) fn put_flush(out: &mut Vec<u8>, flush: &Flush) -> Result<(), Oom>
    requires { length flush.now.pieces ≤ unflushed_blocks }
    ensures { OnOk result (out.new.items ≡ out.old.items ++ flush_bytes flush.now) }
{
    put_flush_head(out, flush)?;
    put_hold(out, flush.leave_data)?;
    put_hold(out, flush.leave_attr)?;
    put_u8(out, flush.pieces.len() as u8)?;
    put_each_block(out, flush.pieces.as_slice())
}

fn put_item(out: &mut Vec<u8>, item: &(Class, Hold)) -> Result<(), Oom>
    ensures { OnOk result (out.new.items ≡ out.old.items ++ item_bytes item.now) }
{
    put_bytes(out, &[item.0.number(), item.1.number()])
}

fn put_each_item(out: &mut Vec<u8>, items: &[(Class, Hold)]) -> Result<(), Oom>
    ensures { OnOk result (out.new.items ≡ out.old.items ++ flat_map item_bytes items.now) }
{
    for item in items {
        put_item(out, item)?;
    }
    Ok(())
}

#[tactic(auto, unfolding(crate::specs::Spelling::items_bytes))]
pub(crate) fn put_items(out: &mut Vec<u8>, items: &[(Class, Hold)]) -> Result<(), Oom>
    requires { length items.now ≤ 3 }
    ensures { OnOk result (out.new.items ≡ out.old.items ++ items_bytes items.now) }
{
    put_u8(out, items.len() as u8)?;
    put_each_item(out, items)
}

#[tactic(auto, unfolding(crate::specs::Spelling::reported_bytes))]
fn put_reported(out: &mut Vec<u8>, hold: &Reported) -> Result<(), Oom>
    ensures { OnOk result (out.new.items ≡ out.old.items ++ reported_bytes hold.now) }
{
    put_inode(out, hold.token.ino)?;
    put_class(out, hold.token.class)?;
    put_hold(out, hold.token.hold)?;
    put_u64(out, hold.flush)?;
    put_hold(out, hold.leave)
}

fn put_each_reported(out: &mut Vec<u8>, holds: &[Reported]) -> Result<(), Oom>
    ensures { OnOk result (out.new.items ≡ out.old.items ++ flat_map reported_bytes holds.now) }
{
    for hold in holds {
        put_reported(out, hold)?;
    }
    Ok(())
}

#[tactic(auto, unfolding(crate::specs::Spelling::piece_bytes))]
pub(crate) fn put_piece(out: &mut Vec<u8>, piece: &Piece) -> Result<(), Oom>
    requires { length piece.now.holds ≤ holds_per_piece }
    ensures { OnOk result (out.new.items ≡ out.old.items ++ piece_bytes piece.now) }
{
    put_u16(out, piece.index)?;
    put_flag(out, piece.last)?;
    put_u8(out, piece.holds.len() as u8)?;
    put_each_reported(out, piece.holds.as_slice())
}
