ghost use Rattle.std.specs.Prelude.{◌≡◌, ◌≢◌, ◌↔◌, ◌≤◌, ◌<◌, ◌+◌, ◌*◌, ◌^◌, ◌++◌, ℕ, List, Ok, length, slice_index, IsTrue, IsErr, IfOk, OnErr};
ghost use Rattle.cal_base.specs.Limits.{file_blocks};
ghost use Rattle.inode.specs.declared.inode.Inode.{Inode};
ghost use Rattle.cal_fields.specs.Flag.{bool_byte};
ghost use Rattle.inode.specs.Inode.{IsInRange, SpellsInode, fields_size, inode_fields, kind_byte, pointer_bytes};

use crate::check::is_inode;
use crate::inode::{Inode, Kind};
use cal_base::{FILE_BLOCKS, Sector};
use cal_fields::{padded_front, take_u8, take_u16, take_u32};

/// Bytes of the fields of an inode.
const FIELDS_SIZE: usize = 134;

/// A sector spells no inode.
#[derive(Clone, Copy, Debug, PartialEq, Eq)]
pub struct BadInode;

/// The inode that a sector spells; `BadInode` exactly where it spells none.
pub fn read_inode(from: &Sector) -> Result<Inode, BadInode>
    ensures found { IfOk result (λ inode. SpellsInode from.now inode) }
    ensures again { (inode : Inode) → SpellsInode from.now inode → result ≡ Ok inode }
{
    let Some(front) = padded_front(from, FIELDS_SIZE) else {
        return Err(BadInode);
    };
    let inode = fields_of(front)?;
    if !is_inode(&inode) {
        return Err(BadInode);
    }
    Ok(inode)
}

/// The fields that these bytes spell.
fn fields_of(front: &[u8]) -> Result<Inode, BadInode>
    requires { length front.now ≡ fields_size }
    ensures found { IfOk result (λ inode. front.now ≡ inode_fields inode) }
    ensures in_range { IfOk result IsInRange }
    ensures bad { OnErr result ((inode : Inode) → front.now ≢ inode_fields inode) }
{
    let mut rest = front;
    let kind_byte = take_u8(&mut rest).unwrap();
    let named_byte = take_u8(&mut rest).unwrap();
    let size = take_u32(&mut rest).unwrap();
    let kind = kind_of(kind_byte)?;
    let named = bool_of(named_byte)?;
    let blocks = pointers_of(rest);
    Ok(Inode {
        kind,
        named,
        size,
        blocks,
    })
}

fn kind_of(byte: u8) -> Result<Kind, BadInode>
    ensures found { IfOk result (λ kind. byte ≡ kind_byte kind) }
    ensures bad { IsErr result ↔ (3 ≤ byte) }
{
    match byte {
        0 => Ok(Kind::Free),
        1 => Ok(Kind::File),
        2 => Ok(Kind::Dir),
        _ => Err(BadInode),
    }
}

fn bool_of(byte: u8) -> Result<bool, BadInode>
    ensures found { IfOk result (λ value. byte ≡ bool_byte value) }
    ensures bad { IsErr result ↔ (2 ≤ byte) }
{
    match byte {
        0 => Ok(false),
        1 => Ok(true),
        _ => Err(BadInode),
    }
}

/// The pointers that these bytes spell.
fn pointers_of(bytes: &[u8]) -> [u16; FILE_BLOCKS]
    requires { length bytes.now ≡ 2 * file_blocks }
    ensures read { bytes.now ≡ pointer_bytes result }
    ensures in_range { (place : ℕ) → slice_index result place < 2 ^ 16 }
{
    let mut pointers = [0; FILE_BLOCKS];
    let mut rest = bytes;
    for place in 0..FILE_BLOCKS {
        pointers[place] = take_u16(&mut rest).unwrap();
    }
    pointers
}
