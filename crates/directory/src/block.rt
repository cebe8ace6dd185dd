ghost use Rattle.std.specs.Prelude.{◌≡◌, ◌≢◌, ◌↔◌, ◌≤◌, ◌<◌, ◌+◌, ◌*◌, ◌++◌, ◌∷◌, ℕ, List, Option, Some, length, IsTrue, IfOk, OnErr};
ghost use Rattle.cal_base.specs.Limits.{block_size, last_inode, name_bytes, slot_size};
ghost use Rattle.tree_law.specs.Path.{IsName};
ghost use Rattle.cal_fields.specs.BigEndian.{big_endian};
ghost use Rattle.cal_fields.specs.Padded.{padded};
ghost use Rattle.directory.specs.declared.entry.DirEntry.{DirEntry};
ghost use Rattle.directory.specs.Block.{AreEntries, IsEntry, IsSlot, entry_bytes, slot_bytes, slots_bytes};

use crate::entry::{DirEntry, EntryName};
use cal_base::{Ino, LAST_INODE, NAME_BYTES, SLOT_SIZE};
use cal_fields::{SectorFields, is_zeros, padded_front, take_u8, take_u32};
use tree_law::is_name;

/// A sector spells no further block of this directory: a slot is outside its grammar, or its name
/// stands already.
#[derive(Clone, Copy, Debug, PartialEq, Eq)]
pub struct BadBlock;

/// What the bytes of a slot hold.
pub(crate) fn read_slot(bytes: &[u8]) -> Result<Option<DirEntry>, BadBlock>
    requires { length bytes.now ≡ slot_size }
    ensures found { IfOk result (λ slot. bytes.now ≡ slot_bytes slot) }
    ensures slot { IfOk result IsSlot }
    ensures bad { OnErr result ((slot : Option DirEntry) → IsSlot slot → bytes.now ≢ slot_bytes slot) }
{
    if is_zeros(bytes) {
        return Ok(None);
    }
    match read_entry(bytes) {
        Ok(entry) => Ok(Some(entry)),
        Err(error) => Err(error),
    }
}

/// Whether an entry may name the inode of this number: one of the volume other than the root.
fn is_entry_ino(ino: u32) -> bool
    ensures { IsTrue result ↔ (1 ≤ ino) × (ino ≤ last_inode) }
{
    ino >= 1 && ino <= LAST_INODE
}

/// The numbers at the front of a slot, of an inode and of a length, and the bytes behind them.
fn parts_of(bytes: &[u8]) -> (u32, u8, &[u8])
    requires { length bytes.now ≡ slot_size }
    ensures parts { bytes.now ≡ big_endian 4 result.0 ++ (result.1 ∷ result.2.now) }
    ensures length { length result.2.now ≡ name_bytes }
{
    let mut rest = bytes;
    let ino = take_u32(&mut rest).unwrap();
    let count = take_u8(&mut rest).unwrap();
    (ino, count, rest)
}

/// The entry that the bytes of a slot spell.
fn read_entry(bytes: &[u8]) -> Result<DirEntry, BadBlock>
    requires { length bytes.now ≡ slot_size }
    ensures found { IfOk result (λ entry. bytes.now ≡ padded slot_size (entry_bytes entry)) }
    ensures entry { IfOk result IsEntry }
    ensures bad { OnErr result ((entry : DirEntry) → IsEntry entry → bytes.now ≢ padded slot_size (entry_bytes entry)) }
{
    let (ino, count, rest) = parts_of(bytes);
    if !is_entry_ino(ino) {
        return Err(BadBlock);
    }
    if count as usize > NAME_BYTES {
        return Err(BadBlock);
    }
    let Some(name) = padded_front(rest, count as usize) else {
        return Err(BadBlock);
    };
    if !is_name(name) {
        return Err(BadBlock);
    }
    Ok(DirEntry {
        name: EntryName::new(name),
        ino: Ino(ino),
    })
}

/// Writes an entry into the next bytes.
pub(crate) fn put_entry(fields: &mut SectorFields, entry: &DirEntry)
    requires room { length fields.old + slot_size ≤ block_size }
    requires entry { length entry.now.name ≤ name_bytes }
    ensures { fields.new ≡ fields.old ++ padded slot_size (entry_bytes entry.now) }
{
    let name = entry.name.as_slice();
    fields.put_u32(entry.ino.0);
    fields.put_u8(name.len() as u8);
    fields.put_bytes(name);
    fields.put_zeros(NAME_BYTES - name.len());
}

/// Writes a slot into the next bytes.
fn put_slot(fields: &mut SectorFields, slot: &Option<DirEntry>)
    requires room { length fields.old + slot_size ≤ block_size }
    requires slot { IsSlot slot.now }
    ensures { fields.new ≡ fields.old ++ slot_bytes slot.now }
{
    match slot {
        Some(entry) => put_entry(fields, entry),
        None => fields.put_zeros(SLOT_SIZE),
    }
}

/// Writes slots, one behind the other.
pub(crate) fn put_slots(fields: &mut SectorFields, slots: &[Option<DirEntry>])
    requires room { length fields.old + slot_size * length slots.now ≤ block_size }
    requires entries { AreEntries slots.now }
    ensures { fields.new ≡ fields.old ++ slots_bytes slots.now }
{
    for slot in slots {
        put_slot(fields, slot);
    }
}
