ghost use Rattle.std.specs.Prelude.{◌≡◌, ◌≤◌, ◌<◌, ◌+◌, ◌*◌, ◌++◌, List, Option, length};
ghost use Rattle.std.specs.Option.{option_copied};
ghost use Rattle.cal_base.specs.Limits.{block_size, slot_size, slots_per_block};
ghost use Rattle.directory.specs.Block.{AreEntries, IsSlot, entry_at, slot_bytes, slots_bytes};
ghost use Rattle.directory.specs.Changed.{after, entered_at, left_at};
ghost use Rattle.directory.specs.Directory.{block_slots};

use crate::block::put_entry;
use crate::entry::DirEntry;
use cal_base::{SLOT_SIZE, SLOTS_PER_BLOCK};
use cal_fields::SectorFields;

/// An entry and its place.
#[derive(Clone, Copy)]
pub struct PlacedEntry<'a> {
    pub place: usize,
    pub entry: &'a DirEntry,
}

/// What one edit changes of the slots of a directory, in this order.
#[derive(Clone, Copy)]
pub struct SlotChanges<'a> {
    /// A block of empty slots comes behind the others.
    pub grows: bool,
    /// The slot at this place is emptied.
    pub leaving: Option<usize>,
    /// An entry is put into the slot at its place.
    pub entering: Option<PlacedEntry<'a>>,
}

/// The entry at a place; none where the slot is empty, and none past the last slot.
fn entry_in(slots: &[Option<DirEntry>], place: usize) -> Option<&DirEntry>
    ensures { option_copied result ≡ entry_at slots.now place }
{
    match slots.get(place) {
        Some(slot) => slot.as_ref(),
        None => None,
    }
}

/// The entry at a place once one has left.
fn entry_left<'a>(
    leaving: Option<usize>,
    place: usize,
    slot: Option<&'a DirEntry>,
) -> Option<&'a DirEntry>
    ensures { option_copied result ≡ left_at leaving place (option_copied slot.entry) }
{
    match leaving {
        Some(other) => { if other == place { None } else { slot } }
        None => slot,
    }
}

/// The entry at a place once one has entered.
fn entry_entered<'a>(
    entering: Option<PlacedEntry<'a>>,
    place: usize,
    slot: Option<&'a DirEntry>,
) -> Option<&'a DirEntry>
    ensures { option_copied result ≡ entered_at entering.entry place (option_copied slot.entry) }
{
    match entering {
        Some(placed) => {
            if placed.place == place {
                Some(placed.entry)
            } else {
                slot
            }
        }
        None => slot,
    }
}

/// The entry at a place after the changes.
fn entry_after<'a>(
    slots: &'a [Option<DirEntry>],
    changes: SlotChanges<'a>,
    place: usize,
) -> Option<&'a DirEntry>
    requires { place < length (after changes slots.now) }
    ensures { option_copied result ≡ entry_at (after changes.entry slots.now) place }
{
    let slot = entry_left(changes.leaving, place, entry_in(slots, place));
    entry_entered(changes.entering, place, slot)
}

/// Writes the slot of an entry, or an empty one, into the next bytes.
fn put_entry_slot(fields: &mut SectorFields, entry: Option<&DirEntry>)
    requires room { length fields.old + slot_size ≤ block_size }
    requires slot { IsSlot (option_copied entry) }
    ensures { fields.new ≡ fields.old ++ slot_bytes (option_copied entry.entry) }
{
    match entry {
        Some(entry) => put_entry(fields, entry),
        None => fields.put_zeros(SLOT_SIZE),
    }
}

/// Writes the slots of a block as they are after the changes.
pub(crate) fn put_slots_after(
    fields: &mut SectorFields,
    slots: &[Option<DirEntry>],
    changes: SlotChanges<'_>,
    block: u8,
)
    requires room { length fields.old + block_size ≤ block_size }
    requires within { slots_per_block * block + slots_per_block ≤ length (after changes slots.now) }
    requires entries { AreEntries (after changes slots.now) }
    ensures { fields.new ≡ fields.old ++ slots_bytes (block_slots (after changes.entry slots.now) block) }
{
    let first = SLOTS_PER_BLOCK * block as usize;
    for offset in 0..SLOTS_PER_BLOCK {
        put_entry_slot(fields, entry_after(slots, changes, first + offset));
    }
}
