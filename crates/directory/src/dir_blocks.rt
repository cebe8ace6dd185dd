ghost use Rattle.std.specs.Prelude.{◌≡◌, ◌≢◌, ◌==◌, ◌≤◌, ◌<◌, ◌+◌, ◌++◌, ◌*◌, ◌%◌, ◌↔◌, ℕ, [], List, Option, Some, None, length, replicate, slice_set, IfOk, IsErr, OnOk, OnErr, IfSome, IfNone, IsTrue};
ghost use Rattle.cal_base.specs.Limits.{directory_entries, last_inode, slots_per_block};
ghost use Rattle.tree_law.specs.Path.{IsName};
ghost use Rattle.directory.specs.declared.entry.DirEntry.{DirEntry};
ghost use Rattle.directory.specs.Block.{AreEntries, IsEntry, SpellsBlock, entry_at};
ghost use Rattle.directory.specs.Changed.{after};
ghost use Rattle.directory.specs.Directory.{Continues, Grows, IsAbsent, IsAlone, IsDirectory, Names, Removes, Replaces, HasName, StandsAt, block_slots, entry_count, first_empty, ino_of, inserted, with_room};
ghost use Rattle.directory.specs.Index.{IsIndex};

use crate::block::{BadBlock, put_slots};
use crate::entry::{DirEntry, EntryName};
use crate::load::{cut, push_slots};
use crate::slot_changes::{SlotChanges, put_slots_after};
use crate::slot_table::SlotTable;
use cal_base::{DIRECTORY_ENTRIES, Ino, Oom, SLOTS_PER_BLOCK, Sector};
use cal_fields::SectorFields;
use std::alloc::Global;
use std::marker::Model;

/// The directory has its 1,024 entries.
#[derive(Clone, Copy, Debug, PartialEq, Eq)]
pub struct DirFull;

/// The blocks of one directory: at most eight, of 128 slots each. Contracts see the slots over all
/// blocks in order, each empty or with an entry. No name stands twice.
///
/// A name is found through an index in the order of names, and never by going over the slots.
#[derive(Debug, Drop)]
pub struct DirBlocks {
    table: SlotTable,
}

impl Model for DirBlocks {
    ghost use Rattle.std.specs.Prelude.{List, Option};
    ghost use Rattle.directory.specs.declared.entry.DirEntry.{DirEntry};
    ghost use Rattle.directory.specs.Directory.{IsDirectory};

    ghost Value = { List (Option DirEntry) };

    ghost view = { λ it. it.table };

    ghost invariant = { λ it. IsDirectory it.table };
}

impl DirBlocks {
    /// A directory without blocks. It takes all memory that it will ever need.
    pub fn room(alloc: Global) -> Result<DirBlocks, Oom>
        ensures { IfOk result (λ blocks. blocks ≡ []) }
    {
        let table = SlotTable::room(alloc)?;
        Ok(DirBlocks { table })
    }

    /// Adds the next block, where fewer than eight are there. `BadBlock` exactly where a slot of the
    /// sector is outside its grammar, or its name stands already in an earlier slot of the directory;
    /// then nothing is added.
    pub fn load(&mut self, from: &Sector) -> Result<(), BadBlock>
        requires { length self.old < directory_entries }
        ensures ok { OnOk result (Continues self.old from.now self.new) }
        ensures bad { OnErr result ((new : List (Option DirEntry)) → ¬ (Continues self.old from.now new)) }
        ensures unchanged { OnErr result (self.new ≡ self.old) }
    {
        let before = self.table.slots().len();
        match push_slots(&mut self.table, from) {
            Ok(()) => Ok(()),
            Err(bad) => {
                cut(&mut self.table, before);
                Err(bad)
            }
        }
    }

    /// Writes the one sector that spells a block, which is there.
    pub fn store(&self, block: u8, into: &mut Sector)
        requires { slots_per_block * block < length self.now }
        ensures { SpellsBlock into.new (block_slots self.now block) }
    {
        let first = SLOTS_PER_BLOCK * block as usize;
        let mut fields = SectorFields::new();
        put_slots(
            &mut fields,
            &self.table.slots()[first..first + SLOTS_PER_BLOCK],
        );
        fields.finish(into);
    }

    /// The inode of a name; `None` exactly where the name doesn't stand.
    pub fn find(&self, name: &[u8]) -> Option<Ino>
        ensures named { IfSome result (λ ino. Names self.now name.now ino.0) }
        ensures absent { IfNone result (IsAbsent self.now name.now) }
        ensures directory { IsDirectory self.now }
    {
        match self.table.find(name) {
            Some(place) => ino_in(&self.table.slots()[place]),
            None => None,
        }
    }

    /// The place of a name's slot over all blocks, 128 slots a block; `None` exactly where the name
    /// doesn't stand.
    pub fn place(&self, name: &[u8]) -> Option<usize>
        ensures found { IfSome result (StandsAt self.now name.now) }
        ensures absent { IfNone result (IsAbsent self.now name.now) }
        ensures directory { IsDirectory self.now }
    {
        self.table.find(name)
    }

    /// The slots of all blocks, in order.
    pub fn slots(&self) -> &[Option<DirEntry>]
        ensures slots { result.now ≡ self.now }
        ensures directory { IsDirectory self.now }
    {
        self.table.slots()
    }

    /// The places of the entries in the order of their names, by bytes.
    pub fn by_name(&self) -> &[u16]
        ensures index { IsIndex self.now result.now }
        ensures directory { IsDirectory self.now }
    {
        self.table.index()
    }

    /// Puts an entry into the first empty slot over all blocks, or into a new block where none is
    /// empty. The name doesn't stand, and the inode isn't the root. `DirFull` exactly at 1,024
    /// entries; then nothing changed.
    pub fn insert(&mut self, name: &[u8], ino: Ino) -> Result<(), DirFull>
        requires name { IsName name.now }
        requires absent { IsAbsent self.old name.now }
        requires from_one { 1 ≤ ino.0 }
        requires to_511 { ino.0 ≤ last_inode }
        ensures ok { OnOk result (self.new ≡ inserted self.old (record { name = name.now; ino = ino })) }
        ensures full { IsErr result ↔ (entry_count self.old ≡ directory_entries) }
        ensures unchanged { OnErr result (self.new ≡ self.old) }
    {
        if self.table.count() == DIRECTORY_ENTRIES {
            return Err(DirFull);
        }
        let place = make_room(&mut self.table);
        let entry = DirEntry {
            name: EntryName::new(name),
            ino,
        };
        self.table.fill(place, entry);
        Ok(())
    }

    /// Puts another inode into the slot of a name that stands. It isn't the root.
    pub fn replace(&mut self, name: &[u8], ino: Ino)
        requires stands { HasName self.old name.now }
        requires from_one { 1 ≤ ino.0 }
        requires to_511 { ino.0 ≤ last_inode }
        ensures { Replaces self.old name.now ino.0 self.new }
    {
        self.table.set_ino(name, ino);
    }

    /// Empties the slot of a name, and gives the inode that it named; `None` exactly where the name
    /// doesn't stand.
    pub fn remove(&mut self, name: &[u8]) -> Option<Ino>
        ensures removed { IfSome result (λ ino. Removes self.old name.now ino.0 self.new) }
        ensures absent { IfNone result (IsAbsent self.old name.now) }
        ensures unchanged { IfNone result (self.new ≡ self.old) }
    {
        match self.table.find(name) {
            Some(place) => Some(self.table.clear(place)),
            None => None,
        }
    }

    /// Adds a block of empty slots behind the others.
    pub fn grow(&mut self)
        requires { length self.old < directory_entries }
        ensures { self.new ≡ self.old ++ replicate slots_per_block None }
    {
        self.table.push_block();
    }

    /// Puts an entry into the slot at a place, whatever stood there. Its name stands nowhere else.
    pub fn set(&mut self, place: usize, entry: &DirEntry)
        requires within { place < length self.old }
        requires entry { IsEntry entry.now }
        requires alone { IsAlone self.old entry.now.name place }
        ensures { self.new ≡ slice_set self.old place (Some entry.now) }
    {
        self.table.set(place, entry.copied());
    }

    /// Empties the slot at a place, whatever stood there.
    pub fn clear(&mut self, place: usize)
        requires { place < length self.old }
        ensures { self.new ≡ slice_set self.old place None }
    {
        self.table.clear_any(place);
    }

    /// Takes all blocks away, and keeps the room.
    pub fn clear_all(&mut self)
        ensures { self.new ≡ [] }
    {
        self.table.clear_all();
    }

    /// The place of the first empty slot; the count of slots where none is empty.
    pub fn first_empty(&self) -> usize
        ensures first { result ≡ first_empty self.now }
        ensures directory { IsDirectory self.now }
    {
        self.table.first_empty()
    }

    /// Writes the one sector that spells a block as it will be after the changes of an edit.
    pub fn store_changed(&self, block: u8, changes: SlotChanges<'_>, into: &mut Sector)
        requires within { slots_per_block * block < length (after changes self.now) }
        requires entries { AreEntries (after changes self.now) }
        ensures { SpellsBlock into.new (block_slots (after changes.entry self.now) block) }
    {
        let mut fields = SectorFields::new();
        put_slots_after(&mut fields, self.table.slots(), changes, block);
        fields.finish(into);
    }

    /// Whether the next insertion adds a block: no slot is empty, and the directory isn't full.
    pub fn grows(&self) -> bool
        ensures { IsTrue result ↔ Grows self.now }
    {
        let slots = self.table.slots().len();
        slots < DIRECTORY_ENTRIES && self.table.first_empty() == slots
    }

    /// How many entries it has, at most 1,024.
    pub fn count(&self) -> u16
        ensures count { result ≡ entry_count self.now }
        ensures few { result ≤ directory_entries }
        ensures directory { IsDirectory self.now }
    {
        self.table.count() as u16
    }
}

/// The inode in a slot.
fn ino_in(slot: &Option<DirEntry>) -> Option<Ino>
    ensures { result ≡ ino_of slot.now }
{
    match slot {
        Some(entry) => Some(entry.ino),
        None => None,
    }
}

/// The place of the first empty slot, in a new block where no slot was empty.
fn make_room(table: &mut SlotTable) -> usize
    requires whole { length table.old % slots_per_block ≡ 0 }
    requires few { length table.old ≤ directory_entries }
    requires free { entry_count table.old < directory_entries }
    ensures room { table.new ≡ with_room table.old }
    ensures first { result ≡ first_empty table.old }
    ensures within { result < length table.new }
    ensures empty { entry_at table.new result ≡ None }
{
    let place = table.seek_empty();
    if place == table.slots().len() {
        table.push_block();
    }
    place
}
