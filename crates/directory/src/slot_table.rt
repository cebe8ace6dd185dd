ghost use Rattle.std.specs.Prelude.{◌≡◌, ◌≢◌, ◌≤◌, ◌<◌, ◌+◌, ◌++◌, ◌∷◌, [], ℕ, None, Some, length, replicate, slice_set, take, ◌-◌, IfOk, IfSome, IfNone, OnOk, OnErr};
ghost use Rattle.cal_base.specs.Limits.{directory_entries, slots_per_block};
ghost use Rattle.directory.specs.declared.entry.DirEntry.{DirEntry};
ghost use Rattle.directory.specs.Block.{entry_at};
ghost use Rattle.directory.specs.Directory.{IsAbsent, IsAlone, AreDistinct, Repeats, Replaces, HasName, StandsAt, entry_count, first_empty, with_ino};
ghost use Rattle.directory.specs.Index.{IsIndex, IsTaken};

use crate::block::BadBlock;
use crate::entry::DirEntry;
use crate::index::{first_empty_from, gap, rank, search};
use cal_base::{DIRECTORY_ENTRIES, Ino, Oom, SLOTS_PER_BLOCK};
use std::alloc::Global;
use std::marker::Model;

/// Up to 1,024 slots, with the places of their entries by name. Contracts see the slots.
#[derive(Debug, Drop)]
pub(crate) struct SlotTable {
    slots: Vec<Option<DirEntry>>,
    /// The places of the entries, in the order of their names.
    index: Vec<u16>,
    /// No slot below this place is empty.
    hint: usize,
}

impl Model for SlotTable {
    ghost use Rattle.std.specs.Prelude.{List, Option, ◌≤◌, vec_capacity};
    ghost use Rattle.cal_base.specs.Limits.{directory_entries};
    ghost use Rattle.directory.specs.declared.entry.DirEntry.{DirEntry};
    ghost use Rattle.directory.specs.Index.{IsTable};

    ghost Value = { List (Option DirEntry) };

    ghost view = { λ it. it.slots.items };

    ghost invariant = { λ it. IsTable it.slots.items it.index.items it.hint × (directory_entries ≤ vec_capacity it.slots) × (directory_entries ≤ vec_capacity it.index) };
}

impl SlotTable {
    /// No slots, with room for 1,024 of them.
    pub(crate) fn room(alloc: Global) -> Result<SlotTable, Oom>
        ensures { IfOk result (λ table. table ≡ []) }
    {
        let slots = Vec::with_capacity(alloc, DIRECTORY_ENTRIES)?;
        let index = Vec::with_capacity(alloc, DIRECTORY_ENTRIES)?;
        Ok(SlotTable {
            slots,
            index,
            hint: 0,
        })
    }

    /// The slots.
    pub(crate) fn slots(&self) -> &[Option<DirEntry>]
        ensures slots { result.now ≡ self.now }
        ensures distinct { AreDistinct self.now }
        ensures few { length self.now ≤ directory_entries }
    {
        self.slots.as_slice()
    }

    /// How many slots have an entry.
    pub(crate) fn count(&self) -> usize
        ensures count { result ≡ entry_count self.now }
        ensures few { result ≤ directory_entries }
    {
        self.index.len()
    }

    /// The place of a name.
    pub(crate) fn find(&self, name: &[u8]) -> Option<usize>
        ensures found { IfSome result (StandsAt self.now name.now) }
        ensures absent { IfNone result (IsAbsent self.now name.now) }
    {
        match search(&self.slots, &self.index, name) {
            Ok(at) => Some(self.index[at] as usize),
            Err(_) => None,
        }
    }

    /// The place of the first empty slot.
    pub(crate) fn first_empty(&self) -> usize
        ensures first { result ≡ first_empty self.now }
        ensures within { result ≤ length self.now }
        ensures empty { result < length self.now → entry_at self.now result ≡ None }
    {
        first_empty_from(&self.slots, self.hint)
    }

    /// The place of the first empty slot, which is kept as the hint.
    pub(crate) fn seek_empty(&mut self) -> usize
        ensures first { result ≡ first_empty self.old }
        ensures within { result ≤ length self.old }
        ensures empty { result < length self.old → entry_at self.old result ≡ None }
        ensures unchanged { self.new ≡ self.old }
    {
        let place = first_empty_from(&self.slots, self.hint);
        self.hint = place;
        place
    }

    /// The places of the entries, in the order of their names.
    pub(crate) fn index(&self) -> &[u16]
        ensures { IsIndex self.now result.now }
    {
        self.index.as_slice()
    }

    /// Puts an empty slot at the end.
    pub(crate) fn push_empty(&mut self)
        requires { length self.old < directory_entries }
        ensures { self.new ≡ self.old ++ None ∷ [] }
    {
        self.slots.push(None).unwrap();
    }

    /// Puts an empty block at the end.
    pub(crate) fn push_block(&mut self)
        requires { length self.old + slots_per_block ≤ directory_entries }
        ensures { self.new ≡ self.old ++ replicate slots_per_block None }
    {
        for _ in 0..SLOTS_PER_BLOCK {
            self.push_empty();
        }
    }

    /// Puts an entry into an empty slot. Its name doesn't stand.
    pub(crate) fn fill(&mut self, place: usize, entry: DirEntry)
        requires within { place < length self.old }
        requires empty { entry_at self.old place ≡ None }
        requires absent { IsAbsent self.old entry.name }
        ensures { self.new ≡ slice_set self.old place (Some entry) }
    {
        let at = gap(&self.slots, &self.index, entry.name.as_slice());
        self.index.insert(at, place as u16).unwrap();
        self.slots[place] = Some(entry);
        if place == self.hint {
            self.hint += 1;
        }
    }

    /// Empties the slot at a place at which an entry stands. The inode that it named.
    pub(crate) fn clear(&mut self, place: usize) -> Ino
        requires { IsTaken self.old place }
        ensures was { (entry : DirEntry) → entry_at self.old place ≡ Some entry → result ≡ entry.ino }
        ensures emptied { self.new ≡ slice_set self.old place None }
    {
        let at = rank(&self.slots, &self.index, place);
        self.index.remove(at);
        self.hint = self.hint.min(place);
        take_entry(&mut self.slots[place])
    }

    /// Empties the slot at a place.
    pub(crate) fn clear_any(&mut self, place: usize)
        requires { place < length self.old }
        ensures { self.new ≡ slice_set self.old place None }
    {
        if self.slots[place].is_some() {
            self.clear(place);
        }
    }

    /// Puts an entry into the slot at a place, whatever stood there. Its name stands nowhere else.
    pub(crate) fn set(&mut self, place: usize, entry: DirEntry)
        requires within { place < length self.old }
        requires alone { IsAlone self.old entry.name place }
        ensures { self.new ≡ slice_set self.old place (Some entry) }
    {
        self.clear_any(place);
        self.fill(place, entry);
    }

    /// Takes all slots away.
    pub(crate) fn clear_all(&mut self)
        ensures { self.new ≡ [] }
    {
        self.slots.clear();
        self.index.clear();
        self.hint = 0;
    }

    /// Puts another inode into the slot of a name, where the name stands.
    pub(crate) fn set_ino(&mut self, name: &[u8], ino: Ino)
        requires { HasName self.old name.now }
        ensures { Replaces self.old name.now ino.0 self.new }
    {
        match self.find(name) {
            Some(place) => change_ino(&mut self.slots[place], ino),
            None => {}
        }
    }

    /// Takes the last slot away.
    pub(crate) fn pop(&mut self)
        requires { 0 < length self.old }
        ensures { self.new ≡ take (length self.old - 1) self.old }
    {
        let last = self.slots.len() - 1;
        self.clear_any(last);
        self.hint = self.hint.min(last);
        self.slots.pop();
    }

    /// Puts a slot at the end. Its name must not stand in another slot.
    pub(crate) fn push_slot(&mut self, slot: Option<DirEntry>) -> Result<(), BadBlock>
        requires { length self.old < directory_entries }
        ensures ok { OnOk result (self.new ≡ self.old ++ slot ∷ []) }
        ensures bad { OnErr result (Repeats self.old slot) }
        ensures unchanged { OnErr result (self.new ≡ self.old) }
    {
        let Some(entry) = slot else {
            self.push_empty();
            return Ok(());
        };
        if self.find(entry.name.as_slice()).is_some() {
            return Err(BadBlock);
        }
        let place = self.slots.len();
        self.push_empty();
        self.fill(place, entry);
        Ok(())
    }
}

/// Empties a slot, and gives the inode that it named.
fn take_entry(slot: &mut Option<DirEntry>) -> Ino
    requires { slot.old ≢ None }
    ensures empty { slot.new ≡ None }
    ensures was { (entry : DirEntry) → slot.old ≡ Some entry → result ≡ entry.ino }
{
    match slot.take() {
        Some(entry) => entry.ino,
        None => unreachable!(),
    }
}

/// Puts another inode into a slot that isn't empty.
fn change_ino(slot: &mut Option<DirEntry>, ino: Ino)
    ensures { slot.new ≡ with_ino ino slot.old }
{
    if let Some(entry) = slot {
        entry.ino = ino;
    }
}
