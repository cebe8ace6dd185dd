ghost use Rattle.std.specs.Prelude.{◌≡◌, ◌≢◌, ◌≤◌, ◌<◌, ◌+◌, ℕ, None, length, slice_index, IfOk, IfErr};
ghost use Rattle.std.specs.Ordering.{nat_cmp};
ghost use Rattle.std.specs.Cmp.Lexicographic.{slice_cmp};
ghost use Rattle.directory.specs.Block.{entry_at};
ghost use Rattle.directory.specs.Directory.{IsAbsent, first_empty};
ghost use Rattle.directory.specs.Index.{IsFound, IsGap, IsHint, IsIndex, IsTaken, name_at, name_of};

use crate::entry::DirEntry;
use std::cmp::Ordering;

/// The name in a slot; none where it is empty.
fn name_in(slot: &Option<DirEntry>) -> &[u8]
    ensures { result.now ≡ name_of slot.now }
{
    match slot {
        Some(entry) => entry.name.as_slice(),
        None => &[],
    }
}

/// How the name at a place stands to another.
fn compare(slots: &[Option<DirEntry>], place: usize, name: &[u8]) -> Ordering
    requires { place < length slots.now }
    ensures { result ≡ slice_cmp nat_cmp (name_at slots.now place) name.now }
{
    name_in(&slots[place]).cmp(name)
}

/// Where the index has a name, or else where it would go.
pub(crate) fn search(slots: &[Option<DirEntry>], index: &[u16], name: &[u8]) -> Result<usize, usize>
    requires { IsIndex slots.now index.now }
    ensures found { IfOk result (IsFound slots.now index.now name.now) }
    ensures absent { IfErr result (IsGap slots.now index.now name.now) }
{
    let mut low = 0;
    let mut high = index.len();
    while low < high {
        let middle = low + (high - low) / 2;
        match compare(slots, index[middle] as usize, name) {
            Ordering::Less => low = middle + 1,
            Ordering::Equal => return Ok(middle),
            Ordering::Greater => high = middle,
        }
    }
    Err(low)
}

/// Where a name that doesn't stand would go in the index.
pub(crate) fn gap(slots: &[Option<DirEntry>], index: &[u16], name: &[u8]) -> usize
    requires index { IsIndex slots.now index.now }
    requires absent { IsAbsent slots.now name.now }
    ensures { IsGap slots.now index.now name.now result }
{
    match search(slots, index, name) {
        Ok(at) => at,
        Err(at) => at,
    }
}

/// Where the index has a place at which an entry stands.
pub(crate) fn rank(slots: &[Option<DirEntry>], index: &[u16], place: usize) -> usize
    requires index { IsIndex slots.now index.now }
    requires taken { IsTaken slots.now place }
    ensures within { result < length index.now }
    ensures is { slice_index index.now result ≡ place }
{
    match search(slots, index, name_in(&slots[place])) {
        Ok(at) => at,
        Err(at) => at,
    }
}

/// The place of the first empty slot, where none below the hint is empty.
pub(crate) fn first_empty_from(slots: &[Option<DirEntry>], hint: usize) -> usize
    requires { IsHint slots.now hint }
    ensures first { result ≡ first_empty slots.now }
    ensures hint { IsHint slots.now result }
    ensures within { result ≤ length slots.now }
    ensures empty { result < length slots.now → entry_at slots.now result ≡ None }
{
    let mut place = hint;
    while place < slots.len() {
        if slots[place].is_none() {
            return place;
        }
        place += 1;
    }
    place
}
