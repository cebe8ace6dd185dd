ghost use Rattle.std.specs.Prelude.{◌≡◌, ◌≤◌, ◌<◌, ℕ, All, IfOk, Some, length, map, slice_index};
ghost use Rattle.cal_base.specs.Limits as limits;
ghost use Rattle.directory.specs.Index.{IsTaken};
ghost use Rattle.image.specs.Listed.{kind_if, listed, listed_at, listing};
ghost use Rattle.tree_law.specs.Entries.{AreEntries};
ghost use Rattle.volume_plan.specs.Shown.{shown};

use crate::image::Image;
use cal_base::{Blob, DirectoryEntry, EntryKind, EntryList, Ino, Oom};
use directory::DirEntry;
use std::alloc::Global;
use tree_law::Lookup;

impl Image {
    /// The entries of a directory in the order of their names, each with what its inode is; none where
    /// the inode isn't a directory. They are a function of the volume, as a server sends them.
    pub fn entries(&self, alloc: Global, ino: Ino) -> Result<EntryList, Oom>
        requires { ino.0 < limits.inodes }
        ensures listed { IfOk result (λ entries. entries ≡ listing self.now ino.0) }
        ensures formed { IfOk result AreEntries }
        ensures from_one { IfOk result (All (λ entry. 1 ≤ entry.ino.0)) }
        ensures few { IfOk result (λ entries. length entries ≤ limits.directory_entries) }
    {
        let blocks = &self.directories[ino.0 as usize];
        let entries = self.list(alloc, blocks.slots(), blocks.by_name())?;
        Ok(entries)
    }

    /// The entries at these places.
    fn list(
        &self,
        alloc: Global,
        slots: &[Option<DirEntry>],
        places: &[u16],
    ) -> Result<EntryList, Oom>
        requires { (at : ℕ) → at < length places.now → IsTaken slots.now (slice_index places.now at) }
        ensures { IfOk result (λ entries. entries ≡ map (listed_at (shown self.now) slots.now) places.now) }
    {
        let mut entries = EntryList::new(alloc);
        for place in places {
            entries.push(self.entry_at(alloc, slots, *place)?)?;
        }
        Ok(entries)
    }

    /// The entry at a place.
    fn entry_at(
        &self,
        alloc: Global,
        slots: &[Option<DirEntry>],
        place: u16,
    ) -> Result<DirectoryEntry, Oom>
        requires { IsTaken slots.now place }
        ensures { IfOk result (λ entry. entry ≡ listed_at (shown self.now) slots.now place) }
    {
        match &slots[place as usize] {
            Some(entry) => self.entry_of(alloc, entry),
            None => unreachable!(),
        }
    }

    /// An entry with what its inode is.
    fn entry_of(&self, alloc: Global, entry: &DirEntry) -> Result<DirectoryEntry, Oom>
        ensures { IfOk result (λ found. found ≡ listed (shown self.now) (Some entry.now)) }
    {
        let name = Blob::from_vec(Vec::from_slice(alloc, entry.name.as_slice())?);
        Ok(DirectoryEntry {
            name,
            ino: entry.ino,
            kind: kind_if(self.is_directory(entry.ino)),
        })
    }
}

/// A directory, or else a file.
fn kind_if(is_directory: bool) -> EntryKind
    ensures { result ≡ kind_if is_directory }
{
    if is_directory {
        EntryKind::Directory
    } else {
        EntryKind::File
    }
}
