ghost use Rattle.std.specs.Prelude.{◌≡◌, length, [], find, nat_eq, option_map};
ghost use Rattle.std.specs.Ordering.{nat_cmp};
ghost use Rattle.std.specs.Cmp.Lexicographic.{pointwise, slice_cmp};
ghost use Rattle.std.specs.List.Sorted.{IsBinarySearchResult, IsSearchInRange};
ghost use Rattle.tree_law.specs.Entries.{AscendByName};

use cal_base::{Blob, DirectoryEntry, EntryList};
use std::alloc::Global;
use std::marker::Model;

/// The entries of a directory, which strictly ascend by the bytes of their names, so that a name is
/// looked up by halves.
#[derive(Drop)]
pub struct Entries {
    list: EntryList,
}

impl Model for Entries {
    ghost use Rattle.std.specs.Prelude.{List};
    ghost use Rattle.cal_base.specs.declared.directory_entry.DirectoryEntry.{DirectoryEntry};
    ghost use Rattle.tree_law.specs.Entries.{AscendByName};

    ghost Value = { List DirectoryEntry };

    ghost view = { λ entries. entries.list };

    ghost invariant = { λ entries. AscendByName entries.list };
}

impl Entries {
    /// No entries. It takes no memory.
    pub(crate) fn none(alloc: Global) -> Entries
        ensures { result ≡ [] }
    {
        Entries {
            list: EntryList::new(alloc),
        }
    }

    /// Entries that ascend by name, which are moved and not copied.
    pub(crate) fn new(list: EntryList) -> Entries
        requires { AscendByName list }
        ensures { result ≡ list }
    {
        Entries { list }
    }

    /// The entries as a slice, in the order of their names.
    pub(crate) fn as_slice(&self) -> &[DirectoryEntry]
        ensures value { result.now ≡ self.now }
        ensures order { AscendByName result.now }
    {
        self.list.as_slice()
    }

    /// The entry with a name, looked up by halves; none exactly where no entry has it.
    pub(crate) fn find(&self, name: &Blob) -> Option<&DirectoryEntry>
        ensures { option_map (λ entry. entry.now) result ≡ find (λ entry. pointwise nat_eq entry.name name.now) self.now }
    {
        let entries = self.as_slice();
        match search(entries, name.as_slice()) {
            Ok(place) => Some(&entries[place]),
            Err(_) => None,
        }
    }
}

/// Where entries that ascend by name have a name, or else where it would go.
fn search(entries: &[DirectoryEntry], name: &[u8]) -> Result<usize, usize>
    ensures bound { IsSearchInRange result (length entries.now) }
    ensures place { IsBinarySearchResult (λ entry. slice_cmp nat_cmp entry.name name.now) entries.now result }
{
    entries.binary_search_by(|entry| entry.name.as_slice().cmp(name))
}
