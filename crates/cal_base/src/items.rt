ghost use Rattle.std.specs.Prelude.{◌≡◌, ◌++◌, ◌∷◌, [], ◌==◌, length, OnOk, OnErr};

use crate::directory_entry::DirectoryEntry;
use crate::oom::Oom;
use std::alloc::Global;
use std::cmp::Ordering;
use std::marker::Model;

/// A list of values, which contracts see as a list.
#[derive(Clone, Debug, Drop)]
pub struct Items<T> {
    items: Vec<T>,
}

/// Bytes.
pub type Blob = Items<u8>;

/// Names.
pub type NameList = Items<Blob>;

/// Entries of a directory.
pub type EntryList = Items<DirectoryEntry>;

impl<T> Model for Items<T> {
    ghost use Rattle.std.specs.Prelude.{List};
    ghost use Rattle.std.specs.Coded.{coded_list};

    ghost Value = { List T };

    ghost coded = { coded_list T.code };

    ghost view = { λ it. it.items.items };
}

impl<T: PartialEq> PartialEq for Items<T> {
    ghost use Rattle.std.specs.Cmp.Lexicographic.{pointwise, lists_per};

    ghost eq = { λ a b. pointwise T.eq a b };

    ghost laws = { lists_per T.laws };

    fn eq(&self, other: &Items<T>) -> bool {
        self.items == other.items
    }
}

impl<T: Eq> Eq for Items<T> {
    ghost use Rattle.std.specs.Cmp.Lexicographic.{lists_equiv};

    ghost laws = { lists_equiv T.Eq.laws };
}

impl<T: PartialOrd> PartialOrd for Items<T> {
    ghost use Rattle.std.specs.Cmp.Lexicographic.{slice_partial_cmp, lists_po};

    ghost partial_cmp = { λ a b. slice_partial_cmp T.partial_cmp a b };

    ghost laws = { lists_po T.PartialOrd.laws };

    fn partial_cmp(&self, other: &Items<T>) -> Option<Ordering> {
        self.items.partial_cmp(&other.items)
    }
}

impl<T: Ord> Ord for Items<T> {
    ghost use Rattle.std.specs.Cmp.Lexicographic.{slice_cmp, lists_total, lists_agrees, lists_ties};

    ghost cmp = { λ a b. slice_cmp T.cmp a b };

    ghost total = { lists_total T.total };

    ghost matches_partial_cmp = { λ a b. lists_agrees T.matches_partial_cmp a b };

    ghost matches_eq = { λ a b. lists_ties T.cmp T.matches_eq a b };

    fn cmp(&self, other: &Items<T>) -> Ordering {
        self.items.cmp(&other.items)
    }
}

impl<T> Items<T> {
    /// No items. It takes no memory.
    pub fn new(alloc: Global) -> Items<T>
        ensures { result ≡ [] }
    {
        Items {
            items: Vec::new(alloc),
        }
    }

    /// The items of a `Vec`, which are moved and not copied.
    pub fn from_vec(items: Vec<T>) -> Items<T>
        ensures { result ≡ items.items }
    {
        Items { items }
    }

    /// The items as a `Vec`, moved and not copied.
    pub fn into_vec(self) -> Vec<T>
        ensures { result.items ≡ self }
    {
        let Items { items } = self;
        items
    }

    /// The items as a slice.
    pub fn as_slice(&self) -> &[T]
        ensures { result.now ≡ self.now }
    {
        self.items.as_slice()
    }

    /// The count of items.
    pub fn len(&self) -> usize
        ensures { result ≡ length self.now }
    {
        self.items.len()
    }

    /// Whether there is no item.
    pub fn is_empty(&self) -> bool
        ensures { result ≡ (length self.now == 0) }
    {
        self.items.is_empty()
    }

    /// Puts an item at the end. After want of memory the list is as it was.
    pub fn push(&mut self, item: T) -> Result<(), Oom>
    where
        T: Drop,
        ensures ok { OnOk result (self.new ≡ self.old ++ item ∷ []) }
        ensures err { OnErr result (self.new ≡ self.old) }
    {
        self.items.push(item)?;
        Ok(())
    }
}
