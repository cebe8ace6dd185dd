ghost use Rattle.std.specs.Prelude.{◌≡◌, ◌==◌, IfOk, OnOk, OnErr};
ghost use Rattle.std.specs.List.{list_any};
ghost use Rattle.std.specs.FinMap as map;

use crate::path::copy_name;
use cal_base::{Blob, Ino, NameList, Oom};
use std::alloc::Global;
use std::collections::BTreeMap;
use std::marker::Model;

/// The names of a directory, each with the inode that it names. Contracts see a finite map.
#[derive(Debug, Drop)]
pub struct Directory {
    entries: BTreeMap<Blob, Ino>,
}

impl Model for Directory {
    ghost use Rattle.std.specs.FinMap as map;
    ghost use Rattle.std.specs.Prelude.{T};
    ghost use Rattle.std.specs.Ordering.{nat_cmp};
    ghost use Rattle.std.specs.Cmp.Lexicographic.{slice_cmp};
    ghost use Rattle.std.specs.Coded.{coded_list, coded_ℕ};
    ghost use Rattle.tree_law.specs.Names.{Names, names_code};

    ghost Value = { Names };

    ghost coded = { names_code };

    ghost view = { λ directory. map.from_sorted directory.entries.entries };

    ghost invariant = { λ directory. T (map.is_sorted (slice_cmp nat_cmp) directory.entries.entries) };
}

impl Directory {
    /// A directory without names. It takes no memory.
    pub fn new(alloc: Global) -> Directory
        ensures { result ≡ map.empty }
    {
        Directory {
            entries: BTreeMap::new(alloc),
        }
    }

    /// The count of names.
    pub fn len(&self) -> usize
        ensures { result ≡ map.len self.now }
    {
        self.entries.len()
    }

    /// The inode of a name, if the name stands.
    pub fn get(&self, name: &Blob) -> Option<Ino>
        ensures { result ≡ map.get self.now name.now }
    {
        self.entries.get(name).copied()
    }

    /// Puts a name, or gives one that stands another inode. After want of memory all is as it was.
    pub fn insert(&mut self, name: Blob, ino: Ino) -> Result<(), Oom>
        ensures ok { OnOk result (self.new ≡ map.insert self.old name ino) }
        ensures err { OnErr result (self.new ≡ self.old) }
    {
        self.entries.insert(name, ino)?;
        Ok(())
    }

    /// Takes a name away, if it stands.
    pub fn remove(&mut self, name: &Blob)
        ensures { self.new ≡ map.remove self.old name.now }
    {
        self.entries.remove(name);
    }

    /// Whether a name stands for this inode.
    pub fn names_inode(&self, ino: u32) -> bool
        ensures { result ≡ list_any (λ named. named.0 == ino) (map.values self.now) }
    {
        let mut found = false;
        for named in self.entries.values() {
            if named.0 == ino {
                found = true;
            }
        }
        found
    }

    /// Its names, sorted by their bytes.
    pub fn names(&self, alloc: Global) -> Result<NameList, Oom>
        ensures { IfOk result (λ names. names ≡ map.keys self.now) }
    {
        let mut names = NameList::new(alloc);
        for name in self.entries.keys() {
            names.push(copy_name(alloc, name.as_slice())?)?;
        }
        Ok(names)
    }
}
