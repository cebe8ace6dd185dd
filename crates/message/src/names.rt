ghost use Rattle.std.specs.Prelude.{◌≡◌, ◌&&◌, [], ℕ, List, IfOk};
ghost use Rattle.std.specs.List.{list_all};
ghost use Rattle.tree_law.specs.Path.{IsPath, path_text, slashed};
ghost use Rattle.message.specs.Decoding.{Reads, ReadsAs};
ghost use Rattle.message.specs.Reading.{alike_at, many_at};
ghost use Rattle.message.specs.Names.{entries_at, entry_at, name_at, name_by, path_at};
ghost use Rattle.tree_law.specs.Entries.{is_before};
ghost use Rattle.tree_law.specs.NameTest.{is_name};

use crate::input::Input;
use crate::stop::Stop;
use cal_base::{Blob, DirectoryEntry, EntryList, NameList, Oom};
use std::alloc::Global;
use tree_law::{Path, ReadPathError, is_before, is_name, read_path};

impl<'a> Input<'a> {
    /// A name, of 1 to 27 bytes.
    #[tactic(auto, unfolding(crate::specs::Names::name_by))]
    fn name(&mut self) -> Result<&'a [u8], Stop>
        ensures { ReadsAs (λ name. name.now) result self.new.rest.now (name_at self.old.rest.now) }
    {
        let count = self.count_from_one(27)?;
        let left = self.rest.len();
        let name = self.bytes(count as usize)?;
        if is_name(name) {
            Ok(name)
        } else {
            Err(Stop::Outside { left })
        }
    }

    /// A name that stands behind another one.
    #[tactic(auto, unfolding(crate::specs::Names::name_by))]
    fn next_name(&mut self, before: &[u8]) -> Result<&'a [u8], Stop>
        ensures { ReadsAs (λ name. name.now) result self.new.rest.now (name_by (λ name. is_name name && is_before before.now name) self.old.rest.now) }
    {
        let count = self.count_from_one(27)?;
        let left = self.rest.len();
        let name = self.bytes(count as usize)?;
        if is_name(name) && is_before(before, name) {
            Ok(name)
        } else {
            Err(Stop::Outside { left })
        }
    }

    /// An entry of a directory, the name of which stands behind another one.
    #[tactic(auto, unfolding(crate::specs::Names::entry_at))]
    fn entry(&mut self, alloc: Global, before: &[u8]) -> Result<(DirectoryEntry, &'a [u8]), Stop>
        ensures entry { ReadsAs (λ found. found.0) result self.new.rest.now (entry_at before.now self.old.rest.now) }
        ensures name { IfOk result (λ found. found.1.now ≡ found.0.name) }
    {
        let name = self.next_name(before)?;
        let ino = self.inode()?;
        let kind = self.entry_kind()?;
        let entry = DirectoryEntry {
            name: copy_of(alloc, name)?,
            ino,
            kind,
        };
        Ok((entry, name))
    }
}

/// A copy of some bytes.
pub(crate) fn copy_of(alloc: Global, name: &[u8]) -> Result<Blob, Oom>
    ensures { IfOk result (λ copy. copy ≡ name.now) }
{
    Ok(Blob::from_vec(Vec::from_slice(alloc, name)?))
}

impl<'a> Input<'a> {
    fn owned_name(&mut self, alloc: Global) -> Result<Blob, Stop>
        ensures { Reads result self.new.rest.now (name_at self.old.rest.now) }
    {
        Ok(copy_of(alloc, self.name()?)?)
    }

    /// So many names.
    fn names(&mut self, alloc: Global, count: u8) -> Result<NameList, Stop>
        ensures { Reads result self.new.rest.now (alike_at name_at count self.old.rest.now) }
    {
        let mut names = NameList::new(alloc);
        for place in 0..count {
            let name = self.owned_name(alloc)?;
            names.push(name)?;
        }
        Ok(names)
    }

    /// So many entries, sorted by name.
    fn sorted_entries(&mut self, alloc: Global, count: u16) -> Result<EntryList, Stop>
        ensures { Reads result self.new.rest.now (many_at entry_at (λ entry. entry.name) count [] self.old.rest.now) }
    {
        let mut entries = EntryList::new(alloc);
        let mut before = b"".as_slice();
        for place in 0..count {
            let (entry, name) = self.entry(alloc, before)?;
            before = name;
            entries.push(entry)?;
        }
        Ok(entries)
    }

    /// The entries of a directory, sorted by name.
    #[tactic(auto, unfolding(crate::specs::Names::entries_at))]
    pub(crate) fn entries(&mut self, alloc: Global) -> Result<EntryList, Stop>
        ensures { Reads result self.new.rest.now (entries_at self.old.rest.now) }
    {
        let count = self.u16()?;
        self.sorted_entries(alloc, count)
    }

    /// The names of a path.
    #[tactic(auto, unfolding(crate::specs::Names::path_at))]
    fn path_names(&mut self, alloc: Global) -> Result<NameList, Stop>
        ensures { Reads result self.new.rest.now (path_at self.old.rest.now) }
    {
        let count = self.count(16)?;
        self.names(alloc, count)
    }

    /// A path of up to 16 names.
    pub(crate) fn path(&mut self, alloc: Global) -> Result<Path, Stop>
        ensures { Reads result self.new.rest.now (path_at self.old.rest.now) }
    {
        let names = self.path_names(alloc)?;
        Ok(path_of(alloc, names.as_slice())?)
    }
}

/// Names, each after a slash.
fn slashed(alloc: Global, names: &[Blob]) -> Result<Vec<u8>, Oom>
    ensures { IfOk result (λ text. text.items ≡ slashed names.now) }
{
    let mut text = Vec::new(alloc);
    for name in names {
        text.push(b'/')?;
        text.extend_from_slice(name.as_slice())?;
    }
    Ok(text)
}

/// The text of a path.
fn text_of(alloc: Global, names: &[Blob]) -> Result<Vec<u8>, Oom>
    ensures { IfOk result (λ text. text.items ≡ path_text names.now) }
{
    if names.is_empty() {
        return Ok(Vec::from_slice(alloc, b"/".as_slice())?);
    }
    slashed(alloc, names)
}

/// The path of these names.
fn path_of(alloc: Global, names: &[Blob]) -> Result<Path, Oom>
    requires { IsPath names.now }
    ensures { IfOk result (λ path. path ≡ names.now) }
{
    let text = text_of(alloc, names)?;
    match read_path(alloc, text.as_slice()) {
        Ok(path) => Ok(path),
        Err(ReadPathError::OutOfMemory) => Err(Oom),
        Err(ReadPathError::BadPath) => unreachable!(),
    }
}
