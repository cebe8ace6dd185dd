ghost use Rattle.std.specs.Prelude.{◌≡◌, ◌≢◌, ◌==◌, ℕ, List, IfOk, IsErrOf, IsTrue, ◌↔◌, ◌<◌, ◌∷◌, length, MatchOption};
ghost use Rattle.std.specs.List.{list_all};
ghost use Rattle.tree_law.specs.Entries.{is_before};
ghost use Rattle.tree_law.specs.NameTest.{is_name, is_name_byte};
ghost use Rattle.tree_law.specs.Path.{IsPath, IsName, path_text, IsNoPathText};
ghost use Rattle.tree_law.specs.declared.path.ReadPathError.TheVariants.{OutOfMemory};

use cal_base::{Blob, NAME_BYTES, NameList, Oom, PATH_NAMES, cut_at};
use std::alloc::{AllocError, AllocFailed, Global};
use std::cmp::Ordering;
use std::marker::Model;

/// A path: `/`, or 1 to 16 names, each of 1 to 27 graphic ASCII bytes without `/`, and neither `.`
/// nor `..`. Contracts see the list of its names.
#[derive(Clone, Debug, Drop)]
pub struct Path {
    names: NameList,
}

impl Model for Path {
    ghost use Rattle.std.specs.Prelude.{List, ℕ};
    ghost use Rattle.tree_law.specs.Path.{IsPath};

    ghost Value = { List (List ℕ) };

    ghost view = { λ path. path.names };

    ghost invariant = { λ path. IsPath path.names };
}

impl PartialEq for Path {
    ghost use Rattle.std.specs.Prelude.{nat_eq};
    ghost use Rattle.std.specs.Cmp.{partial_equiv_from_equiv};
    ghost use Rattle.std.specs.Cmp.Lexicographic.{pointwise, lists_equiv, nat_list_eq_equiv};

    ghost eq = { λ a b. pointwise (pointwise nat_eq) a b };

    ghost laws = { partial_equiv_from_equiv (lists_equiv nat_list_eq_equiv) };

    fn eq(&self, other: &Path) -> bool {
        self.names == other.names
    }
}

impl Eq for Path {
    ghost use Rattle.std.specs.Cmp.Lexicographic.{lists_equiv, nat_list_eq_equiv};

    ghost laws = { lists_equiv nat_list_eq_equiv };
}

impl Path {
    /// The names of the path, from the root down; none for the root itself.
    pub fn names(&self) -> &[Blob]
        ensures names { result.now ≡ self.now }
        ensures path { IsPath self.now }
    {
        self.names.as_slice()
    }
}

/// Why a text was not read as a path.
#[derive(Clone, Copy, Debug, PartialEq, Eq)]
pub enum ReadPathError {
    /// It is no path.
    BadPath,
    OutOfMemory,
}

impl From<Oom> for ReadPathError {
    ghost from_gives = { λ _ e. e ≡ OutOfMemory };

    fn from(_error: Oom) -> ReadPathError {
        ReadPathError::OutOfMemory
    }
}

impl From<AllocError> for ReadPathError {
    ghost from_gives = { λ _ e. e ≡ OutOfMemory };

    fn from(_error: AllocError) -> ReadPathError {
        ReadPathError::OutOfMemory
    }
}

/// Whether these bytes are a name: 1 to 27 graphic ASCII bytes without `/`, and neither `.` nor `..`.
pub fn is_name(bytes: &[u8]) -> bool
    ensures name { IsTrue result ↔ IsName bytes.now }
    ensures test { result ≡ is_name bytes.now }
{
    name_test(bytes)
}

#[tactic(auto, unfolding(crate::specs::NameTest::is_name))]
fn name_test(bytes: &[u8]) -> bool
    ensures { result ≡ is_name bytes.now }
{
    1 <= bytes.len()
        && bytes.len() <= NAME_BYTES
        && are_name_bytes(bytes)
        && bytes != b".".as_slice()
        && bytes != b"..".as_slice()
}

fn are_name_bytes(bytes: &[u8]) -> bool
    ensures { result ≡ list_all is_name_byte bytes.now }
{
    bytes
        .iter()
        .all(|byte| 33 <= *byte && *byte <= 126 && *byte != 47)
}

/// Whether the first name stands before the second in the order of a directory's entries: the first
/// byte in which they differ is lower, or it ends first.
#[tactic(auto, unfolding(crate::specs::Entries::is_before))]
pub fn is_before(a: &[u8], b: &[u8]) -> bool
    ensures { result ≡ is_before a.now b.now }
{
    match a.cmp(b) {
        Ordering::Less => true,
        Ordering::Equal | Ordering::Greater => false,
    }
}

/// A copy of a name's bytes.
pub(crate) fn copy_name(alloc: Global, name: &[u8]) -> Result<Blob, Oom>
    ensures { IfOk result (λ copy. copy ≡ name.now) }
{
    Ok(Blob::from_vec(Vec::from_slice(alloc, name)?))
}

/// Reads the names between the slashes of a text.
fn read_names(alloc: Global, text: &[u8]) -> Result<NameList, ReadPathError>
    requires { 0 < length text.now }
    ensures ok { IfOk result (λ names. IsPath names × (path_text names ≡ 47 ∷ text.now)) }
    ensures bad { IsErrOf result ReadPathError.BadPath → IsNoPathText (47 ∷ text.now) }
{
    let mut names = NameList::new(alloc);
    let mut rest = text;
    loop {
        let (name, after) = cut_at(rest, b'/');
        if names.len() == PATH_NAMES {
            return Err(ReadPathError::BadPath);
        }
        if !is_name(name) {
            return Err(ReadPathError::BadPath);
        }
        names.push(copy_name(alloc, name)?)?;
        match after {
            Some(after) => rest = after,
            None => return Ok(names),
        }
    }
}

/// The text behind its first slash, if it begins with one.
fn behind_slash(text: &[u8]) -> Option<&[u8]>
    ensures { MatchOption result ((rest : List ℕ) → text.now ≢ 47 ∷ rest) (λ rest. text.now ≡ 47 ∷ rest.now) }
{
    match text {
        [b'/', rest @ ..] => Some(rest),
        _ => None,
    }
}

/// Reads a path as it is written: `/`, or 1 to 16 names, each after a `/`. A text that no path has is
/// `BadPath`.
pub fn read_path(alloc: Global, text: &[u8]) -> Result<Path, ReadPathError>
    ensures ok { IfOk result (λ path. IsPath path × (path_text path ≡ text.now)) }
    ensures bad { IsErrOf result ReadPathError.BadPath → IsNoPathText text.now }
{
    let Some(rest) = behind_slash(text) else {
        return Err(ReadPathError::BadPath);
    };
    if rest.is_empty() {
        let names = NameList::new(alloc);
        return Ok(Path { names });
    }
    let names = read_names(alloc, rest)?;
    Ok(Path { names })
}
