ghost use Rattle.std.specs.Prelude.{◌≡◌, ◌≤◌, length, take};
ghost use Rattle.cal_base.specs.Limits.{name_bytes};

use cal_base::{Ino, NAME_BYTES};
use std::marker::Model;

/// The name of a directory's entry, of at most 27 bytes. Contracts see its bytes.
#[derive(Debug, Drop)]
pub struct EntryName {
    bytes: [u8; NAME_BYTES],
    len: usize,
}

impl Model for EntryName {
    ghost use Rattle.std.specs.Prelude.{◌≤◌, ℕ, List, take};
    ghost use Rattle.cal_base.specs.Limits.{name_bytes};

    ghost Value = { List ℕ };

    ghost view = { λ name. take name.len name.bytes };

    ghost invariant = { λ name. name.len ≤ name_bytes };
}

impl EntryName {
    /// The name of these bytes, at most 27.
    pub fn new(bytes: &[u8]) -> EntryName
        requires { length bytes.now ≤ name_bytes }
        ensures { result ≡ bytes.now }
    {
        let mut name = [0; NAME_BYTES];
        copy_front(bytes, &mut name);
        EntryName {
            bytes: name,
            len: bytes.len(),
        }
    }

    /// Its bytes.
    pub fn as_slice(&self) -> &[u8]
        ensures bytes { result.now ≡ self.now }
        ensures length { length result.now ≤ name_bytes }
    {
        &self.bytes[..self.len]
    }
}

/// Copies bytes to the front of others.
fn copy_front(bytes: &[u8], into: &mut [u8])
    requires { length bytes.now ≤ length into.old }
    ensures { take (length bytes.now) into.new ≡ bytes.now }
{
    into[..bytes.len()].copy_from_slice(bytes);
}

/// An entry of a directory.
#[derive(Debug, Drop)]
pub struct DirEntry {
    /// Its name, which is one of the path grammar.
    pub name: EntryName,
    /// The inode that it names, 1 to 511.
    pub ino: Ino,
}

impl DirEntry {
    /// The same entry once more.
    pub(crate) fn copied(&self) -> DirEntry
        requires { length self.now.name ≤ name_bytes }
        ensures { result ≡ self.now }
    {
        DirEntry {
            name: EntryName::new(self.name.as_slice()),
            ino: self.ino,
        }
    }
}
