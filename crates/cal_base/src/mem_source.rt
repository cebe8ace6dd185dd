ghost use Rattle.std.specs.Prelude.{◌≡◌, Some, length, min, take};

use crate::failed::Failed;
use crate::source::Source;
use std::marker::Model;

/// A source over bytes in memory. It never fails.
#[derive(Drop)]
pub struct MemSource {
    bytes: Vec<u8>,
    at: usize,
}

impl Model for MemSource {
    ghost use Rattle.std.specs.Prelude.{List, ℕ, drop, ◌≤◌, length};

    ghost Value = { List ℕ };

    ghost view = { λ source. drop source.at source.bytes.items };

    ghost invariant = { λ source. source.at ≤ length source.bytes.items };
}

impl MemSource {
    /// A source that gives these bytes.
    pub fn new(bytes: Vec<u8>) -> MemSource
        ensures { result ≡ bytes.items }
    {
        MemSource { bytes, at: 0 }
    }

    /// The bytes that are left.
    fn rest(&self) -> &[u8]
        ensures { result.now ≡ self.now }
    {
        &self.bytes[self.at..]
    }
}

/// Copies the front of `bytes` into the front of `into`, as much as there is and as has room.
fn copy_front(bytes: &[u8], into: &mut [u8]) -> usize
    ensures count { result ≡ min (length bytes.now) (length into.new) }
    ensures front { take result into.new ≡ take result bytes.now }
{
    let count = bytes.len().min(into.len());
    into[..count].copy_from_slice(&bytes[..count]);
    count
}

impl Source for MemSource {
    ghost left = { λ source. Some source };

    ghost fault_count = { λ _. 0 };

    fn read(&mut self, into: &mut [u8]) -> Result<usize, Failed> {
        let count = copy_front(self.rest(), into);
        self.at += count;
        Ok(count)
    }

    fn faults(&self) -> u64 {
        0
    }
}
