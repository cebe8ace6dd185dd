ghost use Rattle.std.specs.Prelude.{◌≡◌, ◌+◌, ◌≤◌, ◌∷◌, [], ◌++◌, ℕ, List, length};
ghost use Rattle.cal_base.specs.Limits.{block_size};
ghost use Rattle.cal_fields.specs.BigEndian.{big_endian};
ghost use Rattle.cal_fields.specs.Padded.{padded, zeros};

use crate::put::{bytes_of_u16, bytes_of_u32, bytes_of_u64};
use cal_base::{BLOCK_SIZE, Sector};
use std::marker::Model;

/// A sector that is filled from its first byte on. The bytes behind those filled are zero.
#[derive(Drop)]
pub struct SectorFields {
    bytes: Sector,
    filled: usize,
}

impl Model for SectorFields {
    ghost use Rattle.std.specs.Prelude.{ℕ, List, take};
    ghost use Rattle.cal_fields.specs.Filled.{IsFilled};

    ghost Value = { List ℕ };

    ghost view = { λ it. take it.filled it.bytes };

    ghost invariant = { λ it. IsFilled it.bytes it.filled };
}

#[tactic(auto, using(crate::proofs::PaddedLemmas::lengths))]
impl SectorFields {
    /// A sector of which nothing is filled.
    pub fn new() -> SectorFields
        ensures { result ≡ [] }
    {
        let bytes = zero_sector();
        SectorFields { bytes, filled: 0 }
    }

    /// Fills the next bytes.
    pub fn put_bytes(&mut self, bytes: &[u8])
        requires { length self.old + length bytes.now ≤ block_size }
        ensures fields { self.new ≡ self.old ++ bytes.now }
        ensures length { length self.new ≡ length self.old + length bytes.now }
    {
        fill(&mut self.bytes, self.filled, bytes);
        self.filled += bytes.len();
    }

    /// Fills one byte.
    pub fn put_u8(&mut self, number: u8)
        requires { length self.old + 1 ≤ block_size }
        ensures fields { self.new ≡ self.old ++ number ∷ [] }
        ensures length { length self.new ≡ length self.old + 1 }
    {
        self.put_bytes(&[number]);
    }

    /// Fills two bytes with a number.
    pub fn put_u16(&mut self, number: u16)
        requires { length self.old + 2 ≤ block_size }
        ensures fields { self.new ≡ self.old ++ big_endian 2 number }
        ensures length { length self.new ≡ length self.old + 2 }
    {
        self.put_bytes(&bytes_of_u16(number));
    }

    /// Fills four bytes with a number.
    pub fn put_u32(&mut self, number: u32)
        requires { length self.old + 4 ≤ block_size }
        ensures fields { self.new ≡ self.old ++ big_endian 4 number }
        ensures length { length self.new ≡ length self.old + 4 }
    {
        self.put_bytes(&bytes_of_u32(number));
    }

    /// Fills eight bytes with a number.
    pub fn put_u64(&mut self, number: u64)
        requires { length self.old + 8 ≤ block_size }
        ensures fields { self.new ≡ self.old ++ big_endian 8 number }
        ensures length { length self.new ≡ length self.old + 8 }
    {
        self.put_bytes(&bytes_of_u64(number));
    }

    /// Leaves the next bytes zero.
    pub fn put_zeros(&mut self, count: usize)
        requires { length self.old + count ≤ block_size }
        ensures fields { self.new ≡ self.old ++ zeros count }
        ensures length { length self.new ≡ length self.old + count }
    {
        self.filled += count;
    }

    /// Writes the sector: the bytes filled, and zeros behind them.
    pub fn finish(self, into: &mut Sector)
        ensures { into.new ≡ padded block_size self }
    {
        let bytes = self.bytes;
        *into = bytes;
    }
}

/// A sector of zeros.
fn zero_sector() -> Sector
    ensures { result ≡ padded block_size [] }
{
    [0; BLOCK_SIZE]
}

/// Copies bytes to a place of the sector, behind which zeros stand.
fn fill(sector: &mut Sector, at: usize, bytes: &[u8])
    requires { at + length bytes.now ≤ block_size }
    ensures { (front : List ℕ) → length front ≡ at → sector.old ≡ padded block_size front
        → sector.new ≡ padded block_size (front ++ bytes.now) }
{
    sector[at..at + bytes.len()].copy_from_slice(bytes);
}
