ghost use Rattle.std.specs.Prelude.{◌≡◌, ◌<◌, ◌^◌, ◌↔◌, ◌∷◌, ◌++◌, ℕ, List, Ok, length, IsErr, IfOk, IsOkAnd, OnErr};
ghost use Rattle.cal_fields.specs.BigEndian.{big_endian};

use crate::short::Short;
use byteorder::{BigEndian, ByteOrder};

/// Takes `count` bytes from the front.
pub fn take_bytes<'a>(from: &mut &'a [u8], count: usize) -> Result<&'a [u8], Short>
    ensures taken { IfOk result (λ bytes. from.old.now ≡ bytes.now ++ from.new.now) }
    ensures count { IfOk result (λ bytes. length bytes.now ≡ count) }
    ensures short { IsErr result ↔ (length from.old.now < count) }
    ensures err { OnErr result (from.new.now ≡ from.old.now) }
    ensures again { (bytes rest : List ℕ) → length bytes ≡ count → from.old.now ≡ bytes ++ rest
        → IsOkAnd result (λ taken. taken.now ≡ bytes) × (from.new.now ≡ rest) }
{
    let bytes = *from;
    if bytes.len() < count {
        return Err(Short);
    }
    *from = &bytes[count..];
    Ok(&bytes[..count])
}

/// Takes one byte from the front.
pub fn take_u8(from: &mut &[u8]) -> Result<u8, Short>
    ensures taken { IfOk result (λ number. from.old.now ≡ number ∷ from.new.now) }
    ensures short { IsErr result ↔ (length from.old.now < 1) }
    ensures err { OnErr result (from.new.now ≡ from.old.now) }
    ensures again { (number : ℕ) (rest : List ℕ) → from.old.now ≡ number ∷ rest
        → (result ≡ Ok number) × (from.new.now ≡ rest) }
{
    let bytes = *from;
    if bytes.len() < 1 {
        return Err(Short);
    }
    *from = &bytes[1..];
    Ok(bytes[0])
}

/// Takes a number of two bytes from the front.
pub fn take_u16(from: &mut &[u8]) -> Result<u16, Short>
    ensures taken { IfOk result (λ number. from.old.now ≡ big_endian 2 number ++ from.new.now) }
    ensures short { IsErr result ↔ (length from.old.now < 2) }
    ensures err { OnErr result (from.new.now ≡ from.old.now) }
    ensures again { (number : ℕ) (rest : List ℕ) → number < 2 ^ 16 → from.old.now ≡ big_endian 2 number ++ rest
        → (result ≡ Ok number) × (from.new.now ≡ rest) }
{
    Ok(number_u16(take_bytes(from, 2)?))
}

/// Takes a number of four bytes from the front.
pub fn take_u32(from: &mut &[u8]) -> Result<u32, Short>
    ensures taken { IfOk result (λ number. from.old.now ≡ big_endian 4 number ++ from.new.now) }
    ensures short { IsErr result ↔ (length from.old.now < 4) }
    ensures err { OnErr result (from.new.now ≡ from.old.now) }
    ensures again { (number : ℕ) (rest : List ℕ) → number < 2 ^ 32 → from.old.now ≡ big_endian 4 number ++ rest
        → (result ≡ Ok number) × (from.new.now ≡ rest) }
{
    Ok(number_u32(take_bytes(from, 4)?))
}

/// Takes a number of eight bytes from the front.
pub fn take_u64(from: &mut &[u8]) -> Result<u64, Short>
    ensures taken { IfOk result (λ number. from.old.now ≡ big_endian 8 number ++ from.new.now) }
    ensures short { IsErr result ↔ (length from.old.now < 8) }
    ensures err { OnErr result (from.new.now ≡ from.old.now) }
    ensures again { (number : ℕ) (rest : List ℕ) → number < 2 ^ 64 → from.old.now ≡ big_endian 8 number ++ rest
        → (result ≡ Ok number) × (from.new.now ≡ rest) }
{
    Ok(number_u64(take_bytes(from, 8)?))
}

/// The number that two bytes spell.
fn number_u16(bytes: &[u8]) -> u16
    requires { length bytes.now ≡ 2 }
    ensures { bytes.now ≡ big_endian 2 result }
{
    BigEndian::read_u16(bytes)
}

/// The number that four bytes spell.
fn number_u32(bytes: &[u8]) -> u32
    requires { length bytes.now ≡ 4 }
    ensures { bytes.now ≡ big_endian 4 result }
{
    BigEndian::read_u32(bytes)
}

/// The number that eight bytes spell.
fn number_u64(bytes: &[u8]) -> u64
    requires { length bytes.now ≡ 8 }
    ensures { bytes.now ≡ big_endian 8 result }
{
    BigEndian::read_u64(bytes)
}
