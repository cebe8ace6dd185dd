ghost use Rattle.std.specs.Prelude.{◌≡◌, ◌≢◌, ◌≤◌, ◌<◌, ◌+◌, ◌*◌, ◌^◌, ℕ, Bool, true, false, Some, List, length, slice_get, slice_set, slice_index, IsTrue, ◌↔◌, count_by};
ghost use Rattle.cal_base.specs.Limits.{map_size};
ghost use Rattle.space_map.specs.SpaceMap.{AreFull, IsLeastFree, free_bits, free_blocks, map_words};

use byteorder::{ByteOrder, LittleEndian};
use cal_base::MAP_SIZE;

/// Words of eight bytes in the map.
const MAP_WORDS: usize = 32;

/// The first word of eight bytes, from the hint on, in which a block is free; past the last word where there is none.
pub(crate) fn first_open_word(bytes: &[u8], hint: usize) -> usize
    requires size { length bytes.now ≡ map_size }
    requires within { hint ≤ map_words }
    requires full { AreFull bytes.now (8 * hint) }
    ensures within { result ≤ map_words }
    ensures later { hint ≤ result }
    ensures full { AreFull bytes.now (8 * result) }
{
    let mut word = hint;
    while word < MAP_WORDS {
        if LittleEndian::read_u64(&bytes[8 * word..]) != u64::MAX {
            return word;
        }
        word += 1;
    }
    word
}

/// The first byte, from `from` on, in which a block is free; past the last byte where there is none.
pub(crate) fn first_open_byte(bytes: &[u8], from: usize) -> usize
    requires size { length bytes.now ≡ map_size }
    requires within { from ≤ map_size }
    requires full { AreFull bytes.now from }
    ensures within { result ≤ map_size }
    ensures later { from ≤ result }
    ensures full { AreFull bytes.now result }
    ensures open { result < map_size → slice_index bytes.now result ≢ 255 }
{
    let mut at = from;
    while at < MAP_SIZE {
        if bytes[at] != 255 {
            return at;
        }
        at += 1;
    }
    at
}

/// The least free block of a byte.
fn lowest_free(byte: u8) -> usize
    requires { byte ≢ 255 }
    ensures within { result < 8 }
    ensures least { IsLeastFree (free_bits 8 byte) result }
{
    byte.trailing_ones() as usize
}

/// The least free block of the first byte in which one is free.
pub(crate) fn least_block(bytes: &[u8], at: usize) -> usize
    requires within { at < length bytes.now }
    requires few { length bytes.now ≤ map_size }
    requires full { AreFull bytes.now at }
    requires open { slice_index bytes.now at ≢ 255 }
    ensures within { result < 8 * length bytes.now }
    ensures least { IsLeastFree (free_blocks bytes.now) result }
{
    8 * at + lowest_free(bytes[at])
}

/// The byte with a block in use.
fn with_used(byte: u8, bit: usize) -> u8
    requires { bit < 8 }
    ensures { free_bits 8 result ≡ slice_set (free_bits 8 byte) bit false }
{
    byte | 1 << bit
}

/// The byte with a block free.
fn with_free(byte: u8, bit: usize) -> u8
    requires { bit < 8 }
    ensures { free_bits 8 result ≡ slice_set (free_bits 8 byte) bit true }
{
    byte & !(1 << bit)
}

/// Takes the least free block of the first byte in which one is free.
pub(crate) fn take_block(bytes: &mut [u8], at: usize) -> usize
    requires within { at < length bytes.old }
    requires few { length bytes.old ≤ map_size }
    requires full { AreFull bytes.old at }
    requires open { slice_index bytes.old at ≢ 255 }
    ensures within { result < 8 * length bytes.old }
    ensures least { IsLeastFree (free_blocks bytes.old) result }
    ensures taken { free_blocks bytes.new ≡ slice_set (free_blocks bytes.old) result false }
    ensures full { (count : ℕ) → count ≤ at → AreFull bytes.new count }
{
    let byte = bytes[at];
    let bit = lowest_free(byte);
    bytes[at] = with_used(byte, bit);
    8 * at + bit
}

/// Frees a block.
pub(crate) fn give_block(bytes: &mut [u8], block: usize)
    requires { block < 8 * length bytes.old }
    ensures given { free_blocks bytes.new ≡ slice_set (free_blocks bytes.old) block true }
    ensures full { (count : ℕ) → 8 * count ≤ block → AreFull bytes.old count → AreFull bytes.new count }
{
    let at = block / 8;
    bytes[at] = with_free(bytes[at], block % 8);
}

/// Takes a block.
pub(crate) fn use_block(bytes: &mut [u8], block: usize)
    requires { block < 8 * length bytes.old }
    ensures used { free_blocks bytes.new ≡ slice_set (free_blocks bytes.old) block false }
    ensures full { (count : ℕ) → 8 * count ≤ block → AreFull bytes.old count → AreFull bytes.new count }
{
    let at = block / 8;
    bytes[at] = with_used(bytes[at], block % 8);
}

/// How many blocks are free.
pub(crate) fn count_free(bytes: &[u8]) -> u16
    requires { length bytes.now ≤ map_size }
    ensures { result ≡ count_by (λ free. free) (free_blocks bytes.now) }
{
    let mut count: u16 = 0;
    for byte in bytes {
        count += 8 - byte.count_ones() as u16;
    }
    count
}
