ghost use Rattle.std.specs.Prelude.{◌≡◌, ◌<◌, ℕ, Bool, true, false, Some, List, count_by, length, replicate, slice_get, slice_set, IfSome, IfNone, IfOk, IsOkAnd};
ghost use Rattle.std.specs.List.{position};
ghost use Rattle.cal_base.specs.Limits as limits;
ghost use Rattle.space_map.specs.SpaceMap.{IsLeastFree, SpellsMap};

use crate::bits::{
    count_free, first_open_byte, first_open_word, give_block, least_block, take_block, use_block,
};
use cal_base::{MAP_SIZE, Sector};
use cal_fields::{SectorFields, padded_front};
use std::marker::Model;

/// A sector spells no block map.
#[derive(Clone, Copy, Debug, PartialEq, Eq)]
pub struct BadMap;

/// Which data blocks are free. Contracts see for each of the 2,048 blocks whether it is.
#[derive(Debug, Drop)]
pub struct SpaceMap {
    bytes: [u8; MAP_SIZE],
    /// No block is free below this word of eight bytes.
    hint: usize,
}

impl Model for SpaceMap {
    ghost use Rattle.std.specs.Prelude.{Bool, List};
    ghost use Rattle.space_map.specs.SpaceMap.{IsHint, free_blocks};

    ghost Value = { List Bool };

    ghost view = { λ it. free_blocks it.bytes };

    ghost invariant = { λ it. IsHint it.bytes it.hint };
}

impl SpaceMap {
    /// The map where all blocks are free.
    pub fn new() -> SpaceMap
        ensures { result ≡ replicate limits.blocks true }
    {
        SpaceMap {
            bytes: [0; MAP_SIZE],
            hint: 0,
        }
    }

    /// The same map once more.
    pub fn copy(&self) -> SpaceMap
        ensures { result ≡ self.now }
    {
        SpaceMap {
            bytes: self.bytes,
            hint: self.hint,
        }
    }

    /// The map that a sector spells: bit `b % 8`, the least significant first, of byte `b / 8` is 1
    /// where block `b` is in use, and all behind the 256 bytes is zero. `BadMap` exactly where it
    /// isn't.
    pub fn read(sector: &Sector) -> Result<SpaceMap, BadMap>
        ensures found { IfOk result (λ map. SpellsMap sector.now map) }
        ensures again { (free : List Bool) → SpellsMap sector.now free → IsOkAnd result (λ map. map ≡ free) }
    {
        let Some(front) = padded_front(sector, MAP_SIZE) else {
            return Err(BadMap);
        };
        let mut bytes = [0; MAP_SIZE];
        bytes.copy_from_slice(front);
        Ok(SpaceMap { bytes, hint: 0 })
    }

    /// Writes the one sector that spells the map.
    pub fn write(&self, into: &mut Sector)
        ensures { SpellsMap into.new self.now }
    {
        let mut fields = SectorFields::new();
        fields.put_bytes(&self.bytes);
        fields.finish(into);
    }

    /// How many of the 2,048 blocks are free.
    pub fn free(&self) -> u16
        ensures free { result ≡ count_by (λ free. free) self.now }
        ensures blocks { length self.now ≡ limits.blocks }
    {
        count_free(&self.bytes)
    }

    /// The least free block; `None` exactly where no block is free.
    pub fn least(&self) -> Option<u16>
        ensures { result ≡ position (λ free. free) self.now }
    {
        let hint = first_open_word(&self.bytes, self.hint);
        let at = first_open_byte(&self.bytes, 8 * hint);
        if at == MAP_SIZE {
            return None;
        }
        Some(least_block(&self.bytes, at) as u16)
    }

    /// Takes the least free block; `None` exactly where no block is free.
    pub fn take_least(&mut self) -> Option<u16>
        ensures least { IfSome result (λ block. IsLeastFree self.old block) }
        ensures taken { IfSome result (λ block. self.new ≡ slice_set self.old block false) }
        ensures none { IfNone result ((block : ℕ) → block < limits.blocks → slice_get self.old block ≡ Some false) }
        ensures unchanged { IfNone result (self.new ≡ self.old) }
    {
        let hint = first_open_word(&self.bytes, self.hint);
        self.hint = hint;
        let at = first_open_byte(&self.bytes, 8 * hint);
        if at == MAP_SIZE {
            return None;
        }
        Some(take_block(&mut self.bytes, at) as u16)
    }

    /// Frees a block, which is below 2,048.
    pub fn give(&mut self, block: u16)
        requires { block < limits.blocks }
        ensures { self.new ≡ slice_set self.old block true }
    {
        give_block(&mut self.bytes, block as usize);
        self.hint = self.hint.min(block as usize / 64);
    }

    /// Takes a block, which is below 2,048.
    pub fn take(&mut self, block: u16)
        requires { block < limits.blocks }
        ensures { self.new ≡ slice_set self.old block false }
    {
        use_block(&mut self.bytes, block as usize);
        let word = block as usize / 64;
        self.hint = self.hint.min(word);
    }
}
