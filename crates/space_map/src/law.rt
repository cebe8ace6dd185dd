ghost use Rattle.std.specs.Prelude.{◌≡◌, ◌<◌, ℕ, Bool, List, slice_index};
ghost use Rattle.space_map.specs.SpaceMap.{SpellsMap};

/// Two sectors that spell the same set of free blocks are the same.
pub fn one_spelling()
    ensures { (a b : List ℕ) (free : List Bool) → ((i : ℕ) → slice_index a i < 256) → ((i : ℕ) → slice_index b i < 256)
        → SpellsMap a free → SpellsMap b free → a ≡ b }
{}
