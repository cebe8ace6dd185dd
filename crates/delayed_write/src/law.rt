ghost use Rattle.std.specs.Prelude.{◌≡◌, ◌≤◌, ◌+◌, ◌↔◌, ◌⊎◌, ℕ, List, Bool, true, length};
ghost use Rattle.cal_base.specs.Limits.{file_blocks, file_size};
ghost use Rattle.delayed_write.specs.Marks.{BeginsBefore, HoldsEnd, HoldsWritten, is_marked, marked_by_shrink, marked_by_write};

/// Which blocks are marked. After a write these are exactly those that were, and those in which a byte
/// of the write lies. After a truncate that shrinks they are exactly those that were and begin before
/// the new end, and the one within which the new end lies.
pub fn marks_are_exact()
    ensures write { (marks : List Bool) (offset count index : ℕ) → length marks ≡ file_blocks → offset + count ≤ file_size → (is_marked (marked_by_write marks offset count) index ≡ true) ↔ ((is_marked marks index ≡ true) ⊎ HoldsWritten offset count index) }
    ensures shrink { (marks : List Bool) (size index : ℕ) → length marks ≡ file_blocks → size ≤ file_size → (is_marked (marked_by_shrink marks size) index ≡ true) ↔ (((is_marked marks index ≡ true) × BeginsBefore size index) ⊎ HoldsEnd size index) }
{}
