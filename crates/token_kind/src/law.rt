ghost use Rattle.std.specs.Prelude.{◌≡◌, ℕ, List};
ghost use Rattle.token_kind.specs.Flush.{IsFlushed};

/// A flush turns what is kept into one contents.
pub fn one_flushed()
    ensures { (kept : List ℕ) (size cut : ℕ) (pieces : List (ℕ × List ℕ)) (a b : List ℕ) → IsFlushed kept size cut pieces a → IsFlushed kept size cut pieces b → a ≡ b }
{}
