ghost use Rattle.std.specs.Prelude.{◌≡◌, ℕ, List, Ok, Some};
ghost use Rattle.std.specs.List.{join_with_byte};
ghost use Rattle.history_check.specs.declared.told.Told.{Told};
ghost use Rattle.script.specs.Spelling.{IsWide};
ghost use Rattle.text_lines.specs.Spelling.{IsTold, told_words};
ghost use Rattle.text_lines.specs.Telling.{told_in};

/// What a line can tell has a line: written with one space between each two of its words it is read back
/// as the same. A start has one in each step.
pub fn each_telling_has_its_line()
    ensures { (step : ℕ) (told : Told) → IsWide step → IsTold told → told_in (join_with_byte 32 (told_words step told)) ≡ Ok (Some told) }
{}

/// What a line tells is within the limits of its places.
pub fn what_is_told_is_within_limits()
    ensures { (line : List ℕ) (told : Told) → told_in line ≡ Ok (Some told) → IsTold told }
{}
