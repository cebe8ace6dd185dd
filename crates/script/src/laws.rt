ghost use Rattle.std.specs.Prelude.{◌≡◌, ◌≤◌, ◌∷◌, [], ℕ, List, Ok, codes, decimal};
ghost use Rattle.cal_base.specs.Limits as limits;
ghost use Rattle.tree_law.specs.declared.call.Call.{Call};
ghost use Rattle.script.specs.CallLine.{call_said};
ghost use Rattle.script.specs.CommandLine.{first_said, words_said};
ghost use Rattle.script.specs.Lines.{NumberedLine};
ghost use Rattle.script.specs.Reasons.{line_said};
ghost use Rattle.script.specs.Spelling.{IsCall, IsLine, IsSaid, call_words, line_words};
ghost use Rattle.script.specs.declared.script.Line.{Line};
ghost use Rattle.script.specs.declared.script.Said.{Said};
ghost use Rattle.script.specs.declared.script.Said.TheVariants.{Clients, Window, Line as Does};

/// Each call, each line, each count of clients and each window has its words: written so and read back
/// it is the same.
pub fn each_line_has_its_words()
    ensures call { (call : Call) → IsCall call → call_said (call_words call) ≡ Ok call }
    ensures line { (number : ℕ) (line : Line) → IsLine line → words_said number (line_words line) ≡ Ok (Does line) }
    ensures clients { (count : ℕ) → 1 ≤ count → count ≤ limits.clients → first_said (codes "clients" ∷ decimal count ∷ []) ≡ Ok (Clients count) }
    ensures window { (window : ℕ) → 1 ≤ window → window ≤ limits.window → words_said 2 (codes "window" ∷ decimal window ∷ []) ≡ Ok (Window window) }
{}

/// What is read of a call or of a line can be written: it is within the limits of its places.
pub fn what_is_read_has_words()
    ensures call { (words : List (List ℕ)) (call : Call) → call_said words ≡ Ok call → IsCall call }
    ensures line { (line : NumberedLine) (said : Said) → line_said line ≡ Ok said → IsSaid said }
{}
