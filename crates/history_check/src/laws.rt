ghost use Rattle.std.specs.Prelude.{◌≡◌, ℕ, List};
ghost use Rattle.cal_base.specs.declared.identity.ClientId.{ClientId};
ghost use Rattle.tree_law.specs.Legal.{IsLegal};
ghost use Rattle.tree_law.specs.declared.entry.Entry.{Entry};
ghost use Rattle.history_check.specs.Fits.{FitTo};
ghost use Rattle.history_check.specs.Turns.{InTurn};
ghost use Rattle.history_check.specs.declared.told.Told.{Told};

/// The history that fitting lines tell is legal for one file tree.
pub fn what_fits_is_legal()
    ensures { (told : List Told) (history : List Entry) → FitTo told history → IsLegal history }
{}

/// Each call of a text that fits comes in turn: the lines that tell of it are its start, then its entry,
/// then its answer with the same reply, each once and in this order, as far as the call has come. It has
/// one entry in the history once it is carried out, and none before: of the call that was started, with
/// the reply that is answered. So a call that is answered was carried out exactly once, not before its
/// start and not after its answer, and nothing else is carried out for a client.
pub fn each_call_is_carried_out_once()
    ensures { (told : List Told) (history : List Entry) → FitTo told history → (client : ClientId) (number : ℕ) → InTurn client number told history }
{}

/// A text that fits tells of one history: no reply can be read in two ways.
pub fn a_text_has_one_history()
    ensures { (told : List Told) (history other : List Entry) → FitTo told history → FitTo told other → history ≡ other }
{}
