ghost use Rattle.std.specs.Prelude.{◌≡◌, ℕ, List};
ghost use Rattle.request_log.specs.declared.slot.Slot.{Slot};
ghost use Rattle.request_log.specs.Slot.{SpellsSlot};

/// A sector spells one slot, and a slot has one spelling.
pub fn one_slot()
    ensures read { (sector : List ℕ) (a b : Slot) → SpellsSlot sector a → SpellsSlot sector b → a ≡ b }
    ensures spelled { (a b : List ℕ) (slot : Slot) → SpellsSlot a slot → SpellsSlot b slot → a ≡ b }
{}
