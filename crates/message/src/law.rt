ghost use Rattle.std.specs.Prelude.{◌≡◌, ◌<◌, ℕ, List, Ok, slice_index};
ghost use Rattle.message.specs.Bodies.{message_of};
ghost use Rattle.message.specs.Range.{IsMessage};
ghost use Rattle.message.specs.Spelling.{message_bytes};
ghost use Rattle.message.specs.declared.message.Message.{Message};

/// What is spelled is read again.
pub fn read_again()
    ensures { (message : Message) → IsMessage message → message_of (message_bytes message) ≡ Ok message }
{}

/// What is read is spelled so, and is in range.
pub fn one_spelling()
    ensures { (bytes : List ℕ) (message : Message) → ((i : ℕ) → slice_index bytes i < 256) → message_of bytes ≡ Ok message → IsMessage message × (bytes ≡ message_bytes message) }
{}
