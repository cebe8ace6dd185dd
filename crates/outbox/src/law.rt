ghost use Rattle.std.specs.Prelude.{◌≡◌, ◌++◌, List, map};
ghost use Rattle.message.specs.Spelling.{message_bytes};
ghost use Rattle.message.specs.declared.message.Message.{Message};
ghost use Rattle.client_book.specs.Made.{sendable_in};
ghost use Rattle.outbox.specs.Sending.{Sending, put_all};

/// Messages that are put in piece by piece go out as all of them at once.
pub fn one_after_another()
    ensures { (s : Sending) (a b : List Message) → put_all s (a ++ b) ≡ put_all (put_all s a) b }
{}

/// What goes out are the messages in their order, but for flushes while the client is moving.
pub fn what_goes_out()
    ensures { (s : Sending) (messages : List Message) → put_all s messages ≡ record s { bodies = s.bodies ++ map message_bytes (sendable_in s.moving messages) } }
{}
