ghost use Rattle.std.specs.Prelude.{◌≡◌, ◌+◌, ◌≤◌, ℕ, List, Option, length, OnOk, OnErr};
ghost use Rattle.std.specs.Io.KnownBytes.{append_known};
ghost use Rattle.cal_base.specs.Faults.{Rose};
ghost use Rattle.cal_base.specs.Sink.{TakesPrefix};

use crate::failed::Failed;
use crate::oom::Oom;

/// Bytes that go out. What it holds is told or untold; clauses on content hold where it is told.
pub trait Sink {
    /// The bytes held, where they are told.
    ghost held: { Self → Option (List ℕ) };

    /// How many bytes it takes without asking for memory.
    ghost room: { Self → ℕ };

    /// How often it has failed.
    ghost fault_count: { Self → ℕ };

    /// Makes room for so many bytes.
    fn reserve(&mut self, bytes: usize) -> Result<(), Oom>
        ensures room { OnOk result (bytes ≤ room self.new) }
        ensures oom { OnErr result (room self.new ≡ room self.old) }
        ensures keeps { room self.old ≤ room self.new }
        ensures held { held self.new ≡ held self.old }
        ensures faults { fault_count self.new ≡ fault_count self.old };

    /// Takes the piece, for which there is room, and uses at most its length of the room. After
    /// `Failed` it has taken a prefix of the piece, and the count of faults rose.
    fn write(&mut self, piece: &[u8]) -> Result<(), Failed>
        requires { length piece.now ≤ room self.old }
        ensures ok { OnOk result (held self.new ≡ append_known (held self.old) piece.now) }
        ensures failed { OnErr result (TakesPrefix (held self.old) piece.now (held self.new)) }
        ensures room { room self.old ≤ room self.new + length piece.now }
        ensures counted { OnErr result (Rose (fault_count self.old) (fault_count self.new)) }
        ensures later { fault_count self.old ≤ fault_count self.new };

    /// How often it has failed. The count never falls; at the last u64 it stays there.
    fn faults(&self) -> u64
        ensures { result ≡ fault_count self.now };
}
