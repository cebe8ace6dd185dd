ghost use Rattle.std.specs.Prelude.{◌≡◌, ◌≤◌, ℕ, List, Option, IfOk, OnErr};
ghost use Rattle.cal_base.specs.Faults.{Rose};
ghost use Rattle.cal_base.specs.Source.{Reads};

use crate::failed::Failed;

/// Bytes that come in. What it has left is told or untold; clauses on content hold where it is told.
pub trait Source {
    /// The bytes left, where they are told.
    ghost left: { Self → Option (List ℕ) };

    /// How often it has failed.
    ghost fault_count: { Self → ℕ };

    /// Puts the next bytes into the front of `into`, at most its length, and answers how many. None
    /// for a buffer that isn't empty is the end of input. After `Failed` as much is left as before,
    /// and the count of faults rose.
    fn read(&mut self, into: &mut [u8]) -> Result<usize, Failed>
        ensures reads { IfOk result (λ count. Reads (left self.old) (left self.new) count into.new) }
        ensures failed { OnErr result (left self.new ≡ left self.old) }
        ensures counted { OnErr result (Rose (fault_count self.old) (fault_count self.new)) }
        ensures later { fault_count self.old ≤ fault_count self.new };

    /// How often it has failed. The count never falls; at the last u64 it stays there.
    fn faults(&self) -> u64
        ensures { result ≡ fault_count self.now };
}
