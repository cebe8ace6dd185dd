ghost use Rattle.std.specs.Prelude.{◌≡◌, ◌≤◌, ◌<◌, ℕ, OnOk, OnErr, IfErr};
ghost use Rattle.cal_base.specs.Limits as limits;
ghost use Rattle.cal_base.specs.Faults.{Rose};
ghost use Rattle.shared_disk.specs.Disk.{Disk, Reads, Writes, Fences, TellsWhole};

use crate::disk_refusal::DiskRefusal;
use cal_base::{Failed, Oom, Sector, View};

/// A disk with several ports and one key. What its sectors hold is told or untold; clauses on content
/// hold where it is told. Its changes are the accepted writes and the failed ones with the bytes that
/// they left, in order. Each call leaves of it as it was what isn't said of that call.
pub trait PortDisk {
    /// What it means: its sectors, key, changes and room.
    ghost means: { Self → Disk };

    /// How often it has failed.
    ghost fault_count: { Self → ℕ };

    /// Makes room for so many writes.
    fn reserve(&mut self, writes: usize) -> Result<(), Oom>
        ensures room { OnOk result (writes ≤ (means self.new).room) }
        ensures keeps { (means self.old).room ≤ (means self.new).room }
        ensures same { means self.new ≡ record (means self.old) { room = (means self.new).room } }
        ensures oom { OnErr result (means self.new ≡ means self.old) }
        ensures whole { OnOk result (TellsWhole (means self.new)) }
        ensures faults { fault_count self.new ≡ fault_count self.old };

    /// Puts the bytes of a sector, below 2,596, into `into`. `Fenced` comes exactly where the key is
    /// another, `Failed` only where the count of faults rose; after them `into` holds any bytes.
    fn read(&mut self, view: View, sector: u32, into: &mut Sector) -> Result<(), DiskRefusal>
        requires { sector < limits.sectors }
        ensures reads { Reads (means self.old) view.0 sector into.new result }
        ensures same { means self.new ≡ means self.old }
        ensures whole { OnOk result (TellsWhole (means self.new)) }
        ensures counted { IfErr result (λ why. why ≡ DiskRefusal.Failed → Rose (fault_count self.old) (fault_count self.new)) }
        ensures later { fault_count self.old ≤ fault_count self.new };

    /// Puts the bytes of `from` into a sector, below 2,596, and uses one of the room, of which there
    /// is some. `Fenced` comes exactly where the key is another, and then nothing changed. `Failed`
    /// comes only where the count of faults rose, and then any bytes are left in that one sector.
    fn write(&mut self, view: View, sector: u32, from: &Sector) -> Result<(), DiskRefusal>
        requires within { sector < limits.sectors }
        requires room { 0 < (means self.old).room }
        ensures writes { Writes (means self.old) view.0 sector from.now result (means self.new) }
        ensures whole { OnOk result (TellsWhole (means self.new)) }
        ensures counted { IfErr result (λ why. why ≡ DiskRefusal.Failed → Rose (fault_count self.old) (fault_count self.new)) }
        ensures later { fault_count self.old ≤ fault_count self.new };

    /// Raises the key to the view, if that is greater, and answers the key that then stands. `Failed`
    /// comes only where the count of faults rose; the key is then as it was, or raised.
    fn fence(&mut self, view: View) -> Result<View, Failed>
        ensures fences { Fences (means self.old) view.0 result (means self.new) }
        ensures whole { OnOk result (TellsWhole (means self.new)) }
        ensures counted { OnErr result (Rose (fault_count self.old) (fault_count self.new)) }
        ensures later { fault_count self.old ≤ fault_count self.new };

    /// How often it has failed. The count never falls; at the last u64 it stays there.
    fn faults(&self) -> u64
        ensures { result ≡ fault_count self.now };
}
