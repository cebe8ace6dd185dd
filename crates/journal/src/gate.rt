ghost use Rattle.std.specs.Prelude.{◌≡◌, ◌<◌, ◌∷◌, []};
ghost use Rattle.shared_disk.specs.Map.{at_gate};
ghost use Rattle.fence.specs.Writes.{Runs};
ghost use Rattle.journal.specs.Layout.{gate_of, opens};

use crate::write_one::write_one;
use cal_base::{BLOCK_SIZE, Sector};
use cal_fields::SectorFields;
use fence::{Port, PortHalt};
use shared_disk::{AT_GATE, PortDisk};

/// Whether a gate is open: its first byte is 1.
pub fn is_open(gate: &Sector) -> bool
    ensures { result ≡ opens gate.now }
{
    gate[0] == 1
}

/// Writes the gate with this first byte and zeros.
pub fn write_gate<D: PortDisk>(port: &mut Port, disk: &mut D, first: u8) -> Result<(), PortHalt>
    requires { 0 < (D.means disk.old).room }
    ensures { Runs port.old (D.means disk.old) (D.fault_count disk.old) ((at_gate, gate_of first) ∷ []) result port.new (D.means disk.new) (D.fault_count disk.new) }
{
    let gate = gate_with(first);
    write_one(port, disk, AT_GATE, &gate)
}

/// A gate with this first byte and zeros.
fn gate_with(first: u8) -> Sector
    ensures { result ≡ gate_of first }
{
    let mut fields = SectorFields::new();
    fields.put_u8(first);
    let mut gate = [0; BLOCK_SIZE];
    fields.finish(&mut gate);
    gate
}
