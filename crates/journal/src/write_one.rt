ghost use Rattle.std.specs.Prelude.{◌<◌, ◌∷◌, []};
ghost use Rattle.cal_base.specs.Limits as limits;
ghost use Rattle.fence.specs.Writes.{Runs};

use cal_base::Sector;
use fence::{Port, PortHalt};
use shared_disk::PortDisk;

/// Writes one sector.
pub fn write_one<D: PortDisk>(
    port: &mut Port,
    disk: &mut D,
    sector: u32,
    from: &Sector,
) -> Result<(), PortHalt>
    requires within { sector < limits.sectors }
    requires room { 0 < (D.means disk.old).room }
    ensures { Runs port.old (D.means disk.old) (D.fault_count disk.old) ((sector, from.now) ∷ []) result port.new (D.means disk.new) (D.fault_count disk.new) }
{
    port.write(disk, sector, from)
}
