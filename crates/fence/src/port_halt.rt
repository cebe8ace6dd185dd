use cal_base::View;
use shared_disk::DiskRefusal;

/// Why a port halted its server.
#[derive(Clone, Copy, Debug, PartialEq, Eq)]
pub enum PortHalt {
    /// The key is another than the port's view. The disk is as it was.
    Fenced { mine: View, current: View },
    /// The disk failed, and its count of faults rose.
    Failed,
    /// The armed stop came.
    Stopped,
}

impl From<DiskRefusal> for PortHalt {
    ghost use Rattle.std.specs.Prelude.{◌≡◌};
    ghost use Rattle.fence.specs.Halts.{halt_of};

    ghost from_gives = { λ refusal halt. halt ≡ halt_of refusal };

    fn from(refusal: DiskRefusal) -> PortHalt {
        match refusal {
            DiskRefusal::Fenced { mine, current } => PortHalt::Fenced { mine, current },
            DiskRefusal::Failed => PortHalt::Failed,
        }
    }
}
