use cal_base::View;
use shared_disk::DiskRefusal;

/// Why a mount halted.
#[derive(Clone, Copy, Debug, PartialEq, Eq)]
pub enum MountHalt {
    /// The key is another than the port's view. The disk is as it was.
    Fenced { mine: View, current: View },
    /// The disk failed, and its count of faults rose.
    Failed,
    /// This sector is outside its grammar.
    Damaged { sector: u32 },
}

impl From<DiskRefusal> for MountHalt {
    ghost use Rattle.std.specs.Prelude.{◌≡◌};
    ghost use Rattle.image.specs.Mount.{refused};

    ghost from_gives = { λ refusal halt. halt ≡ refused refusal };

    fn from(refusal: DiskRefusal) -> MountHalt {
        match refusal {
            DiskRefusal::Fenced { mine, current } => MountHalt::Fenced { mine, current },
            DiskRefusal::Failed => MountHalt::Failed,
        }
    }
}
