use cal_base::View;
use fence::PortHalt;
use shared_disk::DiskRefusal;

/// Why a replay halted.
#[derive(Clone, Copy, Debug, PartialEq, Eq)]
pub enum ReplayHalt {
    /// The key is another than the port's view. The disk is as it was.
    Fenced { mine: View, current: View },
    /// The disk failed, and its count of faults rose.
    Failed,
    /// The armed stop came.
    Stopped,
    /// The header of an open gate, in this sector, is outside its grammar. The disk is as it was.
    Damaged { sector: u32 },
}

impl From<DiskRefusal> for ReplayHalt {
    ghost use Rattle.std.specs.Prelude.{◌≡◌};
    ghost use Rattle.journal.specs.Halts.{refused};

    ghost from_gives = { λ refusal halt. halt ≡ refused refusal };

    fn from(refusal: DiskRefusal) -> ReplayHalt {
        match refusal {
            DiskRefusal::Fenced { mine, current } => ReplayHalt::Fenced { mine, current },
            DiskRefusal::Failed => ReplayHalt::Failed,
        }
    }
}

impl From<PortHalt> for ReplayHalt {
    ghost use Rattle.std.specs.Prelude.{◌≡◌};
    ghost use Rattle.journal.specs.Halts.{halted};

    ghost from_gives = { λ cause halt. halt ≡ halted cause };

    fn from(cause: PortHalt) -> ReplayHalt {
        match cause {
            PortHalt::Fenced { mine, current } => ReplayHalt::Fenced { mine, current },
            PortHalt::Failed => ReplayHalt::Failed,
            PortHalt::Stopped => ReplayHalt::Stopped,
        }
    }
}
