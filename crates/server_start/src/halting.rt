ghost use Rattle.std.specs.Prelude.{◌≡◌};
ghost use Rattle.server_start.specs.Halting.{mount_halt, port_halt, refusal_halt, replay_halt};

use cluster_law::Halt;
use fence::PortHalt;
use image::MountHalt;
use journal::ReplayHalt;
use shared_disk::DiskRefusal;

/// Why a server halts whose call of the disk was refused; so often the disk has failed by then.
pub fn of_refusal(refusal: DiskRefusal, faults: u64) -> Halt
    ensures { result ≡ refusal_halt refusal faults }
{
    match refusal {
        DiskRefusal::Fenced { mine, current } => Halt::Fenced { mine, current },
        DiskRefusal::Failed => Halt::Failed { faults },
    }
}

/// Why a server halts whose port halted; so often the disk has failed by then.
pub fn of_port(halt: PortHalt, faults: u64) -> Halt
    ensures { result ≡ port_halt halt faults }
{
    match halt {
        PortHalt::Fenced { mine, current } => Halt::Fenced { mine, current },
        PortHalt::Failed => Halt::Failed { faults },
        PortHalt::Stopped => Halt::Stopped,
    }
}

/// Why a server halts whose replay halted; so often the disk has failed by then.
pub fn of_replay(halt: ReplayHalt, faults: u64) -> Halt
    ensures { result ≡ replay_halt halt faults }
{
    match halt {
        ReplayHalt::Fenced { mine, current } => Halt::Fenced { mine, current },
        ReplayHalt::Failed => Halt::Failed { faults },
        ReplayHalt::Stopped => Halt::Stopped,
        ReplayHalt::Damaged { sector } => Halt::Damaged { sector },
    }
}

/// Why a server halts whose mount halted; so often the disk has failed by then.
pub fn of_mount(halt: MountHalt, faults: u64) -> Halt
    ensures { result ≡ mount_halt halt faults }
{
    match halt {
        MountHalt::Fenced { mine, current } => Halt::Fenced { mine, current },
        MountHalt::Failed => Halt::Failed { faults },
        MountHalt::Damaged { sector } => Halt::Damaged { sector },
    }
}
