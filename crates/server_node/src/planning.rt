ghost use Rattle.std.specs.Prelude.{◌≡◌, ◌≤◌, ◌+◌, ◌^◌, ℕ, IfErr, IfOk, length};
ghost use Rattle.cluster_law.specs.ServerState.{ServerState, is_admitted};
ghost use Rattle.server_draft.specs.Draft.{told_or_waiting};
ghost use Rattle.server_line.specs.Known.{SeesOwn};
ghost use Rattle.server_node.specs.Parts.{StopsPlanning};
ghost use Rattle.server_opening.specs.Opens.{CanCome, GoesOut, begun, occasion};
ghost use Rattle.server_turn.specs.Turn.{IsPlanned};
ghost use Rattle.volume_names.specs.Named.{AreNamed};

use cal_base::Items;
use cluster_law::ServerHalted;
use fence::Port;
use image::Image;
use membership::Members;
use server_desk::Desk;
use server_line::ServeError;
use server_opening::Coming;
use server_start::{StepError, of_refusal};
use server_turn::{Planned, plan_step};
use shared_disk::PortDisk;
use std::alloc::Global;

/// Plans a step. Where a block can't be read the server halts.
pub(crate) fn plan<D: PortDisk>(
    alloc: Global,
    desk: Desk,
    image: Image,
    members: &Members,
    coming: Coming,
    port: &Port,
    disk: &mut D,
) -> Result<Planned, StepError>
    requires { CanCome coming }
    ensures planned { IfOk result (λ planned. (server : ServerState) → GoesOut port.now.view server desk image coming → AreNamed image → SeesOwn (begun port.now.view server coming) port.now.view (D.means disk.old)
        → IsPlanned port.now.view (occasion port.now.view members.now (is_admitted server) coming) (begun port.now.view server coming) (D.means disk.old) planned) }
    ensures few { IfOk result (λ planned. (to : ℕ) → told_or_waiting to planned.draft ≤ length desk.requests + 2 ^ 11) }
    ensures stops { IfErr result (λ error. (server : ServerState) → GoesOut port.now.view server desk image coming → AreNamed image → SeesOwn (begun port.now.view server coming) port.now.view (D.means disk.old)
        → StopsPlanning port.now.view (occasion port.now.view members.now (is_admitted server) coming) (begun port.now.view server coming) (D.means disk.old) (D.fault_count disk.old) error (D.fault_count disk.new)) }
    ensures same { D.means disk.new ≡ D.means disk.old }
    ensures later { D.fault_count disk.old ≤ D.fault_count disk.new }
{
    match plan_step(alloc, desk, image, members, coming, port, disk) {
        Ok(planned) => Ok(planned),
        Err(ServeError::OutOfMemory) => Err(StepError::OutOfMemory),
        Err(ServeError::Refused(refusal)) => Err(StepError::Halted(ServerHalted {
            writes: Items::new(alloc),
            entries: Items::new(alloc),
            halt: of_refusal(refusal, disk.faults()),
        })),
    }
}
