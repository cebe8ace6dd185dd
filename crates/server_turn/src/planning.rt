ghost use Rattle.std.specs.Prelude.{◌≡◌, ◌≤◌, ◌+◌, ◌^◌, ℕ, IfErr, IfOk, is_none, length};
ghost use Rattle.cal_base.specs.Limits as limits;
ghost use Rattle.rebuild.specs.Collecting.{missing_of};
ghost use Rattle.cluster_law.specs.ServerState.{ServerState, is_admitted};
ghost use Rattle.server_draft.specs.Draft.{told_or_waiting};
ghost use Rattle.server_line.specs.Known.{SeesOwn};
ghost use Rattle.server_line.specs.Stopping.{OnlyReads};
ghost use Rattle.server_opening.specs.Opens.{CanCome, GoesOut, begun, occasion};
ghost use Rattle.server_turn.specs.Turn.{IsCollected, IsPlanned, MayBeRefused};
ghost use Rattle.volume_names.specs.Named.{AreNamed};

use cal_base::Oom;
use fence::Port;
use image::Image;
use membership::Members;
use server_desk::Desk;
use server_draft::{Draft, what_is_done_stays_done};
use server_line::{ServeError, serve_line};
use server_opening::{Coming, open_step};
use server_reports::collect;
use shared_disk::PortDisk;
use std::alloc::Global;
use token_kind::Block;

/// What a server has planned of a step.
#[derive(Drop)]
pub struct Planned {
    /// What it knows as its acts leave it, and these acts.
    pub draft: Draft,
    /// The hold that blocks the head of the line first, if one does.
    pub head: Option<Block>,
}

/// Plans a step: takes what comes, with what is owed for it at once; collects what clients hold; and serves the line.
/// The disk is read alone, and only where bytes of a file are granted to a client that holds none of them.
///
/// # Errors
/// `Refused` where a block of a file couldn't be read: `Fenced` only where the key is another than the view,
/// `Failed` only where the count of faults rose.
pub fn plan_step<D: PortDisk>(
    alloc: Global,
    desk: Desk,
    image: Image,
    members: &Members,
    coming: Coming,
    port: &Port,
    disk: &mut D,
) -> Result<Planned, ServeError>
    requires { CanCome coming }
    ensures planned { IfOk result (λ planned. (server : ServerState) → GoesOut port.now.view server desk image coming → AreNamed image → SeesOwn (begun port.now.view server coming) port.now.view (D.means disk.old)
        → IsPlanned port.now.view (occasion port.now.view members.now (is_admitted server) coming) (begun port.now.view server coming) (D.means disk.old) planned) }
    ensures refused { IfErr result (λ error. (server : ServerState) → GoesOut port.now.view server desk image coming → AreNamed image → SeesOwn (begun port.now.view server coming) port.now.view (D.means disk.old)
        → MayBeRefused error port.now.view (occasion port.now.view members.now (is_admitted server) coming) (begun port.now.view server coming)) }
    ensures few { IfOk result (λ planned. (to : ℕ) → told_or_waiting to planned.draft ≤ length desk.requests + 2 ^ 11) }
    ensures reads { OnlyReads (D.means disk.old) port.now.view (D.fault_count disk.old) result (D.means disk.new) (D.fault_count disk.new) }
{
    let mut draft = open_and_collect(alloc, desk, image, members, coming)?;
    what_is_done_stays_done();
    match serve_line(alloc, &mut draft, port, disk) {
        Ok(head) => Ok(Planned { draft, head }),
        Err(error) => Err(error),
    }
}

/// Takes what comes, with what is owed for it at once, and collects what clients hold. The line isn't served yet.
fn open_and_collect(
    alloc: Global,
    desk: Desk,
    image: Image,
    members: &Members,
    coming: Coming,
) -> Result<Draft, Oom>
    requires { CanCome coming }
    ensures collected { IfOk result (λ draft. (view : ℕ) (server : ServerState) → GoesOut view server desk image coming
        → IsCollected view (occasion view members.now (is_admitted server) coming) (begun view server coming) draft) }
    ensures names { IfOk result (λ draft. AreNamed image → AreNamed draft.image) }
    ensures few { IfOk result (λ draft. (to : ℕ) → told_or_waiting to draft ≤ length desk.requests + limits.inodes + 3) }
{
    let was_admitted = is_admitted(&desk);
    let mut draft = open_step(alloc, desk, image, members, coming)?;
    collect(&mut draft, was_admitted)?;
    what_is_done_stays_done();
    Ok(draft)
}

/// Whether no client is missing.
fn is_admitted(desk: &Desk) -> bool
    ensures { result ≡ is_none (missing_of desk.now.collecting) }
{
    desk.missing().is_none()
}
