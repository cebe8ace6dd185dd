ghost use Rattle.std.specs.Prelude.{◌≡◌, ◌≢◌, ◌≤◌, ◌+◌, ◌↔◌, [], ℕ, List, None, IfOk, IfErr, IsTrue, OnOk};
ghost use Rattle.cal_base.specs.Limits as limits;
ghost use Rattle.rebuild.specs.Collecting.{missing_of};
ghost use Rattle.revocation.specs.Revokes.{revokes_of};
ghost use Rattle.token_kind.specs.declared.blocker.Blocker.{Blocker};
ghost use Rattle.volume_names.specs.Named.{AreNamed};
ghost use Rattle.cluster_law.specs.DiskRules.{would_read};
ghost use Rattle.cluster_law.specs.Granting.{head};
ghost use Rattle.cluster_law.specs.Removing.{has_removed};
ghost use Rattle.cluster_law.specs.ServerRules.{LineRests, Occasion};
ghost use Rattle.cluster_law.specs.ServerState.{ServerState, is_admitted};
ghost use Rattle.server_draft.specs.Acts.{acts_of};
ghost use Rattle.server_draft.specs.Draft.{Follows, Grows, reached, told_or_waiting};
ghost use Rattle.server_line.specs.Known.{HasHead, SeesOwn};
ghost use Rattle.server_line.specs.Served.{Goes, ReadNothing, Serves, Stops, TellsNoMore, WouldRead};
ghost use Rattle.server_line.specs.Stopping.{OnlyReads, UnlessOom};

use crate::at_head::head_of;
use crate::changing::serve_change;
use crate::granting::serve_want;
use crate::needing::gap_of;
use crate::stopping::ServeError;
use fence::Port;
use server_draft::Draft;
use shared_disk::PortDisk;
use std::alloc::Global;
use token_kind::Block;
use tree_law::Asked;

/// Serves the line of an admitted server, head after head, until it is empty or its head is blocked: then all that
/// blocks it is asked back, and the first of it is answered. The disk is read alone, and only where bytes of a file
/// are granted to a client that holds none of them.
///
/// A draft that follows the law's server goes on to follow it, if the disk has the server's sectors where its key is
/// the view, and each name of the volume stands for something; then the line rests. Also where a block couldn't be
/// read: then the head would read one. After want of memory nothing is promised of the draft.
///
/// What a client is told and the requests that wait grow together by at most one Revoke for each inode: an answer
/// takes the place of its request, and what blocks a head is asked back once.
///
/// # Errors
/// `Refused` where a block of a file couldn't be read: `Fenced` only where the key is another than the view,
/// `Failed` only where the count of faults rose.
pub fn serve_line<D: PortDisk>(
    alloc: Global,
    draft: &mut Draft,
    port: &Port,
    disk: &mut D,
) -> Result<Option<Block>, ServeError>
    ensures follows { UnlessOom result ((view : ℕ) (o : Occasion) (start : ServerState) → SeesOwn start port.now.view (D.means disk.old) → AreNamed draft.old.image → Follows view o start draft.old → Follows view o start draft.new) }
    ensures rests { IfOk result (λ named. (view : ℕ) (o : Occasion) (start : ServerState) → SeesOwn start port.now.view (D.means disk.old) → AreNamed draft.old.image → Follows view o start draft.old
        → LineRests (is_admitted (reached view start draft.new)) (reached view start draft.new) named) }
    ensures reads_own_key { UnlessOom result ((view : ℕ) (o : Occasion) (start : ServerState) → SeesOwn start port.now.view (D.means disk.old) → (D.means disk.old).key ≢ port.now.view → AreNamed draft.old.image → Follows view o start draft.old
        → ReadNothing start (acts_of view draft.old.acts) → ReadNothing start (acts_of view draft.new.acts)) }
    ensures stops { IfErr result (λ error. (view : ℕ) (o : Occasion) (start : ServerState) → SeesOwn start port.now.view (D.means disk.old) → AreNamed draft.old.image → Follows view o start draft.old → WouldRead error (reached view start draft.new)) }
    ensures reads { OnlyReads (D.means disk.old) port.now.view (D.fault_count disk.old) result (D.means disk.new) (D.fault_count disk.new) }
    ensures names { UnlessOom result (AreNamed draft.old.image → AreNamed draft.new.image) }
    ensures grows { UnlessOom result (Grows draft.old.acts draft.new.acts) }
    ensures standing { UnlessOom result (record draft.new.desk.collecting { table = draft.old.desk.collecting.table } ≡ draft.old.desk.collecting) }
    ensures lower { UnlessOom result ((blockers : List Blocker) → revokes_of draft.old.desk.asked blockers ≡ [] → revokes_of draft.new.desk.asked blockers ≡ []) }
    ensures told { UnlessOom result ((view client : ℕ) → TellsNoMore client (acts_of view draft.old.acts) (acts_of view draft.new.acts)) }
    ensures removed { UnlessOom result ((view : ℕ) → has_removed (acts_of view draft.new.acts) ≡ has_removed (acts_of view draft.old.acts)) }
    ensures few { UnlessOom result ((to : ℕ) → told_or_waiting to draft.new ≤ told_or_waiting to draft.old + limits.inodes) }
{
    serve_all(alloc, draft, port, disk)
}

/// Serves the line, head after head, until it is empty or its head is blocked.
fn serve_all<D: PortDisk>(
    alloc: Global,
    draft: &mut Draft,
    port: &Port,
    disk: &mut D,
) -> Result<Option<Block>, ServeError>
    ensures goes { UnlessOom result (Goes (λ start. SeesOwn start port.now.view (D.means disk.old)) ((D.means disk.old).key ≢ port.now.view) draft.old draft.new) }
    ensures rests { IfOk result (λ named. (view : ℕ) (o : Occasion) (start : ServerState) → SeesOwn start port.now.view (D.means disk.old) → AreNamed draft.old.image → Follows view o start draft.old
        → LineRests (is_admitted (reached view start draft.new)) (reached view start draft.new) named) }
    ensures stops { IfErr result (λ error. (view : ℕ) (o : Occasion) (start : ServerState) → SeesOwn start port.now.view (D.means disk.old) → AreNamed draft.old.image → Follows view o start draft.old → WouldRead error (reached view start draft.new)) }
    ensures reads { OnlyReads (D.means disk.old) port.now.view (D.fault_count disk.old) result (D.means disk.new) (D.fault_count disk.new) }
    ensures few { UnlessOom result ((to : ℕ) → told_or_waiting to draft.new ≤ told_or_waiting to draft.old + limits.inodes) }
{
    while has_head(draft) {
        match serve_head(alloc, draft, port, disk) {
            Ok(None) => {}
            Ok(Some(block)) => return Ok(Some(block)),
            Err(error) => return Err(error),
        }
    }
    Ok(None)
}

/// Whether a request waits, and the server is admitted.
fn has_head(draft: &Draft) -> bool
    ensures { IsTrue result ↔ HasHead draft.now }
{
    draft.desk.missing().is_none() && draft.desk.head().is_some()
}

/// Serves the head of the line, or answers what blocks it.
fn serve_head<D: PortDisk>(
    alloc: Global,
    draft: &mut Draft,
    port: &Port,
    disk: &mut D,
) -> Result<Option<Block>, ServeError>
    requires { HasHead draft.old }
    ensures reads { OnlyReads (D.means disk.old) port.now.view (D.fault_count disk.old) result (D.means disk.new) (D.fault_count disk.new) }
    ensures serves { IfOk result (Serves (λ start. SeesOwn start port.now.view (D.means disk.old)) ((D.means disk.old).key ≢ port.now.view) draft.old draft.new) }
    ensures stops { IfErr result (λ error. Stops error draft.old draft.new) }
{
    let request = head_of(draft);
    let client = request.client;
    let number = request.number;
    match &request.asked {
        Asked::Want(want) => {
            let gap = gap_of(alloc, draft, client, want)?;
            serve_want(alloc, draft, port, disk, client, number, &gap)
        }
        Asked::Change(_) => {
            let blocked = serve_change(alloc, draft, client, number)?;
            Ok(blocked)
        }
    }
}
