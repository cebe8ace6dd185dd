ghost use Rattle.std.specs.Prelude.{◌≤◌, ◌<◌, ℕ, All, length};
ghost use Rattle.cal_base.specs.Limits as limits;
ghost use Rattle.fence.specs.Writes.{Runs};
ghost use Rattle.cluster_law.specs.History.{writes_of, writes_of_acts};
ghost use Rattle.server_draft.specs.Acts.{CanBeDone, acts_of, commit_of};
ghost use Rattle.server_writes.specs.Planned.{writes_by};

use fence::{Port, PortHalt};
use journal::commit;
use server_draft::{Act, Commit};
use shared_disk::PortDisk;

/// Writes what some acts commit, in order: for each, the blocks that it lays, and then its homes in one transaction.
/// There is room for all. It takes no memory.
pub fn write_acts<D: PortDisk>(port: &mut Port, disk: &mut D, acts: &[Act]) -> Result<(), PortHalt>
    requires within { All CanBeDone acts.now }
    requires room { (view : ℕ) → length (writes_of_acts (acts_of view acts.now)) ≤ (D.means disk.old).room }
    ensures runs { (view : ℕ) → Runs port.old (D.means disk.old) (D.fault_count disk.old) (writes_of_acts (acts_of view acts.now)) result port.new (D.means disk.new) (D.fault_count disk.new) }
{
    for act in acts {
        write_act(port, disk, act)?;
    }
    Ok(())
}

/// Writes what an act commits.
fn write_act<D: PortDisk>(port: &mut Port, disk: &mut D, act: &Act) -> Result<(), PortHalt>
    requires within { CanBeDone act.now }
    requires room { length (writes_by act.now) ≤ (D.means disk.old).room }
    ensures runs { Runs port.old (D.means disk.old) (D.fault_count disk.old) (writes_by act.now) result port.new (D.means disk.new) (D.fault_count disk.new) }
{
    match act {
        Act::Commits(commit) => write_commit(port, disk, commit),
        _ => Ok(()),
    }
}

/// Writes what a deed commits.
fn write_commit<D: PortDisk>(port: &mut Port, disk: &mut D, made: &Commit) -> Result<(), PortHalt>
    requires within { All (λ lay. lay.0 < limits.sectors) made.now.lays }
    requires room { length (writes_of (commit_of made.now)) ≤ (D.means disk.old).room }
    ensures runs { Runs port.old (D.means disk.old) (D.fault_count disk.old) (writes_of (commit_of made.now)) result port.new (D.means disk.new) (D.fault_count disk.new) }
{
    port.write_all(disk, made.lays.as_slice())?;
    commit(port, disk, &made.homes)
}
