ghost use Rattle.std.specs.Prelude.{◌≡◌, ◌<◌, ◌≤◌, ◌^◌, [], ℕ, All, OnOk, length};
ghost use Rattle.fence.specs.Writes.{Runs};
ghost use Rattle.cluster_law.specs.Noted.{DiskAt};
ghost use Rattle.cluster_law.specs.ServerRules.{entries_of};
ghost use Rattle.server_disk.specs.Carrying.{Carries, HasEntries, LeavesRoom, is_failure, planned_by};
ghost use Rattle.server_draft.specs.Acts.{CanBeDone, acts_of};
ghost use Rattle.server_writes.specs.Ending.{IsReady, StandsAs, halt_of};
ghost use Rattle.server_writes.specs.Halted.{AreLeft, entries_left};

use cal_base::{Items, Oom};
use cluster_law::{SectorWrite, ServerHalted};
use fence::{Port, PortHalt, a_run_tells_what_was_written};
use server_draft::Act;
use server_start::{StepError, of_port};
use server_writes::{a_step_writes_as_the_law, count_writes, entries_left, entries_of, write_acts};
use shared_disk::PortDisk;
use std::alloc::Global;
use tree_law::Entry;

/// What was carried out: the writes that the disk accepted, and the entries, both in order.
#[derive(Drop)]
pub struct Carried {
    pub writes: Items<SectorWrite>,
    pub entries: Items<Entry>,
}

/// Writes what some acts commit, in order, once all memory is taken that this needs. The port counts from 0, and may
/// be armed. After want of memory the disk is as it was.
pub fn carry_out<D: PortDisk>(
    alloc: Global,
    port: &mut Port,
    disk: &mut D,
    acts: &[Act],
) -> Result<Carried, StepError>
    requires done { All CanBeDone acts.now }
    requires uncounted { port.old.accepted ≡ 0 }
    ensures carried { (before after : DiskAt) → StandsAs (D.means disk.old) (D.fault_count disk.old) before → StandsAs (D.means disk.new) (D.fault_count disk.new) after → Carries port.old.view acts.now port.old.stop before after result }
    ensures entries { HasEntries port.old.view acts.now result }
    ensures memory { LeavesRoom (D.means disk.old) (D.means disk.new) result }
    ensures view { OnOk result (port.new.view ≡ port.old.view) }
    ensures later { D.fault_count disk.old ≤ D.fault_count disk.new }
{
    let entries = entries_of(alloc, acts)?;
    make_room(alloc, port, disk, acts)?;
    write_out(alloc, port, disk, acts, entries)
}

/// Takes room for what some acts write, on the disk and in a list that the port keeps.
fn make_room<D: PortDisk>(
    alloc: Global,
    port: &mut Port,
    disk: &mut D,
    acts: &[Act],
) -> Result<(), Oom>
    requires { port.old.accepted ≡ 0 }
    ensures ready { OnOk result ((view : ℕ) → IsReady port.new (planned_by view acts.now)) }
    ensures room { OnOk result ((view : ℕ) → length (planned_by view acts.now) ≤ (D.means disk.new).room) }
    ensures port { OnOk result (port.new ≡ record port.old { kept = port.new.kept }) }
    ensures disk { D.means disk.new ≡ record (D.means disk.old) { room = (D.means disk.new).room } }
    ensures faults { D.fault_count disk.new ≡ D.fault_count disk.old }
{
    let count = count_writes(acts)?;
    let kept = Vec::with_capacity(alloc, count)?;
    disk.reserve(count)?;
    port.keep(kept);
    Ok(())
}

/// Writes what some acts commit, for which there is room.
fn write_out<D: PortDisk>(
    alloc: Global,
    port: &mut Port,
    disk: &mut D,
    acts: &[Act],
    entries: Items<Entry>,
) -> Result<Carried, StepError>
    requires done { All CanBeDone acts.now }
    requires ready { (view : ℕ) → IsReady port.old (planned_by view acts.now) }
    requires room { (view : ℕ) → length (planned_by view acts.now) ≤ (D.means disk.old).room }
    requires entries { (view : ℕ) → entries ≡ entries_of (acts_of view acts.now) }
    ensures carried { (before after : DiskAt) → StandsAs (D.means disk.old) (D.fault_count disk.old) before → StandsAs (D.means disk.new) (D.fault_count disk.new) after → Carries port.old.view acts.now port.old.stop before after result }
    ensures entries { HasEntries port.old.view acts.now result }
    ensures memory { LeavesRoom (D.means disk.old) (D.means disk.new) result }
    ensures view { OnOk result (port.new.view ≡ port.old.view) }
    ensures later { D.fault_count disk.old ≤ D.fault_count disk.new }
{
    a_step_writes_as_the_law();
    a_run_tells_what_was_written();
    let written = write_acts(port, disk, acts);
    let writes = hand_out(alloc, port);
    match written {
        Ok(()) => Ok(Carried { writes, entries }),
        Err(halt) => Err(StepError::Halted(halted(acts, entries, writes, halt, disk.faults()))),
    }
}

/// The writes that a port has kept.
fn hand_out(alloc: Global, port: &mut Port) -> Items<SectorWrite>
    ensures writes { result ≡ port.old.kept.writes }
    ensures port { port.new ≡ record port.old { kept = record { writes = []; space = 0 } } }
{
    match port.hand_out() {
        Some(list) => Items::from_vec(list),
        None => Items::new(alloc),
    }
}

/// What a step gives that halts, on a disk that has failed so often.
fn halted(
    acts: &[Act],
    entries: Items<Entry>,
    writes: Items<SectorWrite>,
    halt: PortHalt,
    faults: u64,
) -> ServerHalted
    requires entries { (view : ℕ) → entries ≡ entries_of (acts_of view acts.now) }
    requires kept { (view : ℕ) → AreLeft (planned_by view acts.now) writes }
    requires few { (view : ℕ) → length (planned_by view acts.now) < 2 ^ 64 }
    ensures writes { result.writes ≡ writes }
    ensures halt { result.halt ≡ halt_of halt faults }
    ensures entries { (view : ℕ) → result.entries ≡ entries_left (is_failure (halt_of halt faults)) writes (acts_of view acts.now) }
{
    let entries = entries_left(entries, acts, writes.as_slice(), failed(halt));
    ServerHalted {
        writes,
        entries,
        halt: of_port(halt, faults),
    }
}

/// Whether a port halted since the disk failed.
fn failed(halt: PortHalt) -> bool
    ensures { (faults : ℕ) → result ≡ is_failure (halt_of halt faults) }
{
    match halt {
        PortHalt::Fenced { .. } => false,
        PortHalt::Failed => true,
        PortHalt::Stopped => false,
    }
}
