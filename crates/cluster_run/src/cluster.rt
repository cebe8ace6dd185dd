ghost use Rattle.std.specs.Prelude.{◌≡◌, ◌↔◌, IsTrue, map};
ghost use Rattle.cluster_run.specs.Run.{EndsSo, IsRunCommand};
ghost use Rattle.cluster_run.specs.Following.{RunsFrom, first_standing};
ghost use Rattle.cluster_run.specs.Telling.{Tells, TellsOr};
ghost use Rattle.cluster_run.specs.ScriptRun.{RunsBytes, RunsScript, TellsHalt};
ghost use Rattle.cluster_run.specs.Text.{bad_line, key_line, line};
ghost use Rattle.run_status.specs.declared.status.Status.TheVariants.{BadScript, KeyTaken};
ghost use Rattle.script.specs.Script.{IsSpelledScript};

use crate::reading::{ReadError, read_all};
use crate::run::Run;
use crate::text::{bad_script_text, key_taken_text};
use cal_base::{Sink, Source};
use fence::PortHalt;
use run_status::{PrintError, Status, print, status_of};
use script::{BadLine, ReadScriptError, Script, read_script};
use server_start::FormatError;
use shared_disk::PortDisk;
use std::alloc::Global;
use world::World;

/// Runs the command of these words: with the one word `run`, the script that the source has.
pub fn run_cluster<S: Source, K: Sink, D: PortDisk>(
    alloc: Global,
    words: &[&str],
    source: &mut S,
    sink: &mut K,
    disk: &mut D,
) -> Status
    ensures ends { EndsSo (map (λ word. word.now) words.now) (record { left = S.left source.old; held = K.held sink.old; source_faults = S.fault_count source.old; sink_faults = K.fault_count sink.old }) (record { left = S.left source.new; held = K.held sink.new; source_faults = S.fault_count source.new; sink_faults = K.fault_count sink.new }) (record { disk = D.means disk.old; faults = D.fault_count disk.old }) (record { disk = D.means disk.new; faults = D.fault_count disk.new }) result }
{
    if !is_run_command(words) {
        return tell(sink, b"Usage\n", Status::Usage);
    }
    match read_all(alloc, source) {
        Ok(bytes) => run_bytes(alloc, sink, disk, bytes.as_slice()),
        Err(ReadError::ReadFault) => tell(sink, b"ReadFault\n", Status::ReadFault),
        Err(ReadError::OutOfMemory) => Status::OutOfMemory,
    }
}

/// Whether the words are the one word `run`.
fn is_run_command(words: &[&str]) -> bool
    ensures { IsTrue result ↔ IsRunCommand (map (λ word. word.now) words.now) }
{
    match words {
        [word] => *word == "run",
        [] | [_, _, ..] => false,
    }
}

/// Prints a text, with which a command ends so.
fn tell<K: Sink>(sink: &mut K, text: &[u8], status: Status) -> Status
    ensures { Tells (record { held = K.held sink.old; faults = K.fault_count sink.old }) text.now status result (record { held = K.held sink.new; faults = K.fault_count sink.new }) }
{
    match print(sink, text) {
        Ok(()) => status,
        Err(error) => status_of(error),
    }
}

/// Runs a script, or tells its first bad line.
fn run_bytes<K: Sink, D: PortDisk>(
    alloc: Global,
    sink: &mut K,
    disk: &mut D,
    bytes: &[u8],
) -> Status
    ensures { RunsBytes bytes.now (record { disk = D.means disk.old; faults = D.fault_count disk.old }) (record { held = K.held sink.old; faults = K.fault_count sink.old }) result (record { disk = D.means disk.new; faults = D.fault_count disk.new }) (record { held = K.held sink.new; faults = K.fault_count sink.new }) }
{
    match read_script(alloc, bytes) {
        Ok(script) => run_script(alloc, sink, disk, script),
        Err(ReadScriptError::BadLine(bad)) => tell_bad_line(alloc, sink, bad),
        Err(ReadScriptError::OutOfMemory) => Status::OutOfMemory,
    }
}

/// Tells the bad line of a script.
fn tell_bad_line<K: Sink>(alloc: Global, sink: &mut K, bad: BadLine) -> Status
    ensures { TellsOr (record { held = K.held sink.old; faults = K.fault_count sink.old }) (line (bad_line bad)) BadScript result (record { held = K.held sink.new; faults = K.fault_count sink.new }) }
{
    let Ok(text) = bad_script_text(alloc, bad) else {
        return Status::OutOfMemory;
    };
    tell(sink, text.as_slice(), Status::BadScript)
}

/// Runs a script on a disk that server A formats first.
fn run_script<K: Sink, D: PortDisk>(
    alloc: Global,
    sink: &mut K,
    disk: &mut D,
    script: Script,
) -> Status
    requires { IsSpelledScript script }
    ensures { RunsScript script (record { disk = D.means disk.old; faults = D.fault_count disk.old }) (record { held = K.held sink.old; faults = K.fault_count sink.old }) result (record { disk = D.means disk.new; faults = D.fault_count disk.new }) (record { held = K.held sink.new; faults = K.fault_count sink.new }) }
{
    match World::new(alloc, disk, script.clients, script.window) {
        Ok(world) => match run_lines(alloc, sink, disk, world, script) {
            Ok(()) => Status::Ok,
            Err(error) => status_of(error),
        },
        Err(FormatError::Halted(halt)) => tell_halt(alloc, sink, halt),
        Err(FormatError::OutOfMemory) => Status::OutOfMemory,
    }
}

/// Tells why the disk was not formatted: it is under a key already, or it failed.
fn tell_halt<K: Sink>(alloc: Global, sink: &mut K, halt: PortHalt) -> Status
    requires { ¬ (halt ≡ PortHalt.Stopped) }
    ensures { TellsHalt (record { held = K.held sink.old; faults = K.fault_count sink.old }) halt result (record { held = K.held sink.new; faults = K.fault_count sink.new }) }
{
    match halt {
        PortHalt::Fenced { mine: _, current } => tell_key(alloc, sink, current.0),
        PortHalt::Failed => tell(sink, b"DiskFault\n", Status::DiskFault),
        PortHalt::Stopped => unreachable!(),
    }
}

/// Tells the key that the disk is under.
fn tell_key<K: Sink>(alloc: Global, sink: &mut K, key: u64) -> Status
    ensures { TellsOr (record { held = K.held sink.old; faults = K.fault_count sink.old }) (line (key_line key)) KeyTaken result (record { held = K.held sink.new; faults = K.fault_count sink.new }) }
{
    let Ok(text) = key_taken_text(alloc, key) else {
        return Status::OutOfMemory;
    };
    tell(sink, text.as_slice(), Status::KeyTaken)
}

/// Carries out the lines of a script on a new cluster, and prints the text of the run.
fn run_lines<K: Sink, D: PortDisk>(
    alloc: Global,
    sink: &mut K,
    disk: &mut D,
    world: World,
    script: Script,
) -> Result<(), PrintError>
    requires spelled { IsSpelledScript script }
    requires new { world.steps ≡ 0 }
    ensures { RunsFrom script (first_standing script world (record { disk = D.means disk.old; faults = D.fault_count disk.old })) (record { held = K.held sink.old; faults = K.fault_count sink.old }) result (record { disk = D.means disk.new; faults = D.fault_count disk.new }) (record { held = K.held sink.new; faults = K.fault_count sink.new }) }
{
    let mut run = Run::new(alloc, world, script.lines)?;
    match run.begin(sink, script.clients, script.window) {
        Ok(()) => {}
        Err(error) => return Err(error),
    }
    match run.go_on(sink, disk) {
        Ok(()) => run.end(sink),
        Err(error) => Err(error),
    }
}
