use cal_base::{FaultSink, FaultSource, MemSink, MemSource, View};
use cluster_run::run_cluster;
use judge_run::run_judge;
use run_status::Status;
use shared_disk::{FaultDisk, MemDisk, PortDisk};
use std::alloc::Global;
use std::test::Fail;

const RUN: &[&str] = &["run"];

const TWICE: &str = "clients 1\nc0 readdir /\ndeliver 0\ndeliver 1\nc0 readdir /\n";

const TWICE_BEGINS: &str = "run clients 1 window 4\nstep 0 c0 start 1 readdir /\n";

/// How a command ends: its status, and what it printed.
#[derive(Drop)]
struct Outcome {
    status: Status,
    printed: FaultSink,
}

/// A sink in memory that fails at the listed writes.
fn sink(alloc: Global, writes: Vec<u64>) -> Result<FaultSink, Fail> {
    let memory = MemSink::new(alloc).ok().ok_or("no memory")?;
    Ok(FaultSink::new(memory, writes))
}

/// A disk in memory.
fn memory_disk(alloc: Global) -> Result<MemDisk, Fail> {
    Ok(MemDisk::new(alloc).ok().ok_or("no memory")?)
}

/// Runs a script from memory on a new disk, with faults at the listed reads and writes of its edges.
fn run_in_memory(
    alloc: Global,
    words: &[&str],
    script: &str,
    reads: Vec<u64>,
    writes: Vec<u64>,
) -> Result<Outcome, Fail> {
    let script = script.as_bytes().to_vec(alloc)?;
    let mut source = FaultSource::new(MemSource::new(script), reads);
    let mut printed = sink(alloc, writes)?;
    let mut disk = memory_disk(alloc)?;
    let status = run_cluster(alloc, words, &mut source, &mut printed, &mut disk);
    Ok(Outcome { status, printed })
}

/// Runs a script without faults at its edges.
fn run_well(alloc: Global, words: &[&str], script: &str) -> Result<Outcome, Fail> {
    run_in_memory(alloc, words, script, Vec::new(alloc), Vec::new(alloc))
}

/// Runs a script on a disk.
fn run_on<D: PortDisk>(alloc: Global, disk: &mut D) -> Result<Outcome, Fail> {
    let mut source = MemSource::new(TWICE.as_bytes().to_vec(alloc)?);
    let mut printed = sink(alloc, Vec::new(alloc))?;
    let status = run_cluster(alloc, RUN, &mut source, &mut printed, disk);
    Ok(Outcome { status, printed })
}

/// Judges a text.
fn judge(alloc: Global, text: &[u8]) -> Result<Outcome, Fail> {
    let mut source = MemSource::new(text.to_vec(alloc)?);
    let mut printed = sink(alloc, Vec::new(alloc))?;
    let status = run_judge(alloc, ["judge"].as_slice(), &mut source, &mut printed);
    Ok(Outcome { status, printed })
}

#[test]
fn runs_end_as_their_scripts_and_words_say(rt: HostRuntime) -> Result<(), Fail> {
    let alloc = rt.alloc();
    let runs = [
        (RUN, "clients 1", 0, "run clients 1 window 4\nend 0\n"),
        (RUN, "", 3, "BadScript 1 First\n"),
        (
            RUN,
            "clients 1\nc0 stat /a\nc0 read 0 0",
            3,
            "BadScript 3 Count\n",
        ),
        (RUN, "clients 1\n\0\n", 3, "BadScript 2 Byte\n"),
        (RUN, "clients 1\nc0 write 0 0 A0\n", 3, "BadScript 2 Hex\n"),
        (["run", "now"].as_slice(), TWICE, 2, "Usage\n"),
        ([].as_slice(), TWICE, 2, "Usage\n"),
    ];
    for (words, script, code, text) in runs {
        let ended = run_well(alloc, words, script)?;
        assert_eq!(rt; ended.status.code(), code, "{script}");
        assert!(rt; ended.printed.bytes() == text.as_bytes(), "{script}");
    }
    Ok(())
}

#[test]
fn a_failing_edge_ends_the_run(rt: HostRuntime) -> Result<(), Fail> {
    let alloc = rt.alloc();
    let reads = vec![in alloc; 0]?;
    let ended = run_in_memory(alloc, RUN, TWICE, reads, Vec::new(alloc))?;
    assert_eq!(rt; ended.status.code(), 4);
    assert!(rt; ended.printed.bytes() == b"ReadFault\n".as_slice());
    let writes = vec![in alloc; 2]?;
    let ended = run_in_memory(alloc, RUN, TWICE, Vec::new(alloc), writes)?;
    assert_eq!(rt; ended.status.code(), 5);
    assert!(rt; ended.printed.bytes() == TWICE_BEGINS.as_bytes());
    Ok(())
}

#[test]
fn a_disk_that_fails_or_is_taken_is_told(rt: HostRuntime) -> Result<(), Fail> {
    let alloc = rt.alloc();
    // Call 0 is the fence, and call 1 the first write.
    let mut failing = FaultDisk::new(memory_disk(alloc)?, vec![in alloc; 1]?);
    let ended = run_on(alloc, &mut failing)?;
    assert_eq!(rt; ended.status.code(), 6);
    assert!(rt; ended.printed.bytes() == b"DiskFault\n".as_slice());
    let mut taken = memory_disk(alloc)?;
    let _key = taken.fence(View(7));
    let ended = run_on(alloc, &mut taken)?;
    assert_eq!(rt; ended.status.code(), 9);
    assert!(rt; ended.printed.bytes() == b"KeyTaken 7\n".as_slice());
    Ok(())
}

#[test]
fn what_a_run_prints_is_legal(rt: HostRuntime) -> Result<(), Fail> {
    let alloc = rt.alloc();
    let ended = run_well(alloc, RUN, TWICE)?;
    assert_eq!(rt; ended.status.code(), 0);
    let judged = judge(alloc, ended.printed.bytes())?;
    assert_eq!(rt; judged.status.code(), 0);
    Ok(())
}
