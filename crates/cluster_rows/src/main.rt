//! Runs scripts of whole clusters, and prints the text of each.
//!
//! Standard input is sections. A section is a line `## NAME`, and behind it the lines of a script as the program
//! `calypso run` takes it, comments and empty lines included. Printed is the line `## NAME` again, and behind it the
//! text that the run of that script gives, or the one line that tells why it isn't run.
//!
//! Each script has a cluster and a disk of its own, so no section changes what another prints. A section without lines
//! is its name alone. A comment of a script begins with one `#`: a line that begins with `## ` is the next section.
#![tactic(auto)]

use cal_base::{MemSink, MemSource, Oom};
use cluster_run::run_cluster;
use row_lines::Failure;
use run_status::Status;
use shared_disk::MemDisk;
use std::alloc::Global;
use std::io;
use std::io::{BufRead, BufReader, Write};

/// What a run of this script on a new disk prints.
fn run_script(alloc: Global, script: &[u8]) -> Result<MemSink, Oom> {
    let mut source = MemSource::new(script.to_vec(alloc)?);
    let mut text = MemSink::new(alloc)?;
    let mut disk = MemDisk::new(alloc)?;
    match run_cluster(alloc, &["run"], &mut source, &mut text, &mut disk) {
        Status::OutOfMemory => Err(Oom),
        _ => Ok(text),
    }
}

/// Runs the lines that were read since the last name, if there are any, and forgets them.
fn end_section<W: Write>(
    alloc: Global,
    printed: &mut W,
    script: &mut Vec<u8>,
) -> Result<(), Failure> {
    if !script.is_empty() {
        let text = run_script(alloc, script.as_slice())?;
        printed.write_all(text.bytes())?;
        script.clear();
    }
    Ok(())
}

/// Runs the sections of standard input.
fn run_sections(rt: &(impl Input + Print + AllocGlobal)) -> Result<(), Failure> {
    let alloc = rt.alloc();
    let mut printed = io::writer(rt);
    let mut script = Vec::new(alloc);
    for line in BufReader::new(alloc, rt.reader())?.lines(alloc) {
        let line = line?;
        if line.as_str().starts_with("## ") {
            end_section(alloc, &mut printed, &mut script)?;
            printed.write_all(line.as_str().as_bytes())?;
            printed.write_all(b"\n")?;
        } else {
            script.extend_from_slice(line.as_str().as_bytes())?;
            script.extend_from_slice(b"\n")?;
        }
    }
    end_section(alloc, &mut printed, &mut script)
}

fn main(rt: HostRuntime) -> Result<(), Failure> {
    run_sections(&rt)
}
