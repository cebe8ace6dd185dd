//! Judges texts of runs, and prints the verdict on each.
//!
//! Standard input is sections. A section is a line `## NAME`, and behind it the lines of a text as the program
//! `calypso run` prints it. Printed is the line `## NAME` again, and behind it the line that `calypso judge` prints of
//! that text. Where a name ends with ` cut`, the text lacks its last line feed.
#![tactic(auto)]

use cal_base::{MemSink, MemSource, Oom};
use judge_run::run_judge;
use row_lines::Failure;
use run_status::Status;
use std::alloc::Global;
use std::io;
use std::io::{BufRead, BufReader, Write};

/// A text that is read, and whether it lacks its last line feed.
#[derive(Drop)]
struct Section {
    text: Vec<u8>,
    is_cut: bool,
}

/// What the judge prints of this text.
fn judge_text(alloc: Global, text: &[u8]) -> Result<MemSink, Oom> {
    let mut source = MemSource::new(text.to_vec(alloc)?);
    let mut verdict = MemSink::new(alloc)?;
    match run_judge(alloc, &["judge"], &mut source, &mut verdict) {
        Status::OutOfMemory => Err(Oom),
        _ => Ok(verdict),
    }
}

/// Judges the text that was read since the last name, if there is one, and forgets it.
fn end_section<W: Write>(
    alloc: Global,
    printed: &mut W,
    section: &mut Section,
) -> Result<(), Failure> {
    if section.text.is_empty() {
        return Ok(());
    }
    if section.is_cut {
        section.text.pop();
    }
    let verdict = judge_text(alloc, section.text.as_slice())?;
    printed.write_all(verdict.bytes())?;
    section.text.clear();
    Ok(())
}

/// Judges the sections of standard input.
fn judge_sections(rt: &(impl Input + Print + AllocGlobal)) -> Result<(), Failure> {
    let alloc = rt.alloc();
    let mut printed = io::writer(rt);
    let mut section = Section {
        text: Vec::new(alloc),
        is_cut: false,
    };
    for line in BufReader::new(alloc, rt.reader())?.lines(alloc) {
        let line = line?;
        if line.as_str().starts_with("## ") {
            end_section(alloc, &mut printed, &mut section)?;
            section.is_cut = line.as_str().ends_with(" cut");
            printed.write_all(line.as_str().as_bytes())?;
            printed.write_all(b"\n")?;
        } else {
            section.text.extend_from_slice(line.as_str().as_bytes())?;
            section.text.extend_from_slice(b"\n")?;
        }
    }
    end_section(alloc, &mut printed, &mut section)
}

fn main(rt: HostRuntime) -> Result<(), Failure> {
    judge_sections(&rt)
}
