//! The program `calypso`: runs a script of a cluster from standard input and prints what came of it, or judges
//! such a text.
//!
//! With the one word `run` it reads a script from standard input, carries it out on a disk in memory, prints its steps
//! to standard output, and ends with the status that [`run_cluster`] answers. With the one word `judge` it reads a
//! text and ends as [`run_judge`] answers. With any other words, those that are no UTF-8 included, it prints `Usage`
//! and ends with 2. What is read, printed and answered is promised by the contracts of these two; this crate only
//! hands them the words, the input and the output of the process, and the disk. What they print goes out in large
//! pieces.
#![tactic(auto)]

use cal_base::{Oom, Sink, Source, StdSink, StdSource};
use cluster_run::run_cluster;
use judge_run::run_judge;
use run_status::Status;
use shared_disk::MemDisk;
use std::alloc::Global;
use std::env::FillError;
use std::io;
use std::io::{BufWriter, Write};
use std::process::ExitCode;
use std::rt::Env;

/// More bytes than a word of any command has.
const WORD_BYTES: usize = 64;

/// The word of the command line at this place, where 0 is the program's name; none behind the last. A
/// word that is no UTF-8, or too long to be one of a command, is the empty word: like it, it is no
/// word of a command.
fn word(rt: &(impl Env + AllocGlobal), index: usize) -> Result<Option<String>, Oom> {
    let mut buffer = [0; WORD_BYTES];
    let length = match rt.arg(index, &mut buffer) {
        Ok(length) => length,
        Err(FillError::TooLong) => 0,
        Err(FillError::NotPresent) => return Ok(None),
    };
    let bytes = buffer.get(..length).unwrap_or(&[]);
    let text = str::from_utf8(bytes).unwrap_or("");
    Ok(Some(String::from_str(rt.alloc(), text)?))
}

/// The words of the command line behind the program's name.
fn words(rt: &(impl Env + AllocGlobal)) -> Result<Vec<String>, Oom> {
    let mut words = Vec::new(rt.alloc());
    for index in 1..usize::MAX {
        let Some(word) = word(rt, index)? else {
            break;
        };
        words.push(word)?;
    }
    Ok(words)
}

/// Runs the command of these words over a source and a sink.
fn run_command<S: Source, K: Sink>(
    alloc: Global,
    words: &[&str],
    source: &mut S,
    sink: &mut K,
) -> Result<Status, Oom> {
    if let ["judge", ..] = words {
        return Ok(run_judge(alloc, words, source, sink));
    }
    let mut disk = MemDisk::new(alloc)?;
    Ok(run_cluster(alloc, words, source, sink, &mut disk))
}

/// Runs the command of these words over standard input and output. What couldn't be written at the end is a write
/// that failed.
fn run(rt: &(impl Input + Print + AllocGlobal), words: &[String]) -> Result<Status, Oom> {
    let alloc = rt.alloc();
    let mut texts = Vec::new(alloc);
    for word in words {
        texts.push(word.as_str())?;
    }
    let Ok(mut writer) = BufWriter::new(alloc, io::writer(rt)) else {
        return Err(Oom);
    };
    let mut source = StdSource::new(rt.reader());
    let mut sink = StdSink::new(&mut writer);
    let status = run_command(alloc, texts.as_slice(), &mut source, &mut sink)?;
    drop(sink);
    match writer.flush() {
        Ok(()) => Ok(status),
        Err(_) => Ok(Status::WriteFault),
    }
}

fn main(rt: HostRuntime) -> ExitCode {
    let status = match words(&rt) {
        Ok(words) => run(&rt, words.as_slice()).unwrap_or(Status::OutOfMemory),
        Err(Oom) => Status::OutOfMemory,
    };
    ExitCode::from(status.code())
}
