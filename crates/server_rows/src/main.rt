//! Plays steps of servers on one disk in memory, one a line of standard input, and prints what each gives.
//!
//! A line is one of these; X is `A` or `B`.
//!
//! - `A format N W`: a fresh disk is formatted for N clients, 1 to 16, and server A serves view 1 with window W, 1 to 8;
//! - `X boot VIEW W`: server X boots for a view, and what it was before ends. The other server stays;
//! - `X hear FROM TO VIEW SEQ ACK BODY`: a packet comes, its body in hexadecimal, or `-` for none;
//! - `X tick`: a tick;
//! - `X crash`, `cN crash`: a server ends, or a client;
//! - `cN gone`: a client that crashed is declared gone.
//!
//! Behind a boot, a packet and a tick may stand `stop K HOW`: the server stops after so many writes. HOW is `clean`, or
//! what the next write leaves in its sector, in hexadecimal without the zeros at its end, `-` for zeros alone.
//!
//! An empty line ends a row, and is printed again: the disk and the servers behind it are new ones. A step gives, each
//! in a line:
//!
//! - `write S BYTES`: a write that the disk accepted, the sector's bytes in hexadecimal without the zeros at its end;
//! - `entry call cX N new I reply R`, `entry flush cX I`, `entry purge cX`: an entry of the history;
//! - `send FROM TO VIEW SEQ ACK BODY`: a packet;
//! - `head cX N blocked cY I CLASS`: the request at the head of the line, and the hold that blocks it;
//! - `halt X` and why: the server ends;
//! - or `refused` alone: that server doesn't run, or that client can't crash or be declared gone.
//!
//! A line of any other form ends the program with an error.
//!
//! A server does all this without a network or clients: what comes to it and the disk are all that it needs. A server
//! whose disk has a later view is late: it goes on until it is fenced.
#![tactic(auto)]

mod cluster;
mod given;
mod reading;
mod row;
mod servers;
mod text;

use crate::reading::read_line;
use crate::row::Row;
use crate::text::put_given;
use row_lines::{Failure, Lines};
use std::alloc::Global;
use std::io;
use std::io::{BufRead, BufReader, Write};

/// What a line gives, in lines.
fn play_line(alloc: Global, row: &mut Row, text: &[u8]) -> Result<Lines, Failure> {
    let line = read_line(alloc, text)?;
    let given = row.play(line)?;
    let mut lines = Lines::new(alloc);
    put_given(&mut lines, &given)?;
    Ok(lines)
}

/// Plays all lines of standard input.
fn play_all(rt: &(impl Input + Print + AllocGlobal), row: &mut Row) -> Result<(), Failure> {
    let alloc = rt.alloc();
    let mut printed = io::writer(rt);
    for line in BufReader::new(alloc, rt.reader())?.lines(alloc) {
        let line = line?;
        let lines = play_line(alloc, row, line.as_str().as_bytes())?;
        printed.write_all(lines.as_slice())?;
    }
    Ok(())
}

fn main(rt: HostRuntime) -> Result<(), Failure> {
    let mut row = Row::new(rt.alloc());
    play_all(&rt, &mut row)
}
