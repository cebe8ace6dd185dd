//! Plays steps of clients, one a line of standard input, and prints what each gives.
//!
//! A line tells what comes to a client:
//!
//! - `cX start CALL`: a call starts, spelled as in a script;
//! - `cX hear FROM TO VIEW SEQ ACK BODY`: a packet comes, its body in hexadecimal, or `-` for none;
//! - `cX tick`: a tick;
//! - `cX writeback F`: the file of a descriptor is to be flushed.
//!
//! An empty line ends a row, and is printed again: the clients behind it are new ones. A step gives, each in a line:
//!
//! - `entry call cX N new - reply R`: the entry of a call that the client answered by itself;
//! - `send FROM TO VIEW SEQ ACK BODY`: a packet, in the order in which they are sent;
//! - `ans cX N R`: the answer to a call;
//! - or `refused` alone: the call may not start, and the client is as it was.
//!
//! A line of any other form ends the program with an error.
//!
//! A client does all this without a network, a disk or a server: what comes to it is all that it needs.
#![tactic(auto)]

mod clients;
mod reading;
mod text;

use crate::clients::Clients;
use crate::reading::{Line, read_line};
use crate::text::put_output;
use cal_base::Oom;
use row_lines::{Failure, Lines};
use std::alloc::Global;
use std::io;
use std::io::{BufRead, BufReader, Write};

/// What a line gives, in lines.
fn play(alloc: Global, clients: &mut Clients, line: Line) -> Result<Lines, Oom> {
    let mut lines = Lines::new(alloc);
    match line {
        Line::Ends => {
            *clients = Clients::new(alloc);
            lines.end()?;
        }
        Line::Comes(client, input) => match clients.step(client, input)? {
            Some(output) => put_output(&mut lines, client, &output)?,
            None => lines.put_refused()?,
        },
    }
    Ok(lines)
}

/// Plays all lines of standard input.
fn play_all(rt: &(impl Input + Print + AllocGlobal)) -> Result<(), Failure> {
    let alloc = rt.alloc();
    let mut clients = Clients::new(alloc);
    let mut printed = io::writer(rt);
    for line in BufReader::new(alloc, rt.reader())?.lines(alloc) {
        let line = line?;
        let line = read_line(alloc, line.as_str().as_bytes())?;
        let lines = play(alloc, &mut clients, line)?;
        printed.write_all(lines.as_slice())?;
    }
    Ok(())
}

fn main(rt: HostRuntime) -> Result<(), Failure> {
    play_all(&rt)
}
