use crate::given::Given;
use cal_base::{Oom, Sector, ServerId};
use cluster_law::{Halt, SectorWrite, ServerHalted, ServerOutput};
use row_lines::Lines;
use token_kind::{Block, Class};
use tree_law::Entry;

/// Puts the lines of what was given.
pub(crate) fn put_given(lines: &mut Lines, given: &Given) -> Result<(), Oom> {
    match given {
        Given::Nothing => Ok(()),
        Given::Refused => lines.put_refused(),
        Given::RowEnd => lines.end(),
        Given::Step(output) => put_output(lines, output),
        Given::Halt(server, halted) => put_halted(lines, *server, halted),
    }
}

/// Puts the lines of a step: its writes, its entries, its packets, and what blocks the head of the line.
fn put_output(lines: &mut Lines, output: &ServerOutput) -> Result<(), Oom> {
    put_writes(lines, output.writes.as_slice())?;
    put_entries(lines, output.entries.as_slice())?;
    lines.put_packets(output.sent.as_slice())?;
    put_head_if(lines, &output.head)
}

/// Puts the lines of a step that halts: its writes, its entries, and why.
fn put_halted(lines: &mut Lines, server: ServerId, halted: &ServerHalted) -> Result<(), Oom> {
    put_writes(lines, halted.writes.as_slice())?;
    put_entries(lines, halted.entries.as_slice())?;
    lines.put_server("halt ", server)?;
    put_cause(lines, halted.halt)?;
    lines.end()
}

/// Puts the lines of writes.
fn put_writes(lines: &mut Lines, writes: &[SectorWrite]) -> Result<(), Oom> {
    for (sector, bytes) in writes {
        put_write(lines, *sector, bytes)?;
    }
    Ok(())
}

/// Puts the line of a write.
fn put_write(lines: &mut Lines, sector: u32, bytes: &Sector) -> Result<(), Oom> {
    lines.put_field("write ", u64::from(sector))?;
    lines.put_hex(" ", front_of(bytes))?;
    lines.end()
}

/// Bytes without the zeros at their end.
fn front_of(bytes: &[u8]) -> &[u8] {
    let mut front = bytes;
    while let [before @ .., 0] = front {
        front = before;
    }
    front
}

/// Puts the lines of entries.
fn put_entries(lines: &mut Lines, entries: &[Entry]) -> Result<(), Oom> {
    for entry in entries {
        lines.put_entry(entry)?;
    }
    Ok(())
}

/// Puts what blocks the head of the line, if something does.
fn put_head_if(lines: &mut Lines, head: &Option<Block>) -> Result<(), Oom> {
    match head {
        Some(block) => put_head(lines, block),
        None => Ok(()),
    }
}

/// Puts the line of a request at the head and the hold that blocks it.
fn put_head(lines: &mut Lines, block: &Block) -> Result<(), Oom> {
    lines.put_client("head ", block.client)?;
    lines.put_field(" ", block.number)?;
    lines.put_client(" blocked ", block.holder)?;
    lines.put_field(" ", u64::from(block.ino.0))?;
    put_class(lines, block.class)?;
    lines.end()
}

/// Puts a class behind a space.
fn put_class(lines: &mut Lines, class: Class) -> Result<(), Oom> {
    match class {
        Class::Names => lines.put(" Names"),
        Class::Data => lines.put(" Data"),
        Class::Attr => lines.put(" Attr"),
        Class::Open => lines.put(" Open"),
    }
}

/// Puts why a server halts.
fn put_cause(lines: &mut Lines, halt: Halt) -> Result<(), Oom> {
    match halt {
        Halt::Fenced { mine, current } => {
            lines.put_field(" fenced ", mine.0)?;
            lines.put_field(" ", current.0)
        }
        Halt::Failed { faults } => lines.put_field(" failed ", faults),
        Halt::Stopped => lines.put(" stopped"),
        Halt::Damaged { sector } => lines.put_field(" damaged ", u64::from(sector)),
    }
}
