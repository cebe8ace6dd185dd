ghost use Rattle.std.specs.Prelude.{◌≡◌, ◌+◌, ◌<◌, ◌≤◌, length, IsErrOf};
ghost use Rattle.run_status.specs.declared.printout.PrintError.TheVariants.{OutOfMemory, WriteFault};
ghost use Rattle.run_status.specs.Printing.{Held, Prints};

use cal_base::{Failed, Oom, Sink};
use memchr::memchr;

/// Why a text was not printed whole.
#[derive(Clone, Copy, Debug, PartialEq, Eq)]
pub enum PrintError {
    /// The sink failed; it has got a prefix of the text.
    WriteFault,
    /// There was no room for the text; nothing of it was printed.
    OutOfMemory,
}

impl From<Oom> for PrintError {
    ghost from_gives = { λ _ e. e ≡ OutOfMemory };

    fn from(_error: Oom) -> PrintError {
        PrintError::OutOfMemory
    }
}

impl From<Failed> for PrintError {
    ghost from_gives = { λ _ e. e ≡ WriteFault };

    fn from(_error: Failed) -> PrintError {
        PrintError::WriteFault
    }
}

/// Writes a piece for which there is room.
fn write<K: Sink>(sink: &mut K, piece: &[u8]) -> Result<(), PrintError>
    requires { length piece.now ≤ K.room sink.old }
    ensures prints { Prints (record { held = K.held sink.old; faults = K.fault_count sink.old }) piece.now result (record { held = K.held sink.new; faults = K.fault_count sink.new }) }
    ensures room { K.room sink.old ≤ K.room sink.new + length piece.now }
    ensures room_found { IsErrOf result PrintError.OutOfMemory → ⊥ }
{
    match sink.write(piece) {
        Ok(()) => Ok(()),
        Err(Failed) => Err(PrintError::WriteFault),
    }
}

/// Where the first line of a text ends.
fn line_end(text: &[u8]) -> usize
    requires { 0 < length text.now }
    ensures some { 0 < result }
    ensures within { result ≤ length text.now }
{
    match memchr(b'\n', text) {
        Some(at) => at + 1,
        None => text.len(),
    }
}

/// Writes a text, for which there is room, line by line.
fn write_lines<K: Sink>(sink: &mut K, text: &[u8]) -> Result<(), PrintError>
    requires { length text.now ≤ K.room sink.old }
    ensures { Prints (record { held = K.held sink.old; faults = K.fault_count sink.old }) text.now result (record { held = K.held sink.new; faults = K.fault_count sink.new }) }
{
    let mut rest = text;
    while !rest.is_empty() {
        let (line, behind) = rest.split_at(line_end(rest));
        match write(sink, line) {
            Ok(()) => rest = behind,
            Err(error) => return Err(error),
        }
    }
    Ok(())
}

/// Prints a text: takes room for all of it, and then writes it line by line.
pub fn print<K: Sink>(sink: &mut K, text: &[u8]) -> Result<(), PrintError>
    ensures { Prints (record { held = K.held sink.old; faults = K.fault_count sink.old }) text.now result (record { held = K.held sink.new; faults = K.fault_count sink.new }) }
{
    match sink.reserve(text.len()) {
        Ok(()) => write_lines(sink, text),
        Err(Oom) => Err(PrintError::OutOfMemory),
    }
}
