ghost use Rattle.std.specs.Prelude.{◌≡◌, ◌++◌, codes, OnOk};
ghost use Rattle.std.specs.Fmt.{decimal};
ghost use Rattle.trace_text.specs.Line.{line};
ghost use Rattle.trace_text.specs.Runs.{cause_word, end_line, refused_line, run_line, settled_line, settled_word};

use cal_base::Oom;
use reply_text::{put, put_field};

/// Why the event of a line of the script can't happen.
#[derive(Clone, Copy, Debug, PartialEq, Eq)]
pub enum Cause {
    /// It names a client that there isn't.
    NoSuch,
    /// There is no such packet.
    NoPacket,
    /// The node doesn't run, or the client is declared gone already.
    Dead,
    /// A call of the client is outstanding.
    Busy,
    /// The client hasn't crashed.
    Alive,
}

/// How a `settle` ends.
#[derive(Clone, Copy, Debug, PartialEq, Eq)]
pub enum Settled {
    /// Nothing is owed.
    Idle,
    /// Nothing goes on.
    Stuck,
    /// It made as many steps as it may.
    Spent,
}

/// Puts the first line of a run without its line feed.
fn put_run_words(text: &mut Vec<u8>, clients: u8, window: u8) -> Result<(), Oom>
    ensures { OnOk result (text.new.items ≡ text.old.items ++ run_line clients window) }
{
    put_field(text, "run clients ", u64::from(clients))?;
    put_field(text, " window ", u64::from(window))?;
    Ok(())
}

/// Puts the first line of a run: how many clients there are, 1 to 16, and how many of them a server asks
/// at a time after a takeover, 1 to 8.
pub fn put_run(text: &mut Vec<u8>, clients: u8, window: u8) -> Result<(), Oom>
    ensures { OnOk result (text.new.items ≡ text.old.items ++ line (run_line clients window)) }
{
    put_run_words(text, clients, window)?;
    put(text, "\n")
}

/// The word of a cause.
fn cause_word(cause: Cause) -> &'static str
    ensures { result.now ≡ cause_word cause }
{
    match cause {
        Cause::NoSuch => "NoSuch",
        Cause::NoPacket => "NoPacket",
        Cause::Dead => "Dead",
        Cause::Busy => "Busy",
        Cause::Alive => "Alive",
    }
}

/// Puts that the event of this line of the script, counted from 1, is refused.
pub fn put_refused(text: &mut Vec<u8>, line_number: u32, cause: Cause) -> Result<(), Oom>
    ensures { OnOk result (text.new.items ≡ text.old.items ++ line (refused_line line_number cause)) }
{
    put_field(text, "refused ", u64::from(line_number))?;
    put(text, " ")?;
    put(text, cause_word(cause))?;
    put(text, "\n")
}

/// The word of how a `settle` ends.
fn settled_word(how: Settled) -> &'static str
    ensures { result.now ≡ settled_word how }
{
    match how {
        Settled::Idle => "idle",
        Settled::Stuck => "stuck",
        Settled::Spent => "spent",
    }
}

/// Puts that the `settle` of this line of the script, counted from 1, ends after so many cycles.
pub fn put_settled(
    text: &mut Vec<u8>,
    line_number: u32,
    cycles: u64,
    how: Settled,
) -> Result<(), Oom>
    ensures { OnOk result (text.new.items ≡ text.old.items ++ line (settled_line line_number cycles how)) }
{
    put_field(text, "settled ", u64::from(line_number))?;
    put_field(text, " ", cycles)?;
    put(text, " ")?;
    put(text, settled_word(how))?;
    put(text, "\n")
}

/// Puts the last line of a run: how many steps there were.
pub fn put_end(text: &mut Vec<u8>, steps: u64) -> Result<(), Oom>
    ensures { OnOk result (text.new.items ≡ text.old.items ++ line (end_line steps)) }
{
    put_field(text, "end ", steps)?;
    put(text, "\n")
}
