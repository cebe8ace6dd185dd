ghost use Rattle.std.specs.Prelude.{◌≡◌};
ghost use Rattle.trace_text.specs.Packets.{body_name, kind_name};
ghost use Rattle.trace_lines.specs.Places.{class_of, cause_of, settled_of};

use line_words::OutOfForm;
use token_kind::Class;
use trace_text::{Cause, Settled};

/// The class of a hold.
pub(crate) fn class_of(word: &[u8]) -> Result<Class, OutOfForm>
    ensures { result ≡ class_of word.now }
{
    if word == b"Names".as_slice() {
        Ok(Class::Names)
    } else if word == b"Data".as_slice() {
        Ok(Class::Data)
    } else if word == b"Attr".as_slice() {
        Ok(Class::Attr)
    } else if word == b"Open".as_slice() {
        Ok(Class::Open)
    } else {
        Err(OutOfForm)
    }
}

/// Why an event is refused.
pub(crate) fn cause_of(word: &[u8]) -> Result<Cause, OutOfForm>
    ensures { result ≡ cause_of word.now }
{
    if word == b"NoSuch".as_slice() {
        Ok(Cause::NoSuch)
    } else if word == b"NoPacket".as_slice() {
        Ok(Cause::NoPacket)
    } else if word == b"Dead".as_slice() {
        Ok(Cause::Dead)
    } else if word == b"Busy".as_slice() {
        Ok(Cause::Busy)
    } else if word == b"Alive".as_slice() {
        Ok(Cause::Alive)
    } else {
        Err(OutOfForm)
    }
}

/// How a `settle` ends.
pub(crate) fn settled_of(word: &[u8]) -> Result<Settled, OutOfForm>
    ensures { result ≡ settled_of word.now }
{
    if word == b"idle".as_slice() {
        Ok(Settled::Idle)
    } else if word == b"stuck".as_slice() {
        Ok(Settled::Stuck)
    } else if word == b"spent".as_slice() {
        Ok(Settled::Spent)
    } else {
        Err(OutOfForm)
    }
}

/// The name of the message that begins with this byte.
fn kind_name(kind: u8) -> &'static str
    ensures { result.now ≡ kind_name kind }
{
    match kind {
        1 => "Acquire",
        2 => "Grant",
        3 => "Refuse",
        4 => "Change",
        5 => "Done",
        6 => "Flush",
        7 => "Flushed",
        8 => "Revoke",
        9 => "Release",
        10 => "Ask",
        11 => "Piece",
        12 => "Wait",
        13 => "Admit",
        _ => "-",
    }
}

/// The name of what a packet carries.
pub(crate) fn body_name(body: &[u8]) -> &'static str
    ensures { result.now ≡ body_name body.now }
{
    match body {
        [] => "Ack",
        [kind, ..] => kind_name(*kind),
    }
}
