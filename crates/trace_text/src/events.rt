ghost use Rattle.std.specs.Prelude.{◌≡◌, ◌++◌, codes, OnOk};
ghost use Rattle.std.specs.Fmt.{decimal};
ghost use Rattle.trace_text.specs.Calls.{call_text};
ghost use Rattle.trace_text.specs.Events.{event_text, how_text, start_text, stop_text};

use crate::calls::put_call;
use crate::sectors::put_sector;
use cal_base::{Oom, Sector};
use cluster_law::Event;
use reply_text::{put, put_field};
use shared_disk::Stop;
use tree_law::Call;

/// Puts what a stop leaves of the write that it cuts off.
fn put_how(text: &mut Vec<u8>, torn: &Option<Sector>) -> Result<(), Oom>
    ensures { OnOk result (text.new.items ≡ text.old.items ++ how_text torn.now) }
{
    match torn {
        None => put(text, "clean"),
        Some(sector) => put_sector(text, sector),
    }
}

/// Puts the stop that is armed on an event, if there is one.
fn put_stop(text: &mut Vec<u8>, stop: &Option<Stop>) -> Result<(), Oom>
    ensures { OnOk result (text.new.items ≡ text.old.items ++ stop_text stop.now) }
{
    match stop {
        None => Ok(()),
        Some(stop) => {
            put_field(text, " stop ", u64::from(stop.after))?;
            put(text, " ")?;
            put_how(text, &stop.torn)
        }
    }
}

/// Puts that a client starts its call of this number.
pub(crate) fn put_start(text: &mut Vec<u8>, number: u64, call: &Call) -> Result<(), Oom>
    ensures { OnOk result (text.new.items ≡ text.old.items ++ start_text number call.now) }
{
    put_field(text, "start ", number)?;
    put(text, " ")?;
    put_call(text, call)
}

/// Puts words, and the stop that is armed on them.
fn put_stopped(text: &mut Vec<u8>, words: &str, stop: &Option<Stop>) -> Result<(), Oom>
    ensures { OnOk result (text.new.items ≡ text.old.items ++ words.now ++ stop_text stop.now) }
{
    put(text, words)?;
    put_stop(text, stop)
}

/// Puts words and a number, and the stop that is armed on them.
fn put_stopped_field(
    text: &mut Vec<u8>,
    words: &str,
    number: u64,
    stop: &Option<Stop>,
) -> Result<(), Oom>
    ensures { OnOk result (text.new.items ≡ text.old.items ++ words.now ++ decimal number ++ stop_text stop.now) }
{
    put_field(text, words, number)?;
    put_stop(text, stop)
}

/// Puts an event, where `number` is that of the call that it starts and `view` is the view that it opens.
pub(crate) fn put_event(
    text: &mut Vec<u8>,
    number: u64,
    view: u64,
    event: &Event,
) -> Result<(), Oom>
    ensures { OnOk result (text.new.items ≡ text.old.items ++ event_text number view event.now) }
{
    match event {
        Event::Start { client: _, call } => put_start(text, number, call),
        Event::Deliver { packet, stop } => put_stopped_field(text, "deliver ", *packet, stop),
        Event::Tick { node: _, stop } => put_stopped(text, "tick", stop),
        Event::Crash { node: _ } => put(text, "crash"),
        Event::NewView { server: _, stop } => put_stopped_field(text, "view ", view, stop),
        Event::Gone { client } => put_field(text, "gone c", u64::from(client.0)),
        Event::WriteBack { client: _, fd } => put_field(text, "writeback ", u64::from(*fd)),
    }
}
