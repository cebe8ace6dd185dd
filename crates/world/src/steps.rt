ghost use Rattle.std.specs.Prelude.{◌≡◌, IfOk};
ghost use Rattle.std.specs.Option.{option_to_list};
ghost use Rattle.world.specs.Trace.{bare_step, client_step, halted_step, server_step};

use cal_base::{ClientId, Items, NodeId, Oom, ServerId};
use cluster_law::{ClientOutput, Event, ServerHalted, ServerOutput, TraceStep};
use std::alloc::Global;
use tree_law::Entry;

/// A step that gives nothing.
pub(crate) fn bare_step(alloc: Global, node: Option<NodeId>, event: Event) -> TraceStep
    ensures { result ≡ bare_step node event }
{
    TraceStep {
        node,
        event,
        writes: Items::new(alloc),
        entries: Items::new(alloc),
        sent: Items::new(alloc),
        answer: None,
        head: None,
        halt: None,
    }
}

/// The step of a client.
pub(crate) fn client_step(
    alloc: Global,
    client: ClientId,
    event: Event,
    output: ClientOutput,
) -> Result<TraceStep, Oom>
    ensures { IfOk result (λ step. step ≡ client_step client event output) }
{
    let ClientOutput {
        sent,
        answer,
        entry,
    } = output;
    let entries = entries_of(alloc, entry)?;
    Ok(TraceStep {
        node: Some(NodeId::Client(client)),
        event,
        writes: Items::new(alloc),
        entries,
        sent,
        answer,
        head: None,
        halt: None,
    })
}

/// The entry of a client's step as a list. It takes memory only where there is one.
fn entries_of(alloc: Global, entry: Option<Entry>) -> Result<Items<Entry>, Oom>
    ensures { IfOk result (λ entries. entries ≡ option_to_list entry) }
{
    let mut entries = Items::new(alloc);
    if let Some(entry) = entry {
        entries.push(entry)?;
    }
    Ok(entries)
}

/// The step of a server that goes on.
pub(crate) fn server_step(server: ServerId, event: Event, output: ServerOutput) -> TraceStep
    ensures { result ≡ server_step server event output }
{
    let ServerOutput {
        sent,
        writes,
        entries,
        head,
    } = output;
    TraceStep {
        node: Some(NodeId::Server(server)),
        event,
        writes,
        entries,
        sent,
        answer: None,
        head,
        halt: None,
    }
}

/// The step of a server that halts.
pub(crate) fn halted_step(
    alloc: Global,
    server: ServerId,
    event: Event,
    halted: ServerHalted,
) -> TraceStep
    ensures { result ≡ halted_step server event halted }
{
    let ServerHalted {
        writes,
        entries,
        halt,
    } = halted;
    TraceStep {
        node: Some(NodeId::Server(server)),
        event,
        writes,
        entries,
        sent: Items::new(alloc),
        answer: None,
        head: None,
        halt: Some(halt),
    }
}
