ghost use Rattle.std.specs.Prelude.{◌≡◌};
ghost use Rattle.trace_reader.specs.Adding.{bare_step, event_of};

use cal_base::{Items, NodeId};
use cluster_law::{Event, TraceStep};
use std::alloc::Global;
use trace_lines::StepEvent;

/// The event that a node's step line tells, if it can be that node's.
pub(crate) fn event_of(actor: Option<NodeId>, event: StepEvent) -> Option<Event>
    ensures { result ≡ event_of actor event }
{
    match event {
        StepEvent::Start { number: _, call } => match actor {
            Some(NodeId::Client(client)) => Some(Event::Start { client, call }),
            Some(NodeId::Server(_)) => None,
            None => None,
        },
        StepEvent::Deliver { packet, stop } => match actor {
            Some(_) => Some(Event::Deliver { packet, stop }),
            None => None,
        },
        StepEvent::Tick { stop } => match actor {
            Some(node) => Some(Event::Tick { node, stop }),
            None => None,
        },
        StepEvent::Crash => match actor {
            Some(node) => Some(Event::Crash { node }),
            None => None,
        },
        StepEvent::NewView { view: _, stop } => match actor {
            Some(NodeId::Server(server)) => Some(Event::NewView { server, stop }),
            Some(NodeId::Client(_)) => None,
            None => None,
        },
        StepEvent::Gone { client } => match actor {
            Some(_) => None,
            None => Some(Event::Gone { client }),
        },
        StepEvent::WriteBack { fd } => match actor {
            Some(NodeId::Client(client)) => Some(Event::WriteBack { client, fd }),
            Some(NodeId::Server(_)) => None,
            None => None,
        },
    }
}

/// A step of which its first line alone is read.
pub(crate) fn bare_step(alloc: Global, actor: Option<NodeId>, event: Event) -> TraceStep
    ensures { result ≡ bare_step actor event }
{
    TraceStep {
        node: actor,
        event,
        writes: Items::new(alloc),
        entries: Items::new(alloc),
        sent: Items::new(alloc),
        answer: None,
        head: None,
        halt: None,
    }
}
