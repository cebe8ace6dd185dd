ghost use Rattle.std.specs.Prelude.{◌≡◌, ◌+◌, IfOk, get_or, length, slice_set};
ghost use Rattle.script.specs.Spelling.{IsClient};
ghost use Rattle.run_trace.specs.Counted.{CountsCalls, IsCounted, StartsAtClient};
ghost use Rattle.run_trace.specs.Past.{Past, after_step, number_of, place_of, start, views_by};

use cal_base::{ClientId, Oom, View};
use cluster_law::{Event, TraceStep};
use trace_text::Place;

/// Clients of one cluster, as a length.
const CLIENTS: usize = cal_base::CLIENTS as usize;

/// What the items so far come to, by numbers alone.
#[derive(Clone, Copy)]
pub(crate) struct Counts {
    /// How many steps there were.
    pub steps: u64,
    /// How many packets were sent.
    pub packets: u64,
    /// The view that is open.
    pub view: u64,
    /// How many calls each client has started.
    pub calls: [u64; CLIENTS],
}

/// A number and more; where 64 bits don't hold it, there is no memory for what it counts.
fn more(number: u64, by: u64) -> Result<u64, Oom>
    ensures { IfOk result (λ sum. sum ≡ number + by) }
{
    match number.checked_add(by) {
        Some(sum) => Ok(sum),
        None => Err(Oom),
    }
}

/// How many views an event opens.
fn views_by(event: &Event) -> u64
    ensures { result ≡ views_by event.now }
{
    match event {
        Event::Start { client: _, call: _ } => 0,
        Event::Deliver { packet: _, stop: _ } => 0,
        Event::Tick { node: _, stop: _ } => 0,
        Event::Crash { node: _ } => 0,
        Event::NewView { server: _, stop: _ } => 1,
        Event::Gone { client: _ } => 0,
        Event::WriteBack { client: _, fd: _ } => 0,
    }
}

/// The counts of calls with one more of this client.
fn with_call(calls: [u64; CLIENTS], client: ClientId) -> Result<[u64; CLIENTS], Oom>
    requires { IsClient client }
    ensures { IfOk result (λ next. next ≡ slice_set calls client.0 (get_or calls client.0 0 + 1)) }
{
    let place = usize::from(client.0);
    let mut next = calls;
    next[place] = more(calls[place], 1)?;
    Ok(next)
}

/// The counts of calls behind an event.
fn calls_after(calls: [u64; CLIENTS], event: &Event) -> Result<[u64; CLIENTS], Oom>
    requires { StartsAtClient event.now }
    ensures { IfOk result (λ next. CountsCalls calls event.now next) }
{
    match event {
        Event::Start { client, call: _ } => with_call(calls, *client),
        Event::Deliver { packet: _, stop: _ } => Ok(calls),
        Event::Tick { node: _, stop: _ } => Ok(calls),
        Event::Crash { node: _ } => Ok(calls),
        Event::NewView { server: _, stop: _ } => Ok(calls),
        Event::Gone { client: _ } => Ok(calls),
        Event::WriteBack { client: _, fd: _ } => Ok(calls),
    }
}

impl Counts {
    /// Before the first item.
    pub fn start() -> Counts
        ensures { IsCounted start result }
    {
        Counts {
            steps: 0,
            packets: 0,
            view: 1,
            calls: [0; CLIENTS],
        }
    }

    /// The number of the call that an event starts; 0 where it starts none.
    fn number_of(&self, event: &Event) -> Result<u64, Oom>
        requires { StartsAtClient event.now }
        ensures { (past : Past) → IsCounted past self.now → IfOk result (λ number. number ≡ number_of past event.now) }
    {
        match event {
            Event::Start { client, call: _ } => more(self.calls[usize::from(client.0)], 1),
            Event::Deliver { packet: _, stop: _ } => Ok(0),
            Event::Tick { node: _, stop: _ } => Ok(0),
            Event::Crash { node: _ } => Ok(0),
            Event::NewView { server: _, stop: _ } => Ok(0),
            Event::Gone { client: _ } => Ok(0),
            Event::WriteBack { client: _, fd: _ } => Ok(0),
        }
    }

    /// The place of a step with this event.
    pub fn place_of(&self, event: &Event) -> Result<Place, Oom>
        requires { StartsAtClient event.now }
        ensures place { (past : Past) → IsCounted past self.now → IfOk result (λ place. place ≡ place_of past event.now) }
        ensures packet { IfOk result (λ place. place.packet ≡ self.now.packets) }
    {
        let call = self.number_of(event)?;
        let view = more(self.view, 1)?;
        Ok(Place {
            step: self.steps,
            packet: self.packets,
            call,
            view: View(view),
        })
    }

    /// Behind a step.
    pub fn after(&self, step: &TraceStep) -> Result<Counts, Oom>
        requires { StartsAtClient step.now.event }
        ensures counts { (past : Past) → IsCounted past self.now → IfOk result (λ counts. IsCounted (after_step past step.now) counts) }
        ensures packets { IfOk result (λ counts. counts.packets ≡ self.now.packets + length step.now.sent) }
    {
        Ok(Counts {
            steps: more(self.steps, 1)?,
            packets: more(self.packets, step.sent.len() as u64)?,
            view: more(self.view, views_by(&step.event))?,
            calls: calls_after(self.calls, &step.event)?,
        })
    }
}
