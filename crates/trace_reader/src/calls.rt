ghost use Rattle.std.specs.Prelude.{◌≡◌, ◌∷◌, ◌++◌, [], IfOk, OnOk, get_or, slice_set};
ghost use Rattle.cluster_law.specs.Lists.{numbered};
ghost use Rattle.trace_reader.specs.Adding.{no_calls, noted};

use cal_base::{CLIENTS, ClientId, Items, Oom};
use cluster_law::Event;
use std::alloc::Global;
use std::marker::Model;
use tree_law::Call;

/// The calls that each client has started, in order, by client.
#[derive(Drop)]
pub(crate) struct CallTable {
    lists: Vec<Items<Call>>,
}

impl Model for CallTable {
    ghost use Rattle.std.specs.Prelude.{List};
    ghost use Rattle.tree_law.specs.declared.call.Call.{Call};

    ghost Value = { List (List Call) };

    ghost view = { λ it. it.lists.items };
}

/// A copy of a call.
fn copy_of(call: &Call) -> Result<Call, Oom>
    ensures { IfOk result (λ copy. copy ≡ call.now) }
{
    let copy = call.clone()?;
    Ok(copy)
}

/// A list for each client.
fn empty_lists(alloc: Global) -> Result<Vec<Items<Call>>, Oom>
    ensures { IfOk result (λ lists. lists.items ≡ no_calls) }
{
    let mut lists = Vec::new(alloc);
    for _ in 0..CLIENTS {
        lists.push(Items::new(alloc))?;
    }
    Ok(lists)
}

/// A copy of the call of this number, from 1, if there is one.
fn numbered(list: &[Call], number: u64) -> Result<Option<Call>, Oom>
    ensures { IfOk result (λ call. call ≡ numbered list.now number) }
{
    if number == 0 {
        return Ok(None);
    }
    match list.get((number - 1) as usize) {
        None => Ok(None),
        Some(call) => {
            let copy = copy_of(call)?;
            Ok(Some(copy))
        }
    }
}

/// Puts a call behind those of a list.
fn push_call(list: &mut Items<Call>, call: Call) -> Result<(), Oom>
    ensures { OnOk result (list.new ≡ list.old ++ call ∷ []) }
{
    list.push(call)
}

impl CallTable {
    /// No call.
    pub fn new(alloc: Global) -> Result<CallTable, Oom>
        ensures { IfOk result (λ table. table ≡ no_calls) }
    {
        let lists = empty_lists(alloc)?;
        Ok(CallTable { lists })
    }

    /// Notes that a client starts a call.
    fn note_call(&mut self, client: ClientId, call: Call) -> Result<(), Oom>
        ensures { OnOk result (self.new ≡ slice_set self.old client.0 (get_or self.old client.0 [] ++ call ∷ [])) }
    {
        let place = usize::from(client.0);
        if place >= self.lists.len() {
            return Ok(());
        }
        push_call(&mut self.lists[place], call)
    }

    /// Notes the call that an event starts, if it starts one.
    pub fn note(&mut self, event: &Event) -> Result<(), Oom>
        ensures { OnOk result (self.new ≡ noted self.old event.now) }
    {
        match event {
            Event::Start { client, call } => {
                let copy = copy_of(call)?;
                self.note_call(*client, copy)
            }
            Event::Deliver { packet: _, stop: _ } => Ok(()),
            Event::Tick { node: _, stop: _ } => Ok(()),
            Event::Crash { node: _ } => Ok(()),
            Event::NewView { server: _, stop: _ } => Ok(()),
            Event::Gone { client: _ } => Ok(()),
            Event::WriteBack { client: _, fd: _ } => Ok(()),
        }
    }

    /// A copy of the call that this client has started under this number, if there is one.
    pub fn call_of(&self, client: ClientId, number: u64) -> Result<Option<Call>, Oom>
        ensures { IfOk result (λ call. call ≡ numbered (get_or self.now client.0 []) number) }
    {
        match self.lists.get(usize::from(client.0)) {
            None => Ok(None),
            Some(list) => numbered(list.as_slice(), number),
        }
    }
}
