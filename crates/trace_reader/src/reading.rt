ghost use Rattle.std.specs.Prelude.{◌≡◌, None, OnOk, IfOk};
ghost use Rattle.trace_reader.specs.Adding.{closed, items_with, nothing};
ghost use Rattle.trace_reader.specs.declared.reading.Reading.{Reading};

use crate::calls::CallTable;
use cal_base::{Items, Oom};
use cluster_law::TraceStep;
use run_trace::TraceItem;
use std::alloc::Global;

/// What was read of a run so far.
#[derive(Drop)]
pub(crate) struct Reading {
    /// The items that are read whole, in order.
    pub items: Items<TraceItem>,
    /// The step under way, of which more lines may follow.
    pub step: Option<TraceStep>,
    /// The calls that clients have started.
    pub calls: CallTable,
}

/// Puts the step that was under way, if there is one, behind the items.
fn push_step(items: &mut Items<TraceItem>, step: Option<TraceStep>) -> Result<(), Oom>
    ensures { OnOk result (items.new ≡ items_with items.old step) }
{
    match step {
        None => Ok(()),
        Some(step) => items.push(TraceItem::Step(step)),
    }
}

impl Reading {
    /// Nothing yet.
    pub fn new(alloc: Global) -> Result<Reading, Oom>
        ensures { IfOk result (λ reading. reading ≡ nothing) }
    {
        let calls = CallTable::new(alloc)?;
        Ok(Reading {
            items: Items::new(alloc),
            step: None,
            calls,
        })
    }

    /// Ends the step under way, if there is one.
    pub fn close(&mut self) -> Result<(), Oom>
        ensures { OnOk result (self.new ≡ record { items = closed self.old; step = None; calls = self.old.calls }) }
    {
        let step = self.step.take();
        push_step(&mut self.items, step)
    }

    /// The items, with the step under way, if there is one, as the last.
    pub fn finish(self) -> Result<Items<TraceItem>, Oom>
        ensures { IfOk result (λ items. items ≡ closed self) }
    {
        let Reading {
            mut items,
            step,
            calls: _,
        } = self;
        push_step(&mut items, step)?;
        Ok(items)
    }
}
