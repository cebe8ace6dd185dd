ghost use Rattle.std.specs.Prelude.{◌≡◌, ◌++◌, IfOk, OnOk};
ghost use Rattle.run_trace.specs.Counted.{IsCounted, ItemStartsAtClient, StartsAtClient};
ghost use Rattle.run_trace.specs.Past.{Past, after, after_all, after_step, start};
ghost use Rattle.run_trace.specs.Texts.{item_text, items_text, text_of};
ghost use Rattle.run_trace.specs.Traces.{AreItems, IsTrace};
ghost use Rattle.run_trace.specs.declared.trace.TraceItem.TheVariants.{Step};

use crate::counts::Counts;
use crate::trace::{Trace, TraceItem};
use cal_base::{Blob, Oom};
use cluster_law::TraceStep;
use std::alloc::Global;
use trace_text::{put_end, put_refused, put_run, put_settled, put_step};

/// Puts the lines of a step behind the items that come to these counts, and counts it.
fn put_counted_step(text: &mut Vec<u8>, counts: &Counts, step: &TraceStep) -> Result<Counts, Oom>
    requires { StartsAtClient step.now.event }
    ensures lines { (past : Past) → IsCounted past counts.now → OnOk result (text.new.items ≡ text.old.items ++ item_text past (Step step.now)) }
    ensures counts { (past : Past) → IsCounted past counts.now → IfOk result (λ next. IsCounted (after_step past step.now) next) }
{
    let place = counts.place_of(&step.event)?;
    let next = counts.after(step)?;
    put_step(text, place, step)?;
    Ok(next)
}

/// Puts the lines of an item behind the items that come to these counts, and counts it.
fn put_item(text: &mut Vec<u8>, counts: Counts, item: &TraceItem) -> Result<Counts, Oom>
    requires { ItemStartsAtClient item.now }
    ensures lines { (past : Past) → IsCounted past counts → OnOk result (text.new.items ≡ text.old.items ++ item_text past item.now) }
    ensures counts { (past : Past) → IsCounted past counts → IfOk result (λ next. IsCounted (after past item.now) next) }
{
    match item {
        TraceItem::Step(step) => put_counted_step(text, &counts, step),
        TraceItem::Refused { line, cause } => {
            put_refused(text, *line, *cause)?;
            Ok(counts)
        }
        TraceItem::Settled { line, cycles, how } => {
            put_settled(text, *line, *cycles, *how)?;
            Ok(counts)
        }
    }
}

/// Puts the lines of all items, and counts the steps.
fn put_items(text: &mut Vec<u8>, items: &[TraceItem]) -> Result<u64, Oom>
    requires { AreItems start items.now }
    ensures lines { OnOk result (text.new.items ≡ text.old.items ++ items_text start items.now) }
    ensures steps { IfOk result (λ steps. steps ≡ (after_all start items.now).steps) }
{
    let mut counts = Counts::start();
    for item in items {
        counts = put_item(text, counts, item)?;
    }
    Ok(counts.steps)
}

/// The text of a run, as it is printed where the run is made. Each entry and each answer of a call has its
/// start in or before its step. Want of memory is the only error.
pub fn write_trace(alloc: Global, trace: &Trace) -> Result<Blob, Oom>
    requires { IsTrace trace.now }
    ensures { IfOk result (λ text. text ≡ text_of trace.now) }
{
    let mut text = Vec::new(alloc);
    put_run(&mut text, trace.clients, trace.window)?;
    let steps = put_items(&mut text, trace.items.as_slice())?;
    put_end(&mut text, steps)?;
    Ok(Blob::from_vec(text))
}
