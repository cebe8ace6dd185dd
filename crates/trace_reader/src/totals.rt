ghost use Rattle.std.specs.Prelude.{◌≡◌, ◌+◌, ◌<◌, ◌^◌, IfOk, OnOk};
ghost use Rattle.run_trace.specs.Past.{Past, after, after_all, start};
ghost use Rattle.trace_reader.specs.Totals.{IsTotal};

use cal_base::Oom;
use run_trace::TraceItem;

/// How many steps there were, and how many packets were sent.
#[derive(Clone, Copy)]
struct Totals {
    steps: u64,
    packets: u64,
}

/// A number and more; where 64 bits don't hold it, there is no memory for what it counts.
fn more(number: u64, by: u64) -> Result<u64, Oom>
    ensures { IfOk result (λ sum. sum ≡ number + by) }
{
    match number.checked_add(by) {
        Some(sum) => Ok(sum),
        None => Err(Oom),
    }
}

/// The counts behind an item.
fn totals_after(totals: Totals, item: &TraceItem) -> Result<Totals, Oom>
    ensures { (past : Past) → IsTotal past totals → IfOk result (λ next. IsTotal (after past item.now) next) }
{
    match item {
        TraceItem::Step(step) => Ok(Totals {
            steps: more(totals.steps, 1)?,
            packets: more(totals.packets, step.sent.len() as u64)?,
        }),
        TraceItem::Refused { line: _, cause: _ } => Ok(totals),
        TraceItem::Settled {
            line: _,
            cycles: _,
            how: _,
        } => Ok(totals),
    }
}

/// The counts behind all items.
fn totals_of(items: &[TraceItem]) -> Result<Totals, Oom>
    ensures { IfOk result (λ totals. IsTotal (after_all start items.now) totals) }
{
    let mut totals = Totals {
        steps: 0,
        packets: 0,
    };
    for item in items {
        totals = totals_after(totals, item)?;
    }
    Ok(totals)
}

/// Takes want of memory where there are more steps, packets or views than numbers of 64 bits count, which no
/// memory holds.
pub(crate) fn check_totals(items: &[TraceItem]) -> Result<(), Oom>
    ensures steps { OnOk result ((after_all start items.now).steps < 2 ^ 64) }
    ensures packets { OnOk result ((after_all start items.now).packets < 2 ^ 64) }
    ensures view { OnOk result ((after_all start items.now).view < 2 ^ 64) }
{
    let totals = totals_of(items)?;
    if totals.steps < u64::MAX {
        Ok(())
    } else {
        Err(Oom)
    }
}
