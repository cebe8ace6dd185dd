use cal_base::Items;
use cluster_law::TraceStep;
use trace_text::{Cause, Settled};

/// One item of a run.
#[derive(Debug, Drop)]
pub enum TraceItem {
    /// A step of the cluster.
    Step(TraceStep),
    /// The event of this line of the script, counted from 1, could not happen.
    Refused {
        line: u32,
        cause: Cause,
    },
    /// The `settle` of this line of the script, counted from 1, ended after so many cycles.
    Settled {
        line: u32,
        cycles: u64,
        how: Settled,
    },
}

/// A whole run.
#[derive(Debug, Drop)]
pub struct Trace {
    /// How many clients there are, 1 to 16.
    pub clients: u8,
    /// How many clients a server asks at a time after a takeover, 1 to 8.
    pub window: u8,
    /// The items in the order of the text.
    pub items: Items<TraceItem>,
}
