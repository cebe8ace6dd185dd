use cal_base::{Items, NodeId};
use cluster_law::Event;
use trace_text::Settled;
use world::Refused;

/// What comes next in a run.
#[derive(Debug, Drop)]
pub enum Choice {
    /// All lines are carried out.
    End,
    /// A line that makes no event is carried out, or a round of a `settle` is over.
    Nothing,
    /// This event, by the line of this number.
    Event {
        line: u32,
        event: Event,
    },
    /// The line of this number can't be carried out.
    Refused {
        line: u32,
        why: Refused,
    },
    /// The `settle` of the line of this number ends after so many rounds of ticks.
    Settled {
        line: u32,
        cycles: u64,
        how: Settled,
    },
}

/// What a `settle` is at.
#[derive(Debug, Drop)]
pub enum Phase {
    /// The packets to running nodes are delivered, the lowest first.
    Delivers,
    /// These nodes tick, of which so many have.
    Ticks { due: Items<NodeId>, made: usize },
}

/// A `settle` that is under way.
#[derive(Debug, Drop)]
pub struct Settle {
    /// The number of its line.
    pub line: u32,
    /// How many steps it may still make.
    pub left: u64,
    /// How many rounds of ticks were begun.
    pub cycles: u64,
    /// How many rounds in a row have come to nothing.
    pub quiet: u8,
    /// Whether this round has come to something: a message was taken, a call answered or a write accepted.
    pub moved: bool,
    pub phase: Phase,
}
