ghost use Rattle.std.specs.Prelude.{◌≡◌, IfOk};
ghost use Rattle.schedule.specs.Lines.{Chosen};
ghost use Rattle.schedule.specs.Noted.{settle_after};
ghost use Rattle.schedule.specs.Schedule.{IsSettle, MayGoOn};
ghost use Rattle.schedule.specs.Settling.{Goes, SettlesOn, begins_round, ends, ends_round, goes_on, ticks_next, ticks_node};

use crate::choice::{Choice, Phase, Settle};
use crate::due::{due_nodes, first_to_running};
use crate::schedule::Schedule;
use cal_base::{Items, NodeId, Oom};
use cluster_law::{Event, TraceStep};
use trace_text::Settled;
use world::World;

/// After so many rounds in a row that came to nothing a `settle` ends.
const QUIET_ROUNDS: u8 = 8;

impl Settle {
    /// Takes notice of a step: an answer or an accepted write is something.
    pub(crate) fn note(&mut self, step: &TraceStep)
        ensures { self.new ≡ settle_after step.now self.old }
    {
        self.moved = self.moved || step.answer.is_some() || step.writes.len() > 0;
    }
}

impl Schedule {
    /// What comes next in a `settle`.
    pub(crate) fn choose_in_settle(&mut self, world: &World, settle: Settle) -> Result<Choice, Oom>
        requires formed { IsSettle settle }
        requires apart { self.old.settle ≡ None }
        ensures { IfOk result (λ choice. SettlesOn world.now self.old settle (record { choice = choice; after = self.new })) }
    {
        let Settle {
            line,
            left,
            cycles,
            quiet,
            moved,
            phase,
        } = settle;
        match phase {
            Phase::Delivers => self.deliver_next(
                world,
                Settle {
                    line,
                    left,
                    cycles,
                    quiet,
                    moved,
                    phase: Phase::Delivers,
                },
            ),
            Phase::Ticks { due, made } => Ok(self.tick_next(
                Settle {
                    line,
                    left,
                    cycles,
                    quiet,
                    moved,
                    phase: Phase::Delivers,
                },
                due,
                made,
            )),
        }
    }

    /// The lowest packet that waits for a running node is delivered. Where there is none, the nodes that aren't idle
    /// begin to tick, or the `settle` ends.
    fn deliver_next(&mut self, world: &World, settle: Settle) -> Result<Choice, Oom>
        requires formed { IsSettle settle }
        requires apart { self.old.settle ≡ None }
        ensures { IfOk result (λ choice. Goes world.now self.old settle (record { choice = choice; after = self.new })) }
    {
        match first_to_running(world, &self.links) {
            Some(packet) => {
                let moved = settle.moved || world.takes(packet);
                let event = self.delivery(world, packet);
                Ok(self.go_on(Settle { moved, ..settle }, event))
            }
            None => {
                let due = due_nodes(self.alloc, world)?;
                Ok(self.begin_round(settle, due))
            }
        }
    }

    /// A round of ticks begins, or the `settle` ends where all nodes are idle.
    fn begin_round(&mut self, settle: Settle, due: Items<NodeId>) -> Choice
        requires formed { IsSettle settle }
        requires apart { self.old.settle ≡ None }
        ensures { record { choice = result; after = self.new } ≡ begins_round self.old settle due }
    {
        match due.as_slice().first().copied() {
            Some(node) => {
                let cycles = settle.cycles + 1;
                let phase = Phase::Ticks { due, made: 1 };
                self.tick_node(
                    Settle {
                        cycles,
                        phase,
                        ..settle
                    },
                    node,
                )
            }
            None => self.end(settle, Settled::Idle),
        }
    }

    /// The next of the nodes that are due ticks, or the round is over.
    fn tick_next(&mut self, settle: Settle, due: Items<NodeId>, made: usize) -> Choice
        requires formed { IsSettle settle }
        requires apart { self.old.settle ≡ None }
        ensures { record { choice = result; after = self.new } ≡ ticks_next self.old settle due made }
    {
        match due.as_slice().get(made).copied() {
            Some(node) => {
                let phase = Phase::Ticks {
                    due,
                    made: made + 1,
                };
                self.tick_node(Settle { phase, ..settle }, node)
            }
            None => self.end_round(settle),
        }
    }

    /// A node that is due ticks, if a step is left.
    fn tick_node(&mut self, settle: Settle, node: NodeId) -> Choice
        requires formed { MayGoOn settle }
        requires apart { self.old.settle ≡ None }
        ensures { record { choice = result; after = self.new } ≡ ticks_node self.old settle node }
    {
        let event = self.tick(node);
        self.go_on(settle, event)
    }

    /// A round is over: packets are delivered again, or the `settle` ends where eight rounds came to nothing.
    fn end_round(&mut self, settle: Settle) -> Choice
        requires formed { IsSettle settle }
        requires apart { self.old.settle ≡ None }
        ensures { record { choice = result; after = self.new } ≡ ends_round self.old settle }
    {
        let quiet = if settle.moved { 0 } else { settle.quiet + 1 };
        if quiet == QUIET_ROUNDS {
            return self.end(settle, Settled::Stuck);
        }
        self.settle = Some(Settle {
            quiet,
            moved: false,
            phase: Phase::Delivers,
            ..settle
        });
        Choice::Nothing
    }

    /// A further step is due: it is made, or the `settle` ends where it may make none.
    fn go_on(&mut self, settle: Settle, event: Event) -> Choice
        requires formed { MayGoOn settle }
        requires apart { self.old.settle ≡ None }
        ensures { record { choice = result; after = self.new } ≡ goes_on self.old settle event }
    {
        if settle.left == 0 {
            return self.end(settle, Settled::Spent);
        }
        let line = settle.line;
        let left = settle.left - 1;
        self.settle = Some(Settle { left, ..settle });
        Choice::Event { line, event }
    }

    fn end(&mut self, settle: Settle, how: Settled) -> Choice
        requires { self.old.settle ≡ None }
        ensures { record { choice = result; after = self.new } ≡ ends self.old settle how }
    {
        Choice::Settled {
            line: settle.line,
            cycles: settle.cycles,
            how,
        }
    }
}
