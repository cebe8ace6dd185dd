ghost use Rattle.std.specs.Prelude.{◌≡◌, ◌<◌, ◌+◌, ◌^◌, All, IfOk, OnOk, length};
ghost use Rattle.script.specs.Spelling.{IsLine};
ghost use Rattle.schedule.specs.Choosing.{Chooses, HasSpelledEvent};
ghost use Rattle.schedule.specs.Noted.{after_step};
ghost use Rattle.schedule.specs.Schedule.{begun};
ghost use Rattle.schedule.specs.Turns.{LeavesFewer, turns_left};

use crate::choice::{Choice, Settle};
use crate::noting::note_step;
use crate::stops::ArmedStops;
use cal_base::{Items, Oom};
use cluster_law::TraceStep;
use packet_links::Links;
use script::Line;
use std::alloc::Global;
use std::collections::VecDeque;
use std::marker::Model;
use std::mem;
use world::World;

/// What is still to come of a script, and what the run of it has left: the packets that wait, the stops that are
/// armed, and the `settle` that is under way.
#[derive(Drop)]
pub struct Schedule {
    pub(crate) alloc: Global,
    pub(crate) lines: VecDeque<(u32, Line)>,
    pub(crate) links: Links,
    pub(crate) stops: ArmedStops,
    pub(crate) settle: Option<Settle>,
}

impl Model for Schedule {
    ghost use Rattle.schedule.specs.Schedule.{IsSchedule, ScheduleValue};

    ghost Value = { ScheduleValue };

    ghost view = { λ it. record { lines = it.lines.items; links = it.links; stops = it.stops; settle = it.settle } };

    ghost invariant = { λ it. IsSchedule (record { lines = it.lines.items; links = it.links; stops = it.stops; settle = it.settle }) };
}

impl Schedule {
    /// The schedule of these lines, of which none is carried out: no packet waits, no link is cut, and no stop is
    /// armed.
    ///
    /// # Errors
    /// Want of memory.
    pub fn new(alloc: Global, lines: Items<(u32, Line)>) -> Result<Schedule, Oom>
        requires { All (λ line. IsLine line.1) lines }
        ensures { IfOk result (λ schedule. schedule ≡ begun lines) }
    {
        Ok(Schedule {
            alloc,
            lines: VecDeque::from(lines.into_vec()),
            links: Links::new(alloc)?,
            stops: ArmedStops { a: None, b: None },
            settle: None,
        })
    }

    /// What comes next, where the cluster stands so: a turn of the `settle` that is under way, else the next line.
    ///
    /// # Errors
    /// Want of memory: the schedule is spent then.
    pub fn next(&mut self, world: &World) -> Result<Choice, Oom>
        ensures chooses { IfOk result (λ choice. Chooses world.now self.old choice self.new) }
        ensures spelled { IfOk result HasSpelledEvent }
        ensures sooner { IfOk result (λ choice. LeavesFewer choice self.old self.new) }
    {
        prove!(world.clients() <= u8::MAX);
        match mem::replace(&mut self.settle, None) {
            Some(settle) => {
                let choice = self.choose_in_settle(world, settle)?;
                Ok(choice)
            }
            None => Ok(self.choose_by_line(world)),
        }
    }

    /// Takes notice of a step that was made, as the cluster stands after it; `first` is the number of the first packet
    /// that it sent. All of its packets have numbers below 2^64.
    ///
    /// # Errors
    /// Want of memory: the schedule is spent then.
    pub fn note(&mut self, world: &World, first: u64, step: &TraceStep) -> Result<(), Oom>
        requires { first + length step.now.sent < 2 ^ 64 }
        ensures noted { OnOk result (self.new ≡ after_step world.now self.old first step.now) }
        ensures turns { OnOk result (turns_left self.new ≡ turns_left self.old) }
    {
        self.stops.note(step);
        if let Some(settle) = &mut self.settle {
            settle.note(step);
        }
        note_step(&mut self.links, world, first, step)
    }
}
