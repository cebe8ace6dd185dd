ghost use Rattle.std.specs.Prelude.{◌≡◌, ◌-◌, ◌<◌, ◌^◌, ◌++◌, [], All, IfOk, OnOk, OnErr, length};
ghost use Rattle.cluster_run.specs.Following.{GoesOnSo, TurnEnds};
ghost use Rattle.cluster_run.specs.Happening.{CarriesSo, HappensSo, IsCounted, KeepsRoom, MakesOneStep, place_after};
ghost use Rattle.run_status.specs.Printing.{Held, Prints};
ghost use Rattle.cluster_run.specs.Turns.{HasRoom, IsLeft, Standing, call_in, cause_of};
ghost use Rattle.schedule.specs.Choosing.{HasSpelledEvent};
ghost use Rattle.schedule.specs.Noted.{after_step};
ghost use Rattle.schedule.specs.Schedule.{begun};
ghost use Rattle.schedule.specs.Turns.{turns_left};
ghost use Rattle.script.specs.Spelling.{IsLine};
ghost use Rattle.trace_text.specs.Line.{line};
ghost use Rattle.trace_text.specs.Runs.{end_line, run_line};
ghost use Rattle.trace_text.specs.Steps.{step_text};
ghost use Rattle.world.specs.Step.{IsSpelled};

use cal_base::{Items, Oom, Sink, View};
use cluster_law::{Event, TraceStep};
use run_status::{PrintError, print};
use schedule::{Choice, Schedule};
use script::Line;
use shared_disk::PortDisk;
use std::alloc::Global;
use trace_text::{Cause, Place, put_end, put_refused, put_run, put_settled, put_step};
use world::{Refused, StepRefused, World, a_step_is_counted};

/// Whether a run goes on.
#[derive(Clone, Copy, Debug, PartialEq, Eq)]
pub enum Turn {
    GoesOn,
    Ends,
}

/// A run: the cluster, what is still to come, and room for the lines of one turn.
#[derive(Drop)]
pub(crate) struct Run {
    pub(crate) world: World,
    pub(crate) schedule: Schedule,
    text: Vec<u8>,
}

impl Run {
    /// A run of these lines on a new cluster.
    pub(crate) fn new(alloc: Global, world: World, lines: Items<(u32, Line)>) -> Result<Run, Oom>
        requires { All (λ line. IsLine line.1) lines }
        ensures world { IfOk result (λ run. run.world ≡ world) }
        ensures schedule { IfOk result (λ run. run.schedule ≡ begun lines) }
    {
        Ok(Run {
            world,
            schedule: Schedule::new(alloc, lines)?,
            text: Vec::new(alloc),
        })
    }

    /// Takes turn after turn until nothing is left to come.
    pub(crate) fn go_on<K: Sink, D: PortDisk>(
        &mut self,
        sink: &mut K,
        disk: &mut D,
    ) -> Result<(), PrintError>
        requires { HasRoom (record { world = self.old.world; schedule = self.old.schedule; disk = D.means disk.old; faults = D.fault_count disk.old }) }
        ensures { GoesOnSo (record { world = self.old.world; schedule = self.old.schedule; disk = D.means disk.old; faults = D.fault_count disk.old }) (record { held = K.held sink.old; faults = K.fault_count sink.old }) result (record { world = self.new.world; schedule = self.new.schedule; disk = D.means disk.new; faults = D.fault_count disk.new }) (record { held = K.held sink.new; faults = K.fault_count sink.new }) }
    {
        loop {
            match self.turn(sink, disk) {
                Ok(Turn::GoesOn) => {}
                Ok(Turn::Ends) => return Ok(()),
                Err(error) => return Err(error),
            }
        }
    }

    /// Carries out what comes next, and prints its lines.
    fn turn<K: Sink, D: PortDisk>(&mut self, sink: &mut K, disk: &mut D) -> Result<Turn, PrintError>
        requires { HasRoom (record { world = self.old.world; schedule = self.old.schedule; disk = D.means disk.old; faults = D.fault_count disk.old }) }
        ensures turn { TurnEnds (record { world = self.old.world; schedule = self.old.schedule; disk = D.means disk.old; faults = D.fault_count disk.old }) (record { held = K.held sink.old; faults = K.fault_count sink.old }) result (record { world = self.new.world; schedule = self.new.schedule; disk = D.means disk.new; faults = D.fault_count disk.new }) (record { held = K.held sink.new; faults = K.fault_count sink.new }) }
        ensures room { KeepsRoom (record { world = self.old.world; schedule = self.old.schedule; disk = D.means disk.old; faults = D.fault_count disk.old }) result (record { world = self.new.world; schedule = self.new.schedule; disk = D.means disk.new; faults = D.fault_count disk.new }) }
    {
        let choice = self.schedule.next(&self.world)?;
        match self.carry_out(disk, choice)? {
            Turn::Ends => Ok(Turn::Ends),
            Turn::GoesOn => {
                print(sink, self.text.as_slice())?;
                Ok(Turn::GoesOn)
            }
        }
    }

    /// Carries out what was chosen, and puts its lines in the place of those of the last turn.
    fn carry_out<D: PortDisk>(&mut self, disk: &mut D, choice: Choice) -> Result<Turn, Oom>
        requires spelled { HasSpelledEvent choice }
        requires room { self.old.world.steps < 2 ^ 48 }
        ensures carries { CarriesSo (record { world = self.old.world; schedule = self.old.schedule; disk = D.means disk.old; faults = D.fault_count disk.old }) choice result self.new.text.items (record { world = self.new.world; schedule = self.new.schedule; disk = D.means disk.new; faults = D.fault_count disk.new }) }
        ensures steps { OnOk result (MakesOneStep (record { world = self.old.world; schedule = self.old.schedule; disk = D.means disk.old; faults = D.fault_count disk.old }) (record { world = self.new.world; schedule = self.new.schedule; disk = D.means disk.new; faults = D.fault_count disk.new })) }
    {
        self.text.clear();
        match choice {
            Choice::End => return Ok(Turn::Ends),
            Choice::Nothing => {}
            Choice::Event { line, event } => self.happen(disk, line, event)?,
            Choice::Refused { line, why } => put_refused(&mut self.text, line, cause_of(why))?,
            Choice::Settled { line, cycles, how } => {
                put_settled(&mut self.text, line, cycles, how)?
            }
        }
        Ok(Turn::GoesOn)
    }

    /// Lets an event happen, or tells why it can't.
    fn happen<D: PortDisk>(&mut self, disk: &mut D, line: u32, event: Event) -> Result<(), Oom>
        requires spelled { IsSpelled event }
        requires room { self.old.world.steps < 2 ^ 48 }
        requires empty { self.old.text.items ≡ [] }
        ensures happens { OnOk result (HappensSo (record { world = self.old.world; schedule = self.old.schedule; disk = D.means disk.old; faults = D.fault_count disk.old }) line event self.new.text.items (record { world = self.new.world; schedule = self.new.schedule; disk = D.means disk.new; faults = D.fault_count disk.new })) }
        ensures oom { OnErr result (IsLeft (record { world = self.old.world; schedule = self.old.schedule; disk = D.means disk.old; faults = D.fault_count disk.old }) (D.means disk.new) (D.fault_count disk.new)) }
        ensures steps { OnOk result (MakesOneStep (record { world = self.old.world; schedule = self.old.schedule; disk = D.means disk.old; faults = D.fault_count disk.old }) (record { world = self.new.world; schedule = self.new.schedule; disk = D.means disk.new; faults = D.fault_count disk.new })) }
    {
        match self.world.step(disk, event) {
            Ok(step) => {
                a_step_is_counted();
                self.note(&step)
            }
            Err(StepRefused::Refused(why)) => put_refused(&mut self.text, line, cause_of(why)),
            Err(StepRefused::OutOfMemory) => Err(Oom),
        }
    }

    /// Takes notice of a step that was made, and puts its lines.
    fn note(&mut self, step: &TraceStep) -> Result<(), Oom>
        requires { IsCounted self.old.world step.now }
        ensures world { self.new.world ≡ self.old.world }
        ensures schedule { OnOk result (self.new.schedule ≡ after_step self.old.world self.old.schedule (length self.old.world.packets - length step.now.sent) step.now) }
        ensures turns { OnOk result (turns_left self.new.schedule ≡ turns_left self.old.schedule) }
        ensures text { OnOk result (self.new.text.items ≡ self.old.text.items ++ step_text (place_after self.old.world step.now) step.now) }
    {
        let packet = self.world.sent() - step.sent.len() as u64;
        self.schedule.note(&self.world, packet, step)?;
        let place = Place {
            step: self.world.steps() - 1,
            packet,
            call: self.call_in(&step.event),
            view: View(self.world.view()),
        };
        put_step(&mut self.text, place, step)
    }

    /// The number of the call that an event has started; 0 where it starts none.
    fn call_in(&self, event: &Event) -> u64
        ensures { result ≡ call_in self.now.world event.now }
    {
        match event {
            Event::Start { client, call: _ } => self.world.calls(*client),
            Event::Deliver { packet: _, stop: _ } => 0,
            Event::Tick { node: _, stop: _ } => 0,
            Event::Crash { node: _ } => 0,
            Event::NewView { server: _, stop: _ } => 0,
            Event::Gone { client: _ } => 0,
            Event::WriteBack { client: _, fd: _ } => 0,
        }
    }

    /// Prints the first line of a run: how many clients there are, and how many of them a server asks at a time.
    pub(crate) fn begin<K: Sink>(
        &mut self,
        sink: &mut K,
        clients: u8,
        window: u8,
    ) -> Result<(), PrintError>
        ensures prints { Prints (record { held = K.held sink.old; faults = K.fault_count sink.old }) (line (run_line clients window)) result (record { held = K.held sink.new; faults = K.fault_count sink.new }) }
        ensures world { self.new.world ≡ self.old.world }
        ensures schedule { self.new.schedule ≡ self.old.schedule }
    {
        self.text.clear();
        put_run(&mut self.text, clients, window)?;
        print(sink, self.text.as_slice())
    }

    /// Prints the last line of a run: how many steps were made.
    pub(crate) fn end<K: Sink>(&mut self, sink: &mut K) -> Result<(), PrintError>
        ensures { Prints (record { held = K.held sink.old; faults = K.fault_count sink.old }) (line (end_line self.old.world.steps)) result (record { held = K.held sink.new; faults = K.fault_count sink.new }) }
    {
        self.text.clear();
        put_end(&mut self.text, self.world.steps())?;
        print(sink, self.text.as_slice())
    }
}

fn cause_of(why: Refused) -> Cause
    ensures { result ≡ cause_of why }
{
    match why {
        Refused::NoSuch => Cause::NoSuch,
        Refused::NoPacket => Cause::NoPacket,
        Refused::Dead => Cause::Dead,
        Refused::Busy => Cause::Busy,
        Refused::Alive => Cause::Alive,
    }
}
