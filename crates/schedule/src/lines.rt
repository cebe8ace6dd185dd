ghost use Rattle.std.specs.Prelude.{◌≡◌, slice_get};
ghost use Rattle.schedule.specs.Choosing.{ChoosesLine};
ghost use Rattle.schedule.specs.Lines.{Chosen, are_there, begun_settle, chosen_by, delivery, is_there, loses, passes, passes_first, tick};
ghost use Rattle.schedule.specs.Schedule.{IsSettle};
ghost use Rattle.schedule.specs.declared.choice.Choice.TheVariants.{Event as Happens, Refused as IsRefused};

use crate::budget::settle_budget;
use crate::choice::{Choice, Phase, Settle};
use crate::due::outstanding;
use crate::schedule::Schedule;
use crate::stops::torn_by;
use cal_base::NodeId;
use cluster_law::Event;
use script::Line;
use shared_disk::Stop;
use world::{Refused, World};

impl Schedule {
    /// What comes by the next line; the end where there is none.
    pub(crate) fn choose_by_line(&mut self, world: &World) -> Choice
        ensures { ChoosesLine world.now self.old self.old.lines (record { choice = result; after = self.new }) }
    {
        match self.lines.pop_front() {
            None => Choice::End,
            Some((number, line)) => self.choose(world, number, line),
        }
    }

    /// What comes by a line.
    fn choose(&mut self, world: &World, number: u32, line: Line) -> Choice
        ensures { record { choice = result; after = self.new } ≡ chosen_by world.now self.old number line }
    {
        match line {
            Line::Call(client, call) => happens(number, Event::Start { client, call }),
            Line::Deliver(packet) => happens(number, self.delivery(world, packet)),
            Line::Drop(packet) => self.lose(world, number, packet),
            Line::Pass(from, to) => self.pass(world, number, from, to),
            Line::Cut(from, to) => {
                self.links.cut(from, to);
                Choice::Nothing
            }
            Line::Mend(from, to) => {
                self.links.mend(from, to);
                Choice::Nothing
            }
            Line::Tick(node) => happens(number, self.tick(node)),
            Line::Crash(node) => happens(number, Event::Crash { node }),
            Line::Gone(client) => happens(number, Event::Gone { client }),
            Line::View(server) => happens(
                number,
                Event::NewView {
                    server,
                    stop: self.stops.on(server),
                },
            ),
            Line::WriteBack(client, fd) => happens(number, Event::WriteBack { client, fd }),
            Line::Stop { server, after, how } => {
                self.stops.put(
                    server,
                    Some(Stop {
                        after,
                        torn: torn_by(&how),
                    }),
                );
                Choice::Nothing
            }
            Line::Settle => {
                self.settle = Some(begin_settle(world, number));
                Choice::Nothing
            }
        }
    }

    /// The delivery of a packet, with the stop that is armed on its receiver.
    pub(crate) fn delivery(&self, world: &World, packet: u64) -> Event
        ensures { result ≡ delivery world.now self.now packet }
    {
        let stop = match world.packet(packet) {
            Some(found) => self.stops.of_node(found.to),
            None => None,
        };
        Event::Deliver { packet, stop }
    }

    /// The tick of a node, with the stop that is armed on it.
    pub(crate) fn tick(&self, node: NodeId) -> Event
        ensures { result ≡ tick self.now node }
    {
        Event::Tick {
            node,
            stop: self.stops.of_node(node),
        }
    }

    /// A packet counts as lost.
    fn lose(&mut self, world: &World, number: u32, packet: u64) -> Choice
        ensures { record { choice = result; after = self.new } ≡ loses self.old number packet (slice_get world.now.packets packet) }
    {
        match world.packet(packet) {
            Some(found) => {
                self.links.remove(packet, found.from, found.to);
                Choice::Nothing
            }
            None => refuse(number, Refused::NoPacket),
        }
    }

    /// The lowest packet that waits on a link is delivered.
    fn pass(&mut self, world: &World, number: u32, from: NodeId, to: NodeId) -> Choice
        ensures { record { choice = result; after = self.new } ≡ passes world.now self.old number from to }
    {
        if are_there(world, from, to) {
            self.pass_first(world, number, self.links.first(from, to))
        } else {
            refuse(number, Refused::NoSuch)
        }
    }

    /// The delivery of the lowest packet that waits on a link, if there is one.
    fn pass_first(&self, world: &World, number: u32, first: Option<u64>) -> Choice
        ensures { record { choice = result; after = self.now } ≡ passes_first world.now self.now number first }
    {
        match first {
            Some(packet) => happens(number, self.delivery(world, packet)),
            None => refuse(number, Refused::NoPacket),
        }
    }
}

/// An event of the cluster.
fn happens(line: u32, event: Event) -> Choice
    ensures { result ≡ Happens line event }
{
    Choice::Event { line, event }
}

/// The line can't be carried out.
fn refuse(line: u32, why: Refused) -> Choice
    ensures { result ≡ IsRefused line why }
{
    Choice::Refused { line, why }
}

/// Whether there are both nodes of a link.
fn are_there(world: &World, from: NodeId, to: NodeId) -> bool
    ensures { result ≡ are_there world.now from to }
{
    is_there(world, from) && is_there(world, to)
}

/// Whether there is such a node in the cluster.
fn is_there(world: &World, node: NodeId) -> bool
    ensures { result ≡ is_there world.now node }
{
    match node {
        NodeId::Client(client) => client.0 < world.clients(),
        NodeId::Server(_) => true,
    }
}

/// A `settle` as it begins.
fn begin_settle(world: &World, line: u32) -> Settle
    ensures is { result ≡ begun_settle world.now line }
    ensures formed { IsSettle result }
{
    Settle {
        line,
        left: settle_budget(outstanding(world), u32::from(world.clients())),
        cycles: 0,
        quiet: 0,
        moved: false,
        phase: Phase::Delivers,
    }
}
