ghost use Rattle.std.specs.Prelude.{◌≡◌, ◌+◌, ◌<◌, ◌^◌, OnOk, length, slice_get};
ghost use Rattle.schedule.specs.Noted.{after_event, after_sent, delivered};

use cal_base::Oom;
use cluster_law::{Event, TraceStep};
use packet_links::Links;
use session::Packet;
use world::World;

/// A packet that was delivered waits no longer, and those that a step sent wait.
pub(crate) fn note_step(
    links: &mut Links,
    world: &World,
    first: u64,
    step: &TraceStep,
) -> Result<(), Oom>
    requires { first + length step.now.sent < 2 ^ 64 }
    ensures { OnOk result (links.new ≡ after_sent (after_event world.now links.old step.now.event) first step.now.sent) }
{
    note_event(links, world, &step.event);
    note_sent(links, first, step.sent.as_slice())
}

/// A packet that was delivered waits no longer.
fn note_event(links: &mut Links, world: &World, event: &Event)
    ensures { links.new ≡ after_event world.now links.old event.now }
{
    match event {
        Event::Start { .. } => {}
        Event::Deliver { packet, .. } => note_delivered(links, world, *packet),
        Event::Tick { .. } => {}
        Event::Crash { .. } => {}
        Event::NewView { .. } => {}
        Event::Gone { .. } => {}
        Event::WriteBack { .. } => {}
    }
}

fn note_delivered(links: &mut Links, world: &World, packet: u64)
    ensures { links.new ≡ delivered links.old packet (slice_get world.now.packets packet) }
{
    match world.packet(packet) {
        Some(found) => links.remove(packet, found.from, found.to),
        None => {}
    }
}

/// Packets that were sent, numbered from the first on, wait on their links.
fn note_sent(links: &mut Links, first: u64, sent: &[Packet]) -> Result<(), Oom>
    requires { first + length sent.now < 2 ^ 64 }
    ensures { OnOk result (links.new ≡ after_sent links.old first sent.now) }
{
    let mut number = first;
    for packet in sent {
        links.send(number, packet.from, packet.to)?;
        number += 1;
    }
    Ok(())
}
