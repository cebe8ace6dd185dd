ghost use Rattle.std.specs.Prelude.{◌≡◌, not, is_some, slice_get, None as Missing};
ghost use Rattle.membership.specs.Membership.{standing_of};
ghost use Rattle.world.specs.Refusals.{CanHappen, declares_the_living, is_dead, is_unknown, is_unknown_node, lacks_packet, names_nobody, receiver_is_down, refusal_of, stands_gone, starts_while_busy};
ghost use Rattle.world.specs.World.{stands_running};

use crate::cluster::Cluster;
use cal_base::{ClientId, NodeId, Oom};
use cluster_law::Event;
use membership::Standing;

/// Why an event can't happen. The world is as it was.
#[derive(Clone, Copy, Debug, PartialEq, Eq)]
pub enum Refused {
    /// It names a client that there isn't.
    NoSuch,
    /// The packet isn't sent yet.
    NoPacket,
    /// The node doesn't run, or the client is declared gone already.
    Dead,
    /// A call of the client is outstanding.
    Busy,
    /// The client hasn't crashed.
    Alive,
}

/// Why a step was not made.
#[derive(Clone, Copy, Debug, PartialEq, Eq)]
pub enum StepRefused {
    Refused(Refused),
    /// Memory ran out: the world is spent.
    OutOfMemory,
}

impl From<Oom> for StepRefused {
    ghost use Rattle.std.specs.Prelude.{◌≡◌};
    ghost use Rattle.world.specs.declared.refusals.StepRefused.TheVariants.{OutOfMemory};

    ghost from_gives = { λ _ e. e ≡ OutOfMemory };

    fn from(_error: Oom) -> StepRefused {
        StepRefused::OutOfMemory
    }
}

impl Cluster {
    /// Why an event can't happen, by the first reason that there is.
    pub(crate) fn refusal(&self, event: &Event) -> Option<Refused>
        ensures refusal { result ≡ refusal_of self.now event.now }
        ensures none { result ≡ Missing → CanHappen self.now event.now }
    {
        if self.names_nobody(event) {
            Some(Refused::NoSuch)
        } else if self.lacks_packet(event) {
            Some(Refused::NoPacket)
        } else if self.is_dead(event) {
            Some(Refused::Dead)
        } else if self.starts_while_busy(event) {
            Some(Refused::Busy)
        } else if self.declares_the_living(event) {
            Some(Refused::Alive)
        } else {
            None
        }
    }

    /// Whether the event names a client that there isn't.
    fn names_nobody(&self, event: &Event) -> bool
        ensures { result ≡ names_nobody self.now event.now }
    {
        match event {
            Event::Start { client, call: _ } => self.is_unknown(*client),
            Event::Deliver { packet: _, stop: _ } => false,
            Event::Tick { node, stop: _ } => self.is_unknown_node(*node),
            Event::Crash { node } => self.is_unknown_node(*node),
            Event::NewView { server: _, stop: _ } => false,
            Event::Gone { client } => self.is_unknown(*client),
            Event::WriteBack { client, fd: _ } => self.is_unknown(*client),
        }
    }

    fn is_unknown_node(&self, node: NodeId) -> bool
        ensures { result ≡ is_unknown_node self.now node }
    {
        match node {
            NodeId::Client(client) => self.is_unknown(client),
            NodeId::Server(_) => false,
        }
    }

    fn is_unknown(&self, client: ClientId) -> bool
        ensures { result ≡ is_unknown self.now client }
    {
        !self.members.standing(client).is_some()
    }

    /// Whether the packet of a Deliver isn't sent yet.
    fn lacks_packet(&self, event: &Event) -> bool
        ensures { result ≡ lacks_packet self.now event.now }
    {
        match event {
            Event::Start { client: _, call: _ } => false,
            Event::Deliver { packet, stop: _ } => !self.packets.is_sent(*packet),
            Event::Tick { node: _, stop: _ } => false,
            Event::Crash { node: _ } => false,
            Event::NewView { server: _, stop: _ } => false,
            Event::Gone { client: _ } => false,
            Event::WriteBack { client: _, fd: _ } => false,
        }
    }

    /// Whether the client of a Gone is declared already, or the node of another event doesn't run.
    fn is_dead(&self, event: &Event) -> bool
        ensures { result ≡ is_dead self.now event.now }
    {
        match event {
            Event::Start { client, call: _ } => !self.runs(NodeId::Client(*client)),
            Event::Deliver { packet, stop: _ } => self.receiver_is_down(*packet),
            Event::Tick { node, stop: _ } => !self.runs(*node),
            Event::Crash { node } => !self.runs(*node),
            Event::NewView { server: _, stop: _ } => false,
            Event::Gone { client } => stands_gone(self.members.standing(*client)),
            Event::WriteBack { client, fd: _ } => !self.runs(NodeId::Client(*client)),
        }
    }

    /// Whether the receiver of a packet doesn't run.
    fn receiver_is_down(&self, number: u64) -> bool
        ensures { result ≡ receiver_is_down self.now (slice_get self.now.packets number) }
    {
        match self.packets.get(number) {
            None => false,
            Some(packet) => !self.runs(packet.to),
        }
    }

    /// Whether a call is outstanding where one is to start.
    fn starts_while_busy(&self, event: &Event) -> bool
        ensures { result ≡ starts_while_busy self.now event.now }
    {
        match event {
            Event::Start { client, call: _ } => self.busy(*client),
            Event::Deliver { packet: _, stop: _ } => false,
            Event::Tick { node: _, stop: _ } => false,
            Event::Crash { node: _ } => false,
            Event::NewView { server: _, stop: _ } => false,
            Event::Gone { client: _ } => false,
            Event::WriteBack { client: _, fd: _ } => false,
        }
    }

    /// Whether the client of a Gone hasn't crashed.
    fn declares_the_living(&self, event: &Event) -> bool
        ensures { result ≡ declares_the_living self.now event.now }
    {
        match event {
            Event::Start { client: _, call: _ } => false,
            Event::Deliver { packet: _, stop: _ } => false,
            Event::Tick { node: _, stop: _ } => false,
            Event::Crash { node: _ } => false,
            Event::NewView { server: _, stop: _ } => false,
            Event::Gone { client } => stands_running(self.members.standing(*client)),
            Event::WriteBack { client: _, fd: _ } => false,
        }
    }
}

fn stands_gone(standing: Option<Standing>) -> bool
    ensures { result ≡ stands_gone standing }
{
    match standing {
        None => false,
        Some(Standing::Runs) => false,
        Some(Standing::Crashed) => false,
        Some(Standing::Gone) => true,
    }
}

fn stands_running(standing: Option<Standing>) -> bool
    ensures { result ≡ stands_running standing }
{
    match standing {
        None => false,
        Some(Standing::Runs) => true,
        Some(Standing::Crashed) => false,
        Some(Standing::Gone) => false,
    }
}
