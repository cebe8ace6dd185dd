ghost use Rattle.std.specs.Prelude.{◌≡◌, ◌<◌, ◌≤◌, ◌+◌, ◌^◌, true, is_some, length, slice_get, IfOk, OnErr, OnOk, Some as Given, None as Missing};
ghost use Rattle.client_node.specs.Node.{MayStart, NodeValue};
ghost use Rattle.cluster_law.specs.declared.step.Event.TheVariants as events;
ghost use Rattle.world.specs.Made.{IsAsBefore};
ghost use Rattle.world.specs.Refusals.{CanHappen};
ghost use Rattle.world.specs.Step.{ClientMakes, Delivers, IsNoted, IsSpelled, Makes, Opens, Receives, ServerMakes, Ticks, crashed, declared, delivering};
ghost use Rattle.world.specs.World.{IsWorld, client_at, counted, runs, server_at, stands_running};
ghost use Rattle.membership.specs.Membership.{standing_of, with_standing};
ghost use Rattle.membership.specs.declared.standing.Standing.TheVariants.{Crashed};

use crate::cluster::Cluster;
use crate::steps::{bare_step, client_step, halted_step, server_step};
use cal_base::{ClientId, NodeId, Oom, ServerId};
use cluster_law::{ClientInput, Event, ServerInput, TraceStep};
use server_node::ServerNode;
use server_start::StepError;
use session::Packet;
use shared_disk::{PortDisk, Stop};
use tree_law::Call;

impl Cluster {
    /// Lets the node of an event make its step. After want of memory a node that was at work is gone, and the disk is
    /// as it was, but for its room.
    pub(crate) fn make<D: PortDisk>(&mut self, disk: &mut D, event: Event) -> Result<TraceStep, Oom>
        requires world { IsWorld self.old }
        requires steps { self.old.steps < 2 ^ 48 }
        requires call { IsSpelled event }
        requires can { CanHappen self.old event }
        ensures made { IfOk result (λ step. Makes self.old (D.means disk.old) (D.fault_count disk.old) event step self.new (D.means disk.new) (D.fault_count disk.new)) }
        ensures oom { OnErr result (IsAsBefore (D.means disk.old) (D.means disk.new)) }
        ensures world { IsWorld (counted self.new) }
        ensures steps { self.new.steps ≡ self.old.steps }
    {
        match event {
            Event::Start { client, call } => self.start(client, call),
            Event::Deliver { packet, stop } => self.deliver(disk, packet, stop),
            Event::Tick { node, stop } => self.tick(disk, node, stop),
            Event::Crash { node } => Ok(self.crash(node)),
            Event::NewView { server, stop } => self.open_view(disk, server, stop),
            Event::Gone { client } => Ok(self.declare(client)),
            Event::WriteBack { client, fd } => self.write_back(client, fd),
        }
    }

    /// A client starts a call, which is copied once: the step has it too.
    #[tactic(auto, using(crate::proofs::Worlds::counts_on))]
    fn start(&mut self, client: ClientId, call: Call) -> Result<TraceStep, Oom>
        requires world { IsWorld self.old }
        requires steps { self.old.steps < 2 ^ 48 }
        requires call { IsSpelled (events.Start client call) }
        requires can { CanHappen self.old (events.Start client call) }
        ensures made { IfOk result (λ step. ClientMakes self.old client (ClientInput.Start call) (events.Start client call) step self.new) }
        ensures world { IsWorld (counted self.new) }
        ensures steps { self.new.steps ≡ self.old.steps }
    {
        let copy = copy_of(&call)?;
        let event = Event::Start { client, call };
        self.step_client(client, ClientInput::Start(copy), event)
    }

    /// A client flushes the file behind a descriptor.
    fn write_back(&mut self, client: ClientId, fd: u8) -> Result<TraceStep, Oom>
        requires world { IsWorld self.old }
        requires steps { self.old.steps < 2 ^ 48 }
        requires can { CanHappen self.old (events.WriteBack client fd) }
        ensures made { IfOk result (λ step. ClientMakes self.old client (ClientInput.WriteBack fd) (events.WriteBack client fd) step self.new) }
        ensures world { IsWorld (counted self.new) }
        ensures steps { self.new.steps ≡ self.old.steps }
    {
        let event = Event::WriteBack { client, fd };
        self.step_client(client, ClientInput::WriteBack(fd), event)
    }

    /// A packet comes to its receiver.
    fn deliver<D: PortDisk>(
        &mut self,
        disk: &mut D,
        number: u64,
        stop: Option<Stop>,
    ) -> Result<TraceStep, Oom>
        requires world { IsWorld self.old }
        requires steps { self.old.steps < 2 ^ 48 }
        requires can { CanHappen self.old (events.Deliver number stop) }
        ensures made { IfOk result (λ step. Delivers self.old (D.means disk.old) (D.fault_count disk.old) number stop step self.new (D.means disk.new) (D.fault_count disk.new)) }
        ensures oom { OnErr result (IsAsBefore (D.means disk.old) (D.means disk.new)) }
        ensures world { IsWorld (counted self.new) }
        ensures steps { self.new.steps ≡ self.old.steps }
    {
        let packet = self.take_packet(number)?;
        let event = Event::Deliver {
            packet: number,
            stop,
        };
        self.receive(disk, packet, stop, event)
    }

    /// A packet that was sent, once more. It is marked as delivered.
    fn take_packet(&mut self, number: u64) -> Result<Packet, Oom>
        requires sent { is_some (slice_get self.old.packets number) ≡ true }
        requires flags { length self.old.delivered ≡ length self.old.packets }
        ensures packet { IfOk result (λ packet. slice_get self.old.packets number ≡ Given packet) }
        ensures marked { OnOk result (self.new ≡ delivering self.old number) }
        ensures oom { OnErr result (self.new ≡ self.old) }
    {
        let packet = self.packets.share(number)?;
        self.packets.deliver(number);
        Ok(packet)
    }

    /// The receiver of a packet takes it.
    fn receive<D: PortDisk>(
        &mut self,
        disk: &mut D,
        packet: Packet,
        stop: Option<Stop>,
        event: Event,
    ) -> Result<TraceStep, Oom>
        requires world { IsWorld self.old }
        requires steps { self.old.steps < 2 ^ 48 }
        requires running { runs self.old packet.to ≡ true }
        ensures made { IfOk result (λ step. Receives self.old (D.means disk.old) (D.fault_count disk.old) packet.to packet stop event step self.new (D.means disk.new) (D.fault_count disk.new)) }
        ensures oom { OnErr result (IsAsBefore (D.means disk.old) (D.means disk.new)) }
        ensures world { IsWorld (counted self.new) }
        ensures steps { self.new.steps ≡ self.old.steps }
    {
        match packet.to {
            NodeId::Client(client) => {
                self.step_client(client, ClientInput::Packet(packet), event)
            }
            NodeId::Server(server) => {
                self.step_server(disk, server, ServerInput::Packet(packet), stop, event)
            }
        }
    }

    /// A node's time for resending is over.
    fn tick<D: PortDisk>(
        &mut self,
        disk: &mut D,
        node: NodeId,
        stop: Option<Stop>,
    ) -> Result<TraceStep, Oom>
        requires world { IsWorld self.old }
        requires steps { self.old.steps < 2 ^ 48 }
        requires can { CanHappen self.old (events.Tick node stop) }
        ensures made { IfOk result (λ step. Ticks self.old (D.means disk.old) (D.fault_count disk.old) node stop step self.new (D.means disk.new) (D.fault_count disk.new)) }
        ensures oom { OnErr result (IsAsBefore (D.means disk.old) (D.means disk.new)) }
        ensures world { IsWorld (counted self.new) }
        ensures steps { self.new.steps ≡ self.old.steps }
    {
        let event = Event::Tick { node, stop };
        match node {
            NodeId::Client(client) => self.step_client(client, ClientInput::Tick, event),
            NodeId::Server(server) => {
                self.step_server(disk, server, ServerInput::Tick, stop, event)
            }
        }
    }

    /// A node ends; what it had in memory is gone.
    fn crash(&mut self, node: NodeId) -> TraceStep
        requires world { IsWorld self.old }
        requires can { CanHappen self.old (events.Crash node) }
        ensures made { IsNoted (Given node) (events.Crash node) result (crashed self.old node) self.new }
        ensures world { IsWorld (counted self.new) }
        ensures steps { self.new.steps ≡ self.old.steps }
    {
        self.end_node(node);
        bare_step(self.alloc, Some(node), Event::Crash { node })
    }

    /// Ends a node that runs.
    fn end_node(&mut self, node: NodeId)
        requires world { IsWorld self.old }
        requires can { CanHappen self.old (events.Crash node) }
        ensures { self.new ≡ crashed self.old node }
    {
        match node {
            NodeId::Client(client) => {
                self.clients.end(client);
                self.note_crash(client);
            }
            NodeId::Server(server) => self.end_server(server),
        }
    }

    /// A crashed client is declared gone.
    fn declare(&mut self, client: ClientId) -> TraceStep
        requires world { IsWorld self.old }
        requires can { CanHappen self.old (events.Gone client) }
        ensures made { IsNoted Missing (events.Gone client) result (declared self.old client) self.new }
        ensures world { IsWorld (counted self.new) }
        ensures steps { self.new.steps ≡ self.old.steps }
    {
        match self.members.declare(client) {
            Ok(()) => bare_step(self.alloc, None, Event::Gone { client }),
            Err(_) => unreachable!(),
        }
    }

    /// The next view is opened, and a server boots for it.
    fn open_view<D: PortDisk>(
        &mut self,
        disk: &mut D,
        server: ServerId,
        stop: Option<Stop>,
    ) -> Result<TraceStep, Oom>
        requires world { IsWorld self.old }
        requires steps { self.old.steps < 2 ^ 48 }
        ensures made { IfOk result (λ step. Opens self.old (D.means disk.old) (D.fault_count disk.old) server stop step self.new (D.means disk.new) (D.fault_count disk.new)) }
        ensures oom { OnErr result (IsAsBefore (D.means disk.old) (D.means disk.new)) }
        ensures world { IsWorld (counted self.new) }
        ensures steps { self.new.steps ≡ self.old.steps }
    {
        self.end_server(server);
        let view = self.members.next_view(server);
        match ServerNode::boot(self.alloc, disk, server, view, self.window, stop) {
            Ok((node, output)) => {
                self.put_server(server, node);
                let event = Event::NewView { server, stop };
                Ok(server_step(server, event, output))
            }
            Err(StepError::Halted(halted)) => {
                let event = Event::NewView { server, stop };
                Ok(halted_step(self.alloc, server, event, halted))
            }
            Err(StepError::OutOfMemory) => Err(Oom),
        }
    }

    /// A client that runs makes a step of its machine.
    fn step_client(
        &mut self,
        client: ClientId,
        input: ClientInput,
        event: Event,
    ) -> Result<TraceStep, Oom>
        requires world { IsWorld self.old }
        requires steps { self.old.steps < 2 ^ 48 }
        requires running { runs self.old (NodeId.Client client) ≡ true }
        requires may { (node : NodeValue) → client_at self.old client ≡ Given node → MayStart node input }
        ensures made { IfOk result (λ step. ClientMakes self.old client input event step self.new) }
        ensures world { IsWorld (counted self.new) }
        ensures steps { self.new.steps ≡ self.old.steps }
    {
        let node = self.clients.take(client);
        match node.step(input) {
            Ok((node, output)) => {
                self.clients.put(client, node);
                let step = client_step(self.alloc, client, event, output)?;
                Ok(step)
            }
            Err(Oom) => {
                self.note_crash(client);
                Err(Oom)
            }
        }
    }

    /// A server that runs makes a step of its machine.
    fn step_server<D: PortDisk>(
        &mut self,
        disk: &mut D,
        server: ServerId,
        input: ServerInput,
        stop: Option<Stop>,
        event: Event,
    ) -> Result<TraceStep, Oom>
        requires world { IsWorld self.old }
        requires steps { self.old.steps < 2 ^ 48 }
        requires running { runs self.old (NodeId.Server server) ≡ true }
        ensures made { IfOk result (λ step. ServerMakes self.old (D.means disk.old) (D.fault_count disk.old) server input stop event step self.new (D.means disk.new) (D.fault_count disk.new)) }
        ensures oom { OnErr result (IsAsBefore (D.means disk.old) (D.means disk.new)) }
        ensures world { IsWorld (counted self.new) }
        ensures steps { self.new.steps ≡ self.old.steps }
    {
        let Some(node) = self.take_server(server) else {
            unreachable!()
        };
        match node.step(disk, &self.members, input, stop) {
            Ok((node, output)) => {
                self.put_server(server, node);
                Ok(server_step(server, event, output))
            }
            Err(StepError::Halted(halted)) => Ok(halted_step(self.alloc, server, event, halted)),
            Err(StepError::OutOfMemory) => Err(Oom),
        }
    }

    /// The members note that a client that ran has crashed.
    fn note_crash(&mut self, client: ClientId)
        requires { stands_running (standing_of self.old.members client) ≡ true }
        ensures { self.new ≡ record self.old { members = with_standing self.old.members client Crashed } }
    {
        match self.members.crash(client) {
            Ok(()) => {}
            Err(_) => unreachable!(),
        }
    }
}

fn copy_of(call: &Call) -> Result<Call, Oom>
    ensures { IfOk result (λ copy. copy ≡ call.now) }
{
    let copy = call.clone()?;
    Ok(copy)
}
