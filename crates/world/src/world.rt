ghost use Rattle.std.specs.Prelude.{◌≡◌, ◌<◌, ◌≤◌, ◌^◌, IfErr, IfOk, OnOk, None as Missing, length, option_map, slice_get};
ghost use Rattle.cal_base.specs.Limits as limits;
ghost use Rattle.image.specs.EntryPlans.{TellsFresh};
ghost use Rattle.image.specs.Mount.{Told};
ghost use Rattle.world.specs.Made.{Begins, FormatsFor, NotMade};
ghost use Rattle.world.specs.Quiet.{TellsIdle};
ghost use Rattle.world.specs.Refusals.{refusal_of};
ghost use Rattle.world.specs.Step.{IsSpelled, StepsSo};
ghost use Rattle.world.specs.Taking.{calls_of, takes};
ghost use Rattle.world.specs.World.{flag_of, is_busy, runs};

use crate::cluster::Cluster;
use crate::refusals::StepRefused;
use cal_base::{ClientId, NodeId};
use cluster_law::{Event, TraceStep};
use server_start::FormatError;
use session::Packet;
use shared_disk::PortDisk;
use std::alloc::Global;
use std::marker::Model;

/// A cluster, by steps.
#[derive(Drop)]
pub struct World {
    cluster: Cluster,
}

impl Model for World {
    ghost use Rattle.world.specs.World.{IsWorld, WorldValue};

    ghost Value = { WorldValue };

    ghost view = { λ it. it.cluster };

    ghost invariant = { λ it. IsWorld it.cluster };
}

impl World {
    /// A cluster of so many clients, 1 to 16, whose server A has formatted the disk. The window, 1 to 8, is how many
    /// clients a server asks for reports at a time.
    ///
    /// # Errors
    /// Those of the format. After want of memory the disk is as it was, but for its room.
    pub fn new<D: PortDisk>(
        alloc: Global,
        disk: &mut D,
        clients: u8,
        window: u8,
    ) -> Result<World, FormatError>
        requires some { 1 ≤ clients }
        requires few { clients ≤ limits.clients }
        ensures begins { IfOk result (Begins clients window) }
        ensures disk { FormatsFor clients (D.means disk.old) (D.fault_count disk.old) result (D.means disk.new) (D.fault_count disk.new) }
        ensures stands { Told (D.means disk.old) (λ sectors. length sectors ≡ limits.sectors → OnOk result (TellsFresh (D.means disk.new) clients)) }
    {
        let cluster = Cluster::new(alloc, disk, clients, window)?;
        Ok(World { cluster })
    }

    /// Makes a step of this event, where it can happen. A world makes 2^48 steps.
    ///
    /// # Errors
    /// `Refused` where the event can't happen; all is then as it was. After want of memory the world is spent, and the
    /// disk is as it was, but for its room, or as the step leaves it.
    pub fn step<D: PortDisk>(
        &mut self,
        disk: &mut D,
        event: Event,
    ) -> Result<TraceStep, StepRefused>
        requires steps { self.old.steps < 2 ^ 48 }
        requires call { IsSpelled event }
        ensures made { IfOk result (λ step. (refusal_of self.old event ≡ Missing) × StepsSo self.old (D.means disk.old) (D.fault_count disk.old) event step self.new (D.means disk.new) (D.fault_count disk.new)) }
        ensures refused { IfErr result (λ error. NotMade self.old (D.means disk.old) (D.fault_count disk.old) event error self.new (D.means disk.new) (D.fault_count disk.new)) }
    {
        self.cluster.step(disk, event)
    }

    /// Whether a node runs.
    pub fn runs(&self, node: NodeId) -> bool
        ensures { result ≡ runs self.now node }
    {
        self.cluster.runs(node)
    }

    /// Whether a call of a client is outstanding.
    pub fn busy(&self, client: ClientId) -> bool
        ensures { result ≡ is_busy self.now client }
    {
        self.cluster.busy(client)
    }

    /// Whether a node's tick, without a stop, would send and write nothing; also where it doesn't run. Of a server it
    /// is told where its line rests.
    pub fn idle(&self, node: NodeId) -> bool
        ensures { TellsIdle self.now node result }
    {
        self.cluster.idle(node)
    }

    /// How many calls a client has started; none where it doesn't run. It takes no memory.
    pub fn calls(&self, client: ClientId) -> u64
        ensures { result ≡ calls_of self.now client }
    {
        self.cluster.calls(client)
    }

    /// Whether the packet of a number would bring its receiver the next message; not where the packet isn't sent or the
    /// receiver doesn't run. It takes no memory.
    pub fn takes(&self, packet: u64) -> bool
        ensures { result ≡ takes self.now packet }
    {
        self.cluster.takes(packet)
    }

    /// How many clients there are, 1 to 16; they are numbered from 0.
    pub fn clients(&self) -> u8
        ensures { result ≡ self.now.members.clients }
    {
        self.cluster.members.clients()
    }

    /// How many packets were sent; they are numbered from 0.
    pub fn sent(&self) -> u64
        ensures { result ≡ length self.now.packets }
    {
        self.cluster.packets.len()
    }

    /// The packet of a number, or none where it isn't sent yet.
    pub fn packet(&self, number: u64) -> Option<&Packet>
        ensures { option_map (λ packet. packet.now) result ≡ slice_get self.now.packets number }
    {
        self.cluster.packets.get(number)
    }

    /// Whether a packet was delivered.
    pub fn delivered(&self, number: u64) -> bool
        ensures { result ≡ flag_of (slice_get self.now.delivered number) }
    {
        self.cluster.packets.is_delivered(number)
    }

    /// The view that is open.
    pub fn view(&self) -> u64
        ensures { result ≡ self.now.members.view.0 }
    {
        self.cluster.members.view().0
    }

    /// How many steps were made.
    pub fn steps(&self) -> u64
        ensures { result ≡ self.now.steps }
    {
        self.cluster.steps
    }
}
