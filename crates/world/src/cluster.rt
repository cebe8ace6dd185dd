ghost use Rattle.std.specs.Prelude.{◌≡◌, ◌⊎◌, ◌<◌, ◌≤◌, ◌^◌, IfErr, IfOk, OnErr, OnOk, None as Missing, length};
ghost use Rattle.cal_base.specs.Limits as limits;
ghost use Rattle.image.specs.EntryPlans.{TellsFresh};
ghost use Rattle.image.specs.Mount.{Told};
ghost use Rattle.world.specs.Made.{Begins, FormatsFor, HadMoved, IsAsBefore, NotMade};
ghost use Rattle.world.specs.Refusals.{CanHappen, refusal_of};
ghost use Rattle.world.specs.Step.{IsSpelled, StepsSo};
ghost use Rattle.world.specs.World.{IsWorld};

use crate::clients::Clients;
use crate::packets::Packets;
use crate::refusals::StepRefused;
use cal_base::{Oom, ServerId};
use cluster_law::{Event, TraceStep};
use membership::Members;
use server_node::ServerNode;
use server_start::FormatError;
use shared_disk::PortDisk;
use std::alloc::Global;
use std::marker::Model;

/// What makes up a world.
#[derive(Drop)]
pub(crate) struct Cluster {
    pub(crate) alloc: Global,
    pub(crate) window: u8,
    pub(crate) members: Members,
    pub(crate) clients: Clients,
    /// The servers, each while it runs.
    pub(crate) a: Option<ServerNode>,
    pub(crate) b: Option<ServerNode>,
    pub(crate) packets: Packets,
    pub(crate) steps: u64,
}

impl Model for Cluster {
    ghost use Rattle.world.specs.World.{WorldValue};

    ghost Value = { WorldValue };

    ghost view = { λ it. record { window = it.window; members = it.members; clients = it.clients; a = it.a; b = it.b; packets = it.packets.sent.items; delivered = it.packets.delivered.items; steps = it.steps } };
}

impl Cluster {
    /// A cluster whose clients have done nothing, and whose server A has formatted the disk.
    pub(crate) fn new<D: PortDisk>(
        alloc: Global,
        disk: &mut D,
        clients: u8,
        window: u8,
    ) -> Result<Cluster, FormatError>
        requires some { 1 ≤ clients }
        requires few { clients ≤ limits.clients }
        ensures begins { IfOk result (Begins clients window) }
        ensures count { IfOk result (λ world. length world.clients ≡ clients) }
        ensures disk { FormatsFor clients (D.means disk.old) (D.fault_count disk.old) result (D.means disk.new) (D.fault_count disk.new) }
        ensures stands { Told (D.means disk.old) (λ sectors. length sectors ≡ limits.sectors → OnOk result (TellsFresh (D.means disk.new) clients)) }
    {
        let nodes = Clients::new(alloc, clients)?;
        let server = ServerNode::format(alloc, disk, ServerId::A, clients, window)?;
        Ok(Cluster {
            alloc,
            window,
            members: Members::new(clients),
            clients: nodes,
            a: Some(server),
            b: None,
            packets: Packets::new(alloc),
            steps: 0,
        })
    }

    /// Makes a step of this event, where it can happen.
    pub(crate) fn step<D: PortDisk>(
        &mut self,
        disk: &mut D,
        event: Event,
    ) -> Result<TraceStep, StepRefused>
        requires world { IsWorld self.old }
        requires steps { self.old.steps < 2 ^ 48 }
        requires call { IsSpelled event }
        ensures made { IfOk result (λ step. (refusal_of self.old event ≡ Missing) × StepsSo self.old (D.means disk.old) (D.fault_count disk.old) event step self.new (D.means disk.new) (D.fault_count disk.new)) }
        ensures refused { IfErr result (λ error. NotMade self.old (D.means disk.old) (D.fault_count disk.old) event error self.new (D.means disk.new) (D.fault_count disk.new)) }
        ensures world { IsWorld self.new }
    {
        match self.refusal(&event) {
            Some(why) => Err(StepRefused::Refused(why)),
            None => match self.go(disk, event) {
                Ok(step) => Ok(step),
                Err(Oom) => Err(StepRefused::OutOfMemory),
            },
        }
    }

    /// Makes a step of an event that can happen. It is counted, also where memory runs out.
    fn go<D: PortDisk>(&mut self, disk: &mut D, event: Event) -> Result<TraceStep, Oom>
        requires world { IsWorld self.old }
        requires steps { self.old.steps < 2 ^ 48 }
        requires call { IsSpelled event }
        requires can { CanHappen self.old event }
        ensures made { IfOk result (λ step. StepsSo self.old (D.means disk.old) (D.fault_count disk.old) event step self.new (D.means disk.new) (D.fault_count disk.new)) }
        ensures oom { OnErr result (IsAsBefore (D.means disk.old) (D.means disk.new) ⊎ HadMoved self.old (D.means disk.old) (D.fault_count disk.old) event (D.means disk.new) (D.fault_count disk.new)) }
        ensures world { IsWorld self.new }
    {
        let made = self.make(disk, event);
        self.steps += 1;
        match made {
            Ok(step) => {
                self.packets.keep(step.sent.as_slice())?;
                Ok(step)
            }
            Err(Oom) => Err(Oom),
        }
    }
}
