ghost use Rattle.std.specs.Prelude.{◌≡◌, ◌<◌, ◌≤◌, ◌^◌, ◌↔◌, length, IfErr, IfOk, IsTrue, OnOk};
ghost use Rattle.cal_base.specs.Limits as limits;
ghost use Rattle.cluster_law.specs.Noted.{DiskAt};
ghost use Rattle.cluster_law.specs.ServerState.{ServerState};
ghost use Rattle.image.specs.EntryPlans.{TellsFresh};
ghost use Rattle.image.specs.Mount.{Told};
ghost use Rattle.server_desk.specs.Desk.{IsLike};
ghost use Rattle.server_node.specs.Node.{Begins, IsNew, formatted, served, started_of, takes_packet};
ghost use Rattle.server_node.specs.Quiet.{IsIdle, IsQuiet, IsQuietWith};
ghost use Rattle.server_node.specs.Step.{Steps, Stops};
ghost use Rattle.server_start.specs.Boots.{BootEnds, IsAsItWas};
ghost use Rattle.server_start.specs.Disks.{IsAt, StandsSo};
ghost use Rattle.server_start.specs.Formats.{Formats, ServesFresh};
ghost use Rattle.server_start.specs.declared.stops.StepError.TheVariants.{OutOfMemory};
ghost use Rattle.std.specs.Prelude.{Err};

use crate::coming::{Came, come};
use crate::planning::plan;
use crate::sending::send;
use cal_base::{CLIENTS, ClientId, ServerId, View};
use client_sessions::{ClientSessions, sessions_stay_between};
use cluster_law::{ServerInput, ServerOutput};
use fence::Port;
use image::Image;
use membership::Members;
use server_desk::Desk;
use server_disk::{Carried, carry_out};
use server_draft::Draft;
use server_mail::takes;
use server_removals::removes_nothing;
use server_start::{
    FormatError, Started, StepError, boot, each_client_is_asked_in_its_session, format_volume,
};
use server_turn::Planned;
use session::Packet;
use shared_disk::{PortDisk, Stop};
use std::alloc::Global;
use std::marker::Model;

/// A server of one view, by steps.
#[derive(Drop)]
pub struct ServerNode {
    alloc: Global,
    id: ServerId,
    port: Port,
    desk: Desk,
    image: Image,
    mail: ClientSessions,
    steps: u64,
}

impl Model for ServerNode {
    ghost use Rattle.server_node.specs.Node.{IsNode, NodeValue};

    ghost Value = { NodeValue };

    ghost view = { λ it. record { id = it.id; port = it.port; desk = it.desk; image = it.image; mail = it.mail; steps = it.steps } };

    ghost invariant = { λ it. IsNode (record { id = it.id; port = it.port; desk = it.desk; image = it.image; mail = it.mail; steps = it.steps }) };
}

impl ServerNode {
    /// Formats a disk for so many clients, 1 to 16, and serves view 1, in which nobody holds anything. The window, 1 to
    /// 8, is how many clients are asked for reports at a time. All memory is taken before the fence; after want of memory
    /// the disk is as it was, but for its room.
    ///
    /// # Errors
    /// `Fenced` exactly where the key is above 1; `Failed` only where the count of faults rose.
    pub fn format<D: PortDisk>(
        alloc: Global,
        disk: &mut D,
        id: ServerId,
        clients: u8,
        window: u8,
    ) -> Result<ServerNode, FormatError>
        requires some { 1 ≤ clients }
        requires few { clients ≤ limits.clients }
        ensures new { IfOk result (IsNew id) }
        ensures serves { IfOk result (λ node. ServesFresh id clients window (started_of node)) }
        ensures disk { Formats clients (D.means disk.old) (D.fault_count disk.old) (formatted result) (D.means disk.new) (D.fault_count disk.new) }
        ensures stands { Told (D.means disk.old) (λ sectors. length sectors ≡ limits.sectors → OnOk result (TellsFresh (D.means disk.new) clients)) }
    {
        // this law tells that new sessions are those of the server
        sessions_stay_between();
        match format_volume(alloc, disk, id, clients, window) {
            Ok(started) => Ok(ServerNode::begin(alloc, id, started)),
            Err(error) => Err(error),
        }
    }

    /// Boots a server for a view, on a disk that has a volume: takes the fence, replays the journal, up to the stop if
    /// there is one, mounts the volume, lists the clients whose purge isn't marked, and asks the first of them, as many as
    /// the window lets, 1 to 8. All memory is taken before the fence; after want of memory the disk is as it was, but for
    /// its room.
    ///
    /// # Errors
    /// A halt has its cause: it is fenced where a higher view has fenced the disk, it fails where the count of faults
    /// rose, it stops at its stop, and it finds damage only where the sectors, replayed, spell no volume.
    pub fn boot<D: PortDisk>(
        alloc: Global,
        disk: &mut D,
        id: ServerId,
        view: View,
        window: u8,
        stop: Option<Stop>,
    ) -> Result<(ServerNode, ServerOutput), StepError>
        ensures new { IfOk result (λ made. IsNew id made.0) }
        ensures ends { (before : DiskAt) → IsAt (D.means disk.old) (D.fault_count disk.old) before → length before.sectors ≡ limits.sectors
            → StandsSo (D.means disk.new) (D.fault_count disk.new) (BootEnds id view window stop before (served result)) }
        ensures oom { result ≡ Err OutOfMemory → IsAsItWas (D.means disk.old) (D.fault_count disk.old) (D.means disk.new) (D.fault_count disk.new) }
    {
        // this law tells what the sessions are
        each_client_is_asked_in_its_session();
        match boot(alloc, disk, id, view, window, stop) {
            Ok((started, output)) => Ok((ServerNode::begin(alloc, id, started), output)),
            Err(error) => Err(error),
        }
    }

    /// A server that has made no step.
    fn begin(alloc: Global, id: ServerId, started: Started) -> ServerNode
        requires { Begins id started }
        ensures new { IsNew id result }
        ensures started { started_of result ≡ started }
    {
        let Started {
            port,
            desk,
            image,
            mail,
        } = started;
        ServerNode {
            alloc,
            id,
            port,
            desk,
            image,
            mail,
            steps: 0,
        }
    }

    /// Makes one step: takes a packet or a tick, up to the stop if there is one. A packet of another session, or of a
    /// client whose purge is marked, does nothing, and bytes that are no message are taken and come to nothing. A node
    /// makes 2^48 steps. It is handed over and comes back with what the step gives: after a halt or want of memory it is
    /// spent. All memory is taken before the first write: after want of memory the disk is as it was, but for its room.
    ///
    /// # Errors
    /// A halt has its cause: the node is fenced where the key is another than its view and it would read or write, it
    /// fails where the count of faults rose, and it stops at its stop.
    pub fn step<D: PortDisk>(
        self,
        disk: &mut D,
        members: &Members,
        input: ServerInput,
        stop: Option<Stop>,
    ) -> Result<(ServerNode, ServerOutput), StepError>
        requires { self.steps < 2 ^ 48 }
        ensures steps { IfOk result (λ made. Steps self members.now input stop (D.means disk.old) (D.fault_count disk.old) made.0 made.1 (D.means disk.new) (D.fault_count disk.new)) }
        ensures stops { IfErr result (λ error. Stops self members.now input stop (D.means disk.old) (D.fault_count disk.old) error (D.means disk.new) (D.fault_count disk.new)) }
        ensures later { D.fault_count disk.old ≤ D.fault_count disk.new }
    {
        let ServerNode {
            alloc,
            id,
            mut port,
            desk,
            image,
            mut mail,
            steps,
        } = self;
        let Came { coming, answers } = come(alloc, &mut mail, &image, input)?;
        let Planned { draft, head } = match plan(alloc, desk, image, members, coming, &port, disk) {
            Ok(planned) => planned,
            Err(error) => return Err(error),
        };
        let Draft { desk, image, acts } = draft;
        let sent = send(&mut mail, acts.as_slice(), answers)?;
        port.arm(stop);
        let Carried { writes, entries } = match carry_out(alloc, &mut port, disk, acts.as_slice()) {
            Ok(carried) => carried,
            Err(error) => return Err(error),
        };
        Ok((
            ServerNode {
                alloc,
                id,
                port,
                desk,
                image,
                mail,
                steps: steps + 1,
            },
            ServerOutput {
                sent,
                writes,
                entries,
                head,
            },
        ))
    }

    /// Whether a tick, without a stop, would send and write nothing, of a server whose line rests: all messages are
    /// acknowledged by clients whose purge isn't marked, nobody is to be purged, and no orphan is to be freed or asked
    /// for. It takes no memory.
    pub fn idle(&self, members: &Members) -> bool
        ensures { (server : ServerState) → IsLike self.now.desk server → server.volume ≡ self.now.image → IsTrue result ↔ IsIdle self.now members.now server }
    {
        self.is_quiet() && removes_nothing(&self.desk, &self.image, members)
    }

    /// Whether all messages are acknowledged by clients whose purge isn't marked.
    fn is_quiet(&self) -> bool
        ensures { IsTrue result ↔ IsQuiet self.now }
    {
        for number in 0..CLIENTS {
            if !self.is_quiet_with(ClientId(number)) {
                return false;
            }
        }
        true
    }

    /// Whether a client has acknowledged all messages, or its purge is marked.
    fn is_quiet_with(&self, client: ClientId) -> bool
        requires { client.0 < limits.clients }
        ensures { IsTrue result ↔ IsQuietWith self.now client }
    {
        self.image.slot(client).purged || self.mail.is_quiet(client)
    }

    /// Whether the packet brings the next message of a client whose purge isn't marked, so that a step takes it; bytes
    /// that are no message count too. It takes no memory.
    pub fn takes(&self, packet: &Packet) -> bool
        ensures { result ≡ takes_packet self.now packet.now }
    {
        takes(&self.mail, &self.image, packet)
    }

    /// How many steps were made.
    pub fn steps(&self) -> u64
        ensures { result ≡ self.now.steps }
    {
        self.steps
    }
}
