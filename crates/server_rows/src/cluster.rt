ghost use Rattle.std.specs.Prelude.{◌≤◌};
ghost use Rattle.cal_base.specs.Limits as limits;

use crate::given::Given;
use crate::reading::{Boot, Comes, Happening};
use crate::servers::Servers;
use cal_base::{Items, Oom, ServerId};
use cluster_law::{ServerHalted, ServerOutput};
use fence::PortHalt;
use membership::{Members, NotSo};
use server_node::ServerNode;
use server_start::{FormatError, StepError, of_port};
use shared_disk::MemDisk;
use std::alloc::Global;

/// The steps that a server makes at most.
const STEPS: u64 = 1 << 48;

/// Servers on one disk in memory.
#[derive(Drop)]
pub(crate) struct Cluster {
    alloc: Global,
    disk: MemDisk,
    members: Members,
    servers: Servers,
}

/// What a format gives: server A in view 1, or why it halted.
#[derive(Drop)]
pub(crate) enum Formatted {
    Serves(Cluster),
    Halts(ServerHalted),
}

impl Cluster {
    /// Formats a fresh disk for so many clients, 1 to 16, with a window of 1 to 8.
    pub(crate) fn format(alloc: Global, clients: u8, window: u8) -> Result<Formatted, Oom>
        requires some { 1 ≤ clients }
        requires few { clients ≤ limits.clients }
    {
        let mut disk = MemDisk::new(alloc)?;
        match ServerNode::format(alloc, &mut disk, ServerId::A, clients, window) {
            Ok(node) => Ok(Formatted::Serves(Cluster {
                alloc,
                disk,
                members: Members::new(clients),
                servers: Servers::first(node),
            })),
            Err(FormatError::OutOfMemory) => Err(Oom),
            Err(FormatError::Halted(halt)) => Ok(Formatted::Halts(halted(alloc, halt))),
        }
    }

    /// Plays what happens.
    pub(crate) fn play(&mut self, happening: Happening) -> Result<Given, Oom> {
        match happening {
            Happening::Boot(boot) => self.boot(&boot),
            Happening::Comes(comes) => self.step(comes),
            Happening::ServerCrash(server) => Ok(self.crash(server)),
            Happening::ClientCrash(client) => Ok(noted(self.members.crash(client))),
            Happening::Gone(client) => Ok(noted(self.members.declare(client))),
        }
    }

    /// Boots a server; what it was before ends.
    fn boot(&mut self, boot: &Boot) -> Result<Given, Oom> {
        self.crash(boot.server);
        let made = ServerNode::boot(
            self.alloc,
            &mut self.disk,
            boot.server,
            boot.view,
            boot.window,
            boot.stop,
        );
        self.settle(boot.server, made)
    }

    /// Hands a server what comes to it, if it runs.
    fn step(&mut self, comes: Comes) -> Result<Given, Oom> {
        match self.servers.take(comes.server) {
            Some(node) => self.step_of(node, comes),
            None => Ok(Given::Refused),
        }
    }

    /// Ends a server, if it runs.
    fn crash(&mut self, server: ServerId) -> Given {
        match self.servers.take(server) {
            Some(_node) => Given::Nothing,
            None => Given::Refused,
        }
    }

    /// A step of a server that was taken out.
    fn step_of(&mut self, node: ServerNode, comes: Comes) -> Result<Given, Oom> {
        let Comes {
            server,
            input,
            stop,
        } = comes;
        if node.steps() < STEPS {
            let made = node.step(&mut self.disk, &self.members, input, stop);
            self.settle(server, made)
        } else {
            self.servers.put(server, node);
            Ok(Given::Refused)
        }
    }

    /// Puts a server in its place after a step that it goes on from.
    fn settle(
        &mut self,
        server: ServerId,
        made: Result<(ServerNode, ServerOutput), StepError>,
    ) -> Result<Given, Oom> {
        match made {
            Ok((node, output)) => {
                self.servers.put(server, node);
                Ok(Given::Step(output))
            }
            Err(StepError::OutOfMemory) => Err(Oom),
            Err(StepError::Halted(halted)) => Ok(Given::Halt(server, halted)),
        }
    }
}

/// What is printed of something that is noted of a client.
fn noted(answer: Result<(), NotSo>) -> Given {
    match answer {
        Ok(()) => Given::Nothing,
        Err(_) => Given::Refused,
    }
}

/// What a format gives that halts.
fn halted(alloc: Global, halt: PortHalt) -> ServerHalted {
    ServerHalted {
        writes: Items::new(alloc),
        entries: Items::new(alloc),
        halt: of_port(halt, 0),
    }
}
