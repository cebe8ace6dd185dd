ghost use Rattle.std.specs.Prelude.{◌≡◌};
ghost use Rattle.world.specs.Quiet.{TellsIdle, TellsIdleServer};
ghost use Rattle.world.specs.World.{is_busy, runs, server_at};

use crate::cluster::Cluster;
use cal_base::{ClientId, NodeId, ServerId};
use membership::Members;
use server_node::ServerNode;

impl Cluster {
    /// Whether a node runs.
    pub(crate) fn runs(&self, node: NodeId) -> bool
        ensures { result ≡ runs self.now node }
    {
        match node {
            NodeId::Client(client) => self.clients.runs(client),
            NodeId::Server(server) => self.runs_server(server),
        }
    }

    /// Whether a call of a client is outstanding.
    pub(crate) fn busy(&self, client: ClientId) -> bool
        ensures { result ≡ is_busy self.now client }
    {
        self.clients.is_busy(client)
    }

    /// Whether a node's tick would send and write nothing; also where it doesn't run.
    pub(crate) fn idle(&self, node: NodeId) -> bool
        ensures { TellsIdle self.now node result }
    {
        match node {
            NodeId::Client(client) => self.clients.is_idle(client),
            NodeId::Server(server) => self.idles_server(server),
        }
    }

    fn idles_server(&self, server: ServerId) -> bool
        ensures { TellsIdleServer self.now.members (server_at self.now server) result }
    {
        match server {
            ServerId::A => is_idle(&self.a, &self.members),
            ServerId::B => is_idle(&self.b, &self.members),
        }
    }
}

fn is_idle(node: &Option<ServerNode>, members: &Members) -> bool
    ensures { TellsIdleServer members.now node.now result }
{
    match node {
        None => true,
        Some(node) => node.idle(members),
    }
}
