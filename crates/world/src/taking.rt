ghost use Rattle.std.specs.Prelude.{◌≡◌};
ghost use Rattle.world.specs.Taking.{calls_of, node_takes, server_takes, takes};
ghost use Rattle.world.specs.World.{server_at};

use crate::cluster::Cluster;
use cal_base::{ClientId, NodeId, ServerId};
use server_node::ServerNode;
use session::Packet;

impl Cluster {
    /// How many calls a client has started; none where it doesn't run.
    pub(crate) fn calls(&self, client: ClientId) -> u64
        ensures { result ≡ calls_of self.now client }
    {
        self.clients.calls(client)
    }

    /// Whether the packet of a number would bring its receiver the next message.
    pub(crate) fn takes(&self, number: u64) -> bool
        ensures { result ≡ takes self.now number }
    {
        match self.packets.get(number) {
            None => false,
            Some(packet) => self.node_takes(packet.to, packet),
        }
    }

    /// Whether a packet brings a node that runs the next message.
    fn node_takes(&self, node: NodeId, packet: &Packet) -> bool
        ensures { result ≡ node_takes self.now node packet.now }
    {
        match node {
            NodeId::Client(client) => self.clients.takes(client, packet),
            NodeId::Server(server) => self.server_takes(server, packet),
        }
    }

    fn server_takes(&self, server: ServerId, packet: &Packet) -> bool
        ensures { result ≡ server_takes (server_at self.now server) packet.now }
    {
        match server {
            ServerId::A => takes(&self.a, packet),
            ServerId::B => takes(&self.b, packet),
        }
    }
}

fn takes(node: &Option<ServerNode>, packet: &Packet) -> bool
    ensures { result ≡ server_takes node.now packet.now }
{
    match node {
        None => false,
        Some(node) => node.takes(packet),
    }
}
