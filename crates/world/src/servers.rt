ghost use Rattle.std.specs.Prelude.{◌≡◌, is_some, Some as Given, None as Missing};
ghost use Rattle.world.specs.World.{server_at, with_server};

use crate::cluster::Cluster;
use cal_base::ServerId;
use server_node::ServerNode;
use std::mem;

impl Cluster {
    /// Whether a server runs.
    pub(crate) fn runs_server(&self, server: ServerId) -> bool
        ensures { result ≡ is_some (server_at self.now server) }
    {
        match server {
            ServerId::A => self.a.is_some(),
            ServerId::B => self.b.is_some(),
        }
    }

    /// Takes the node of a server, if it runs, out of its place, which is empty then.
    pub(crate) fn take_server(&mut self, server: ServerId) -> Option<ServerNode>
        ensures node { result ≡ server_at self.old server }
        ensures left { self.new ≡ with_server self.old server Missing }
    {
        match server {
            ServerId::A => mem::replace(&mut self.a, None),
            ServerId::B => mem::replace(&mut self.b, None),
        }
    }

    /// Puts the node of a server into its place.
    pub(crate) fn put_server(&mut self, server: ServerId, node: ServerNode)
        ensures { self.new ≡ with_server self.old server (Given node) }
    {
        match server {
            ServerId::A => self.a = Some(node),
            ServerId::B => self.b = Some(node),
        }
    }

    /// Ends a server, if it runs.
    pub(crate) fn end_server(&mut self, server: ServerId)
        ensures { self.new ≡ with_server self.old server Missing }
    {
        match server {
            ServerId::A => self.a = None,
            ServerId::B => self.b = None,
        }
    }
}
