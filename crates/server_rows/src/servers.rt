use cal_base::ServerId;
use server_node::ServerNode;

/// The servers of a row that run.
#[derive(Drop)]
pub(crate) struct Servers {
    a: Option<ServerNode>,
    b: Option<ServerNode>,
}

impl Servers {
    /// Server A alone.
    pub(crate) fn first(node: ServerNode) -> Servers {
        Servers {
            a: Some(node),
            b: None,
        }
    }

    /// Takes a server out, if it runs.
    pub(crate) fn take(&mut self, server: ServerId) -> Option<ServerNode> {
        match server {
            ServerId::A => self.a.take(),
            ServerId::B => self.b.take(),
        }
    }

    /// Puts a server in its place.
    pub(crate) fn put(&mut self, server: ServerId, node: ServerNode) {
        match server {
            ServerId::A => self.a = Some(node),
            ServerId::B => self.b = Some(node),
        }
    }
}
