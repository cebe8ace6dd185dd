ghost use Rattle.std.specs.Prelude.{◌≡◌, ◌<◌, ◌≤◌, true, is_some, slice_get, slice_set, length, IfOk, Some as Given, None as Missing};
ghost use Rattle.cal_base.specs.Limits as limits;
ghost use Rattle.cal_base.specs.declared.identity.ClientId.{ClientId};
ghost use Rattle.world.specs.Made.{new_client};
ghost use Rattle.world.specs.World.{if_running, is_calling};
ghost use Rattle.world.specs.Quiet.{TellsIdleClient};
ghost use Rattle.world.specs.Taking.{calls_in, client_takes};

use cal_base::{ClientId, Oom};
use client_node::ClientNode;
use session::Packet;
use std::alloc::Global;
use std::marker::Model;
use std::mem;

/// The clients by number, each while it runs.
#[derive(Drop)]
pub(crate) struct Clients {
    nodes: Vec<Option<ClientNode>>,
}

impl Model for Clients {
    ghost use Rattle.std.specs.Prelude.{List, Option};
    ghost use Rattle.client_node.specs.Node.{NodeValue};

    ghost Value = { List (Option NodeValue) };

    ghost view = { λ it. it.nodes.items };
}

impl Clients {
    /// So many clients that have done nothing yet.
    pub(crate) fn new(alloc: Global, count: u8) -> Result<Clients, Oom>
        ensures count { IfOk result (λ all. length all ≡ count) }
        ensures new { IfOk result (λ all. (client : ClientId) → client.0 < count → if_running (slice_get all client.0) ≡ Given (new_client client)) }
    {
        let mut nodes = Vec::with_capacity(alloc, count as usize)?;
        for number in 0..count {
            let node = ClientNode::new(alloc, ClientId(number))?;
            nodes.push(Some(node))?;
        }
        Ok(Clients { nodes })
    }

    /// Whether the client of a number runs.
    pub(crate) fn runs(&self, client: ClientId) -> bool
        ensures { result ≡ is_some (if_running (slice_get self.now client.0)) }
    {
        match self.nodes.get(client.0 as usize) {
            None => false,
            Some(node) => node.is_some(),
        }
    }

    /// Whether a call of a client is outstanding.
    pub(crate) fn is_busy(&self, client: ClientId) -> bool
        ensures { result ≡ is_calling (if_running (slice_get self.now client.0)) }
    {
        match self.nodes.get(client.0 as usize) {
            None => false,
            Some(node) => is_calling(node),
        }
    }

    /// Whether a client's tick would send nothing; also where it doesn't run.
    pub(crate) fn is_idle(&self, client: ClientId) -> bool
        ensures { TellsIdleClient (if_running (slice_get self.now client.0)) result }
    {
        match self.nodes.get(client.0 as usize) {
            None => true,
            Some(node) => is_idle(node),
        }
    }

    /// How many calls a client has started; none where it doesn't run.
    pub(crate) fn calls(&self, client: ClientId) -> u64
        ensures { result ≡ calls_in (if_running (slice_get self.now client.0)) }
    {
        match self.nodes.get(client.0 as usize) {
            None => 0,
            Some(node) => calls(node),
        }
    }

    /// Whether a packet brings a client that runs its next message.
    pub(crate) fn takes(&self, client: ClientId, packet: &Packet) -> bool
        ensures { result ≡ client_takes (if_running (slice_get self.now client.0)) packet.now }
    {
        match self.nodes.get(client.0 as usize) {
            None => false,
            Some(node) => takes(node, packet),
        }
    }

    /// Takes a client that runs out of its place, which is empty then.
    pub(crate) fn take(&mut self, client: ClientId) -> ClientNode
        requires { is_some (if_running (slice_get self.old client.0)) ≡ true }
        ensures node { if_running (slice_get self.old client.0) ≡ Given result }
        ensures left { self.new ≡ slice_set self.old client.0 Missing }
    {
        match mem::replace(&mut self.nodes[client.0 as usize], None) {
            Some(node) => node,
            None => unreachable!(),
        }
    }

    /// Puts a client into its place.
    pub(crate) fn put(&mut self, client: ClientId, node: ClientNode)
        requires { client.0 < length self.old }
        ensures { self.new ≡ slice_set self.old client.0 (Given node) }
    {
        self.nodes[client.0 as usize] = Some(node);
    }

    /// Ends a client that runs.
    pub(crate) fn end(&mut self, client: ClientId)
        requires { is_some (if_running (slice_get self.old client.0)) ≡ true }
        ensures { self.new ≡ slice_set self.old client.0 Missing }
    {
        self.nodes[client.0 as usize] = None;
    }
}

fn is_calling(node: &Option<ClientNode>) -> bool
    ensures { result ≡ is_calling node.now }
{
    match node {
        None => false,
        Some(node) => node.busy(),
    }
}

fn is_idle(node: &Option<ClientNode>) -> bool
    ensures { TellsIdleClient node.now result }
{
    match node {
        None => true,
        Some(node) => node.idle(),
    }
}

fn calls(node: &Option<ClientNode>) -> u64
    ensures { result ≡ calls_in node.now }
{
    match node {
        None => 0,
        Some(node) => node.calls(),
    }
}

fn takes(node: &Option<ClientNode>, packet: &Packet) -> bool
    ensures { result ≡ client_takes node.now packet.now }
{
    match node {
        None => false,
        Some(node) => node.takes(packet),
    }
}
