ghost use Rattle.std.specs.Prelude.{◌↔◌, IsTrue};
ghost use Rattle.client_node.specs.Node.{MayStart};

use cal_base::{ClientId, Oom};
use client_node::ClientNode;
use cluster_law::{ClientInput, ClientOutput};
use std::alloc::Global;
use std::collections::BTreeMap;

/// The steps that a client makes at most.
const STEPS: u64 = 1 << 48;

/// The clients of a row that have made a step.
#[derive(Drop)]
pub(crate) struct Clients {
    alloc: Global,
    nodes: BTreeMap<ClientId, ClientNode>,
}

impl Clients {
    pub(crate) fn new(alloc: Global) -> Clients {
        Clients {
            alloc,
            nodes: BTreeMap::new(alloc),
        }
    }

    /// Makes a step of a client, a new one if it has made none: what it gives, or nothing where it may not be
    /// made. After want of memory the client is forgotten.
    pub(crate) fn step(
        &mut self,
        client: ClientId,
        input: ClientInput,
    ) -> Result<Option<ClientOutput>, Oom> {
        let node = self.take(client)?;
        let (node, output) = step_if_allowed(node, input)?;
        self.nodes.insert(client, node)?;
        Ok(output)
    }

    /// Takes a client out of its place, or makes it.
    fn take(&mut self, client: ClientId) -> Result<ClientNode, Oom> {
        match self.nodes.remove(&client) {
            Some(node) => Ok(node),
            None => ClientNode::new(self.alloc, client),
        }
    }
}

/// Makes a step, if it may be made.
fn step_if_allowed(
    node: ClientNode,
    input: ClientInput,
) -> Result<(ClientNode, Option<ClientOutput>), Oom> {
    if node.steps() < STEPS && may_come(&node, &input) {
        let (node, output) = node.step(input)?;
        Ok((node, Some(output)))
    } else {
        Ok((node, None))
    }
}

/// Whether an input may come to a client: a call starts only where none is outstanding.
fn may_come(node: &ClientNode, input: &ClientInput) -> bool
    ensures { IsTrue result ↔ MayStart node.now input.now }
{
    match input {
        ClientInput::Start(call) => node.may_start(call),
        ClientInput::Packet(_) => true,
        ClientInput::Tick => true,
        ClientInput::WriteBack(_) => true,
    }
}
