ghost use Rattle.std.specs.Prelude.{◌≡◌, ◌≤◌, IfOk, OnOk};
ghost use Rattle.schedule.specs.Nodes.{AreDue, IsFirstIf, IsFirstToRunning, node_of, one_if, outstanding, with_due};
ghost use Rattle.schedule.specs.Nodes as nodes;
ghost use Rattle.world.specs.World.{runs};

use cal_base::{CLIENTS, ClientId, Items, NodeId, Oom, ServerId};
use packet_links::{Links, lesser};
use std::alloc::Global;
use world::World;

/// How many nodes a cluster has at most.
const NODES: u8 = CLIENTS as u8 + 2;

/// The nodes in their order: the clients by number, then A, then B.
fn node_of(number: u8) -> NodeId
    ensures { result ≡ node_of number }
{
    match number {
        0..=15 => NodeId::Client(ClientId(number)),
        16 => NodeId::Server(ServerId::A),
        _ => NodeId::Server(ServerId::B),
    }
}

/// The running nodes that aren't idle, in their order.
pub(crate) fn due_nodes(alloc: Global, world: &World) -> Result<Items<NodeId>, Oom>
    ensures { IfOk result (AreDue world.now nodes.count) }
{
    let mut due = Items::new(alloc);
    for number in 0..NODES {
        let node = node_of(number);
        put_if_due(&mut due, node, world.idle(node))?;
    }
    Ok(due)
}

/// A node is put to those that are due, if it isn't idle.
fn put_if_due(due: &mut Items<NodeId>, node: NodeId, idle: bool) -> Result<(), Oom>
    ensures { OnOk result (due.new ≡ with_due due.old node idle) }
{
    if !idle {
        due.push(node)?;
    }
    Ok(())
}

/// The lowest packet that waits for a running node.
pub(crate) fn first_to_running(world: &World, links: &Links) -> Option<u64>
    ensures { IsFirstToRunning world.now links.now result }
{
    let mut first = None;
    for number in 0..NODES {
        let node = node_of(number);
        first = lesser(first, first_if_running(world, links, node));
    }
    first
}

/// The lowest packet that waits for a node, if it runs.
fn first_if_running(world: &World, links: &Links, node: NodeId) -> Option<u64>
    ensures { IsFirstIf (runs world.now node) links.now node result }
{
    if world.runs(node) {
        links.first_for(node)
    } else {
        None
    }
}

/// How many calls of running clients are outstanding.
pub(crate) fn outstanding(world: &World) -> u32
    ensures is { result ≡ outstanding world.now 16 }
    ensures few { result ≤ 16 }
{
    let mut count = 0;
    for number in 0..CLIENTS as u8 {
        count += one_if(world.busy(ClientId(number)));
    }
    count
}

/// One, if it holds.
fn one_if(holds: bool) -> u32
    ensures is { result ≡ one_if holds }
    ensures few { result ≤ 1 }
{
    if holds { 1 } else { 0 }
}
