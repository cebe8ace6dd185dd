ghost use Rattle.std.specs.Prelude.{◌≡◌, ◌≤◌, ◌++◌, drop, length, replicate};
ghost use Rattle.schedule.specs.Stops.{after_step, is_stopped, less, left_of, padded, stop_of_node, stop_on, torn_by, with_stop};

use cal_base::{BLOCK_SIZE, NodeId, Sector, ServerId};
use cluster_law::{Halt, TraceStep};
use script::How;
use shared_disk::Stop;

/// The stop that is armed on each server.
#[derive(Clone, Copy, Debug)]
pub struct ArmedStops {
    pub a: Option<Stop>,
    pub b: Option<Stop>,
}

impl ArmedStops {
    /// The stop that is armed on a server.
    pub(crate) fn on(&self, server: ServerId) -> Option<Stop>
        ensures { result ≡ stop_on self.now server }
    {
        match server {
            ServerId::A => self.a,
            ServerId::B => self.b,
        }
    }

    /// The stop that is handed to a step of a node; a client has none.
    pub(crate) fn of_node(&self, node: NodeId) -> Option<Stop>
        ensures { result ≡ stop_of_node self.now node }
    {
        match node {
            NodeId::Client(_) => None,
            NodeId::Server(server) => self.on(server),
        }
    }

    /// Arms a stop on a server in place of its last one, or takes that away.
    pub(crate) fn put(&mut self, server: ServerId, stop: Option<Stop>)
        ensures { self.new ≡ with_stop self.old server stop }
    {
        match server {
            ServerId::A => self.a = stop,
            ServerId::B => self.b = stop,
        }
    }

    /// Counts the writes of a server's step; a stop that was done is armed no longer.
    pub(crate) fn note(&mut self, step: &TraceStep)
        ensures { self.new ≡ after_step self.old step.now }
    {
        match step.node {
            Some(NodeId::Server(server)) => {
                let left = left_of(self.on(server), step);
                self.put(server, left);
            }
            Some(NodeId::Client(_)) => {}
            None => {}
        }
    }
}

/// What is left of a server's stop after a step of it.
fn left_of(stop: Option<Stop>, step: &TraceStep) -> Option<Stop>
    ensures { result ≡ left_of stop step.now }
{
    if is_stopped(step.halt) {
        return None;
    }
    match stop {
        Some(stop) => Some(less(stop, step.writes.len())),
        None => None,
    }
}

fn is_stopped(halt: Option<Halt>) -> bool
    ensures { result ≡ is_stopped halt }
{
    match halt {
        None => false,
        Some(Halt::Fenced { .. }) => false,
        Some(Halt::Failed { .. }) => false,
        Some(Halt::Stopped) => true,
        Some(Halt::Damaged { .. }) => false,
    }
}

/// A stop once so many more writes were accepted.
fn less(stop: Stop, writes: usize) -> Stop
    ensures { result ≡ less stop writes }
{
    let writes = u32::try_from(writes).unwrap_or(u32::MAX);
    Stop {
        after: stop.after.saturating_sub(writes),
        torn: stop.torn,
    }
}

/// What a stop leaves in the sector that was about to be written.
pub(crate) fn torn_by(how: &How) -> Option<Sector>
    ensures { result ≡ torn_by how.now }
{
    match how {
        How::Clean => None,
        How::Fill(byte) => Some(filled(*byte)),
        How::Hex(bytes) => Some(padded(bytes.as_slice())),
    }
}

/// Bytes and then zeros; at most 4,096 bytes.
fn padded(bytes: &[u8]) -> Sector
    ensures { result ≡ padded bytes.now }
{
    let mut sector = filled(0);
    let count = BLOCK_SIZE.min(bytes.len());
    lay(&mut sector, &bytes[..count]);
    sector
}

/// One byte throughout.
fn filled(byte: u8) -> Sector
    ensures { result ≡ replicate 4096 byte }
{
    [byte; BLOCK_SIZE]
}

/// Lays bytes over the first of the contents.
fn lay(contents: &mut [u8], bytes: &[u8])
    requires { length bytes.now ≤ length contents.old }
    ensures { contents.new ≡ bytes.now ++ drop (length bytes.now) contents.old }
{
    contents[..bytes.len()].copy_from_slice(bytes);
}
