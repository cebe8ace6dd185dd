ghost use Rattle.std.specs.Prelude.{◌≡◌, ◌<◌, ◌≤◌, IfSome};
ghost use Rattle.packet_links.specs.Links.{link_between, link_count, first_to, first_from, place_of};

use cal_base::{CLIENTS, ClientId, NodeId, ServerId};

/// How many links there are: one each way between a client and a server.
pub(crate) const LINKS: usize = 64;

/// The place of the link from one node to another, below 64, or none where there is no such link.
pub(crate) fn link_between(from: NodeId, to: NodeId) -> Option<usize>
    ensures value { result ≡ link_between from to }
    ensures limit { IfSome result (λ place. place < link_count) }
{
    match (from, to) {
        (NodeId::Client(client), NodeId::Server(server)) => place_of(first_to(server), client),
        (NodeId::Server(server), NodeId::Client(client)) => place_of(first_from(server), client),
        (NodeId::Client(_), NodeId::Client(_)) => None,
        (NodeId::Server(_), NodeId::Server(_)) => None,
    }
}

/// The place of the link from client 0 to a server.
fn first_to(server: ServerId) -> usize
    ensures value { result ≡ first_to server }
    ensures limit { result ≤ 16 }
{
    match server {
        ServerId::A => 0,
        ServerId::B => 16,
    }
}

/// The place of the link from a server to client 0.
fn first_from(server: ServerId) -> usize
    ensures value { result ≡ first_from server }
    ensures limit { result ≤ 48 }
{
    match server {
        ServerId::A => 32,
        ServerId::B => 48,
    }
}

/// The place of a client's link, where client 0's is given.
fn place_of(first: usize, client: ClientId) -> Option<usize>
    requires { first ≤ 48 }
    ensures value { result ≡ place_of first client }
    ensures limit { IfSome result (λ place. place < link_count) }
{
    if client.0 < CLIENTS {
        Some(first + usize::from(client.0))
    } else {
        None
    }
}
