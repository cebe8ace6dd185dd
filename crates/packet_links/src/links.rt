ghost use Rattle.std.specs.Prelude.{◌≡◌, ◌<◌, ℕ, Option, IfOk, OnOk, OnErr, slice_get, replicate, take};
ghost use Rattle.std.specs.Option.{option_copied};
ghost use Rattle.cal_base.specs.declared.identity.NodeId.TheVariants.{Client, Server};
ghost use Rattle.packet_links.specs.Links.{IsLinks, idle_link, idle_links, link_count, link_at, link_between, waiting, is_cut, Waits, WaitsFor, IsLeast, lesser, after_send, after_remove, after_cut, after_mend};

use crate::link::Link;
use crate::place::{LINKS, link_between};
use cal_base::{CLIENTS, ClientId, NodeId, Oom, ServerId};
use std::alloc::Global;
use std::marker::Model;

/// Which packets wait on the links between clients and servers, and which of these are cut.
#[derive(Drop)]
pub struct Links {
    links: Vec<Link>,
}

impl Model for Links {
    ghost use Rattle.packet_links.specs.Links.{LinksValue, IsLinks};

    ghost Value = { LinksValue };

    ghost view = { λ links. record { links = links.links.items } };

    ghost invariant = { λ links. IsLinks links.links.items };
}

impl Links {
    /// Links on which nothing waits, and of which none is cut.
    ///
    /// # Errors
    /// Want of memory.
    pub fn new(alloc: Global) -> Result<Links, Oom>
        ensures { IfOk result (λ links. links ≡ idle_links) }
    {
        let links = first_links(alloc)?;
        Ok(Links { links })
    }

    /// Puts a packet on the link from one node to another, where it waits, unless the link is cut or there
    /// is no such link. A number that waits there already waits once.
    ///
    /// # Errors
    /// Want of memory; all is then as before.
    pub fn send(&mut self, number: u64, from: NodeId, to: NodeId) -> Result<(), Oom>
        ensures ok { OnOk result (self.new ≡ after_send number from to self.old) }
        ensures err { OnErr result (self.new ≡ self.old) }
    {
        match link_between(from, to) {
            Some(place) => self.links[place].send(number),
            None => Ok(()),
        }
    }

    /// Takes a packet off the link from one node to another, if it waits there: it was delivered or lost.
    pub fn remove(&mut self, number: u64, from: NodeId, to: NodeId)
        ensures { self.new ≡ after_remove number from to self.old }
    {
        if let Some(place) = link_between(from, to) {
            self.links[place].remove(number);
        }
    }

    /// Cuts the link from one node to another, if there is one: all that waits there is lost.
    pub fn cut(&mut self, from: NodeId, to: NodeId)
        ensures { self.new ≡ after_cut from to self.old }
    {
        if let Some(place) = link_between(from, to) {
            self.links[place].cut();
        }
    }

    /// Mends the link from one node to another, if there is one: what is sent there waits again. What was
    /// lost stays lost.
    pub fn mend(&mut self, from: NodeId, to: NodeId)
        ensures { self.new ≡ after_mend from to self.old }
    {
        if let Some(place) = link_between(from, to) {
            self.links[place].mend();
        }
    }

    /// Whether the link from one node to another is cut; not where there is no such link.
    pub fn is_cut(&self, from: NodeId, to: NodeId) -> bool
        ensures { result ≡ is_cut self.now from to }
    {
        match self.link(from, to) {
            Some(link) => link.is_cut(),
            None => false,
        }
    }

    /// The least number that waits on the link from one node to another, or none where nothing waits there.
    /// There are always all 64 links, and on each the numbers rise.
    pub fn first(&self, from: NodeId, to: NodeId) -> Option<u64>
        ensures head { result ≡ slice_get (waiting self.now from to) 0 }
        ensures least { IsLeast (Waits self.now from to) result }
        ensures formed { IsLinks self.now.links }
    {
        match self.link(from, to) {
            Some(link) => link.first(),
            None => None,
        }
    }

    /// The least number that waits for a node, on any link to it, or none where nothing waits for it. A
    /// client has 2 links to it, a server 16.
    pub fn first_for(&self, to: NodeId) -> Option<u64>
        ensures { IsLeast (WaitsFor self.now to) result }
    {
        match to {
            NodeId::Client(client) => self.first_for_client(client),
            NodeId::Server(server) => self.first_for_server(server),
        }
    }

    /// The least number that waits for a client.
    fn first_for_client(&self, client: ClientId) -> Option<u64>
        ensures { IsLeast (WaitsFor self.now (Client client)) result }
    {
        let to = NodeId::Client(client);
        let from_a = self.first(NodeId::Server(ServerId::A), to);
        let from_b = self.first(NodeId::Server(ServerId::B), to);
        lesser(from_a, from_b)
    }

    /// The least number that waits for a server.
    fn first_for_server(&self, server: ServerId) -> Option<u64>
        ensures { IsLeast (WaitsFor self.now (Server server)) result }
    {
        let to = NodeId::Server(server);
        let mut least = None;
        for client in 0..CLIENTS {
            let first = self.first(NodeId::Client(ClientId(client)), to);
            least = lesser(least, first);
        }
        least
    }

    /// The link from one node to another.
    fn link(&self, from: NodeId, to: NodeId) -> Option<&Link>
        ensures value { option_copied result ≡ link_at self.now (link_between from to) }
        ensures formed { IsLinks self.now.links }
    {
        match link_between(from, to) {
            Some(place) => self.links.get(place),
            None => None,
        }
    }
}

/// The lesser of two numbers; of one, that one, and none where there is neither.
pub fn lesser(first: Option<u64>, second: Option<u64>) -> Option<u64>
    ensures { result ≡ lesser first second }
{
    match (first, second) {
        (None, second) => second,
        (Some(first), None) => Some(first),
        (Some(first), Some(second)) => Some(first.min(second)),
    }
}

/// Links on which nothing waits, and of which none is cut.
fn first_links(alloc: Global) -> Result<Vec<Link>, Oom>
    ensures { IfOk result (λ links. links.items ≡ replicate link_count idle_link) }
{
    let mut links = Vec::with_capacity(alloc, LINKS)?;
    for _place in 0..LINKS {
        links.push(Link::new(alloc))?;
    }
    Ok(links)
}
