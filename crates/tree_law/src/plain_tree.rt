ghost use Rattle.std.specs.Prelude.{◌≡◌, ◌+◌, ◌≤◌, Option, Some, None, Ok, false, length, map, replicate, IfOk, IfSome, IfNone, OnOk, OnErr, IsTrue, ◌↔◌};
ghost use Rattle.std.specs.Option.{option_copied};
ghost use Rattle.cal_base.specs.Limits.{file_size};
ghost use Rattle.tree_law.specs.Tree.{Tree, empty_tree, first_nodes, no_descriptors, node_at, table_of, descriptor_at, least_unused, is_purged, IsFree, IsLeastFree, IsFull};
ghost use Rattle.file_bytes.specs.Bytes.{resized, written};
ghost use Rattle.tree_law.specs.Idle.{is_named, is_open, with_node};
ghost use Rattle.tree_law.specs.After.{put_name, take_name, with_name, without_name, with_descriptor, with_bytes, changed_node, flushed_node, restored_node, without_client};

use crate::descriptor::{Descriptor, DescriptorTable};
use crate::directory::Directory;
use crate::node::Node;
use crate::sweep::names_it;
use cal_base::{Blob, CLIENTS, ClientId, INODES, Ino, Oom};
use std::alloc::Global;
use std::marker::Model;

/// The file tree, plainly: an inode table whose directories are ordered maps, the descriptors of the 16
/// clients, and which of these are purged.
#[derive(Drop)]
pub struct PlainTree {
    alloc: Global,
    nodes: Vec<Option<Node>>,
    tables: Vec<DescriptorTable>,
    purged: Vec<bool>,
}

impl Model for PlainTree {
    ghost use Rattle.std.specs.Prelude.{◌≡◌, length};
    ghost use Rattle.tree_law.specs.Tree.{Tree};

    ghost Value = { Tree };

    ghost use Rattle.tree_law.specs.contracts.descriptor.DescriptorTable as table;
    ghost use Rattle.tree_law.specs.contracts.directory.Directory as directory;
    ghost use Rattle.tree_law.specs.contracts.regular_file.RegularFile as file;
    ghost use Rattle.std.specs.Coded.{codes};

    ghost coded = { Prim.hlevel (codes, table.the_row.coded, directory.the_row.coded, file.the_row.coded) };

    ghost view = { λ tree. record { nodes = tree.nodes.items; tables = tree.tables.items; purged = tree.purged.items } };

    ghost invariant = { λ tree. (length tree.nodes.items ≡ 512) × (length tree.tables.items ≡ 16) × (length tree.purged.items ≡ 16) };
}

impl PlainTree {
    /// The root directory alone.
    pub fn new(alloc: Global) -> Result<PlainTree, Oom>
        ensures { IfOk result (λ tree. tree ≡ empty_tree) }
    {
        let nodes = first_nodes(alloc)?;
        let tables = first_tables(alloc)?;
        let purged = first_purged(alloc)?;
        Ok(PlainTree {
            alloc,
            nodes,
            tables,
            purged,
        })
    }

    /// The allocator of the tree.
    pub(crate) fn alloc(&self) -> Global {
        self.alloc
    }

    /// What stands at a number.
    pub(crate) fn node(&self, ino: Ino) -> Option<&Node>
        ensures { option_copied result ≡ node_at self.now ino }
    {
        match self.nodes.get(ino.0 as usize) {
            Some(node) => node.as_ref(),
            None => None,
        }
    }

    /// What a descriptor of a client stands for, if it is in use.
    pub(crate) fn descriptor(&self, client: ClientId, fd: u8) -> Option<Descriptor>
        ensures { result ≡ descriptor_at self.now client fd }
    {
        match self.tables.get(client.0 as usize) {
            Some(table) => table.get(fd),
            None => None,
        }
    }

    /// The lowest unused descriptor of a client, if one is unused.
    pub(crate) fn least_unused(&self, client: ClientId) -> Option<u8>
        ensures { result ≡ least_unused (table_of self.now client) }
    {
        match self.tables.get(client.0 as usize) {
            Some(table) => table.least_unused(),
            None => None,
        }
    }

    /// Whether a client is purged.
    pub(crate) fn is_purged(&self, client: ClientId) -> bool
        ensures { result ≡ is_purged self.now client }
    {
        match self.purged.get(client.0 as usize) {
            Some(purged) => *purged,
            None => true,
        }
    }

    /// Whether this is the number of a free inode other than the root.
    pub(crate) fn is_free(&self, ino: Ino) -> bool
        ensures { IsTrue result ↔ IsFree self.now ino }
    {
        ino.0 >= 1 && ino.0 <= 511 && self.node(ino).is_none()
    }

    /// The least free number, if one is free.
    pub fn least_free(&self) -> Option<Ino>
        ensures found { IfSome result (IsLeastFree self.now) }
        ensures full { IfNone result (IsFull self.now) }
    {
        for number in 1..512u32 {
            if self.is_free(Ino(number)) {
                return Some(Ino(number));
            }
        }
        None
    }

    /// Whether a client has this inode open.
    pub(crate) fn is_open(&self, number: u32) -> bool
        ensures { result ≡ is_open self.now number }
    {
        self.tables.iter().any(|table| table.opens(number))
    }

    /// Whether this inode has a name.
    pub(crate) fn is_named(&self, number: u32) -> bool
        ensures { result ≡ is_named self.now number }
    {
        self.nodes.iter().any(|node| names_it(number, node))
    }

    /// Puts a name into a directory. After want of memory all is as it was.
    pub(crate) fn put_name(&mut self, place: Ino, name: Blob, ino: Ino) -> Result<(), Oom>
        ensures ok { OnOk result (self.new ≡ put_name self.old place name ino) }
        ensures err { OnErr result (self.new ≡ self.old) }
    {
        if (place.0 as usize) < self.nodes.len() {
            add_name(&mut self.nodes[place.0 as usize], name, ino)?;
        }
        Ok(())
    }

    /// Takes a name out of a directory.
    pub(crate) fn take_name(&mut self, place: Ino, name: &Blob)
        ensures { self.new ≡ take_name self.old place name.now }
    {
        if (place.0 as usize) < self.nodes.len() {
            remove_name(&mut self.nodes[place.0 as usize], name);
        }
    }

    /// Puts something else at a number; at none above 511.
    pub(crate) fn put_node(&mut self, number: u32, node: Option<Node>)
        ensures { self.new ≡ with_node self.old number node }
    {
        if (number as usize) < self.nodes.len() {
            self.nodes[number as usize] = node;
        }
    }

    /// Lays bytes over those of a file.
    pub(crate) fn write_node(
        &mut self,
        ino: Ino,
        client: ClientId,
        offset: usize,
        bytes: &[u8],
    ) -> Result<(), Oom>
        requires { offset + length bytes.now ≤ file_size }
        ensures ok { OnOk result (self.new ≡ with_bytes self.old client (λ contents. written contents offset bytes.now) (Ok ino)) }
        ensures err { OnErr result (self.new ≡ self.old) }
    {
        if (ino.0 as usize) < self.nodes.len() {
            write_slot(
                &mut self.nodes[ino.0 as usize],
                self.alloc,
                client,
                offset,
                bytes,
            )?;
        }
        Ok(())
    }

    /// Cuts a file off at a size, or grows it to it by zeros.
    pub(crate) fn truncate_node(
        &mut self,
        ino: Ino,
        client: ClientId,
        size: usize,
    ) -> Result<(), Oom>
        requires { size ≤ file_size }
        ensures ok { OnOk result (self.new ≡ with_bytes self.old client (λ contents. resized contents size) (Ok ino)) }
        ensures err { OnErr result (self.new ≡ self.old) }
    {
        if (ino.0 as usize) < self.nodes.len() {
            truncate_slot(&mut self.nodes[ino.0 as usize], self.alloc, client, size)?;
        }
        Ok(())
    }

    /// Makes the present bytes of a file last.
    pub(crate) fn flush_node(&mut self, ino: Ino)
        ensures { self.new ≡ with_node self.old ino.0 (flushed_node (node_at self.old ino)) }
    {
        if (ino.0 as usize) < self.nodes.len() {
            flush_slot(&mut self.nodes[ino.0 as usize]);
        }
    }

    /// Takes a client's unflushed writes and descriptors away, and counts it as purged.
    pub(crate) fn remove_client(&mut self, client: ClientId)
        ensures { self.new ≡ without_client self.old client }
    {
        restore_slots(&mut self.nodes, client);
        if client.0 < CLIENTS {
            self.tables[client.0 as usize].clear();
            self.purged[client.0 as usize] = true;
        }
    }

    /// Makes a descriptor of a client stand for something else, or for nothing.
    pub(crate) fn set_descriptor(
        &mut self,
        client: ClientId,
        fd: u8,
        descriptor: Option<Descriptor>,
    )
        ensures { self.new ≡ with_descriptor self.old client fd descriptor }
    {
        if (client.0 as usize) < self.tables.len() {
            self.tables[client.0 as usize].set(fd, descriptor);
        }
    }
}

/// The nodes of the empty tree.
fn first_nodes(alloc: Global) -> Result<Vec<Option<Node>>, Oom>
    ensures { IfOk result (λ nodes. nodes.items ≡ first_nodes) }
{
    let mut nodes = Vec::with_capacity(alloc, INODES)?;
    nodes.push(Some(Node::Directory(Directory::new(alloc))))?;
    for _i in 1..INODES {
        nodes.push(None)?;
    }
    Ok(nodes)
}

/// The descriptors of the empty tree.
fn first_tables(alloc: Global) -> Result<Vec<DescriptorTable>, Oom>
    ensures { IfOk result (λ tables. tables.items ≡ replicate 16 no_descriptors) }
{
    let mut tables = Vec::with_capacity(alloc, CLIENTS as usize)?;
    for _i in 0..CLIENTS {
        tables.push(DescriptorTable::new(alloc)?)?;
    }
    Ok(tables)
}

/// No client is purged.
fn first_purged(alloc: Global) -> Result<Vec<bool>, Oom>
    ensures { IfOk result (λ purged. purged.items ≡ replicate 16 false) }
{
    Ok(vec![in alloc; false; CLIENTS as usize]?)
}

/// Puts a name into what stands at a number, if that is a directory.
fn add_name(slot: &mut Option<Node>, name: Blob, ino: Ino) -> Result<(), Oom>
    ensures ok { OnOk result (slot.new ≡ with_name slot.old name ino) }
    ensures err { OnErr result (slot.new ≡ slot.old) }
{
    match slot {
        Some(Node::Directory(directory)) => directory.insert(name, ino),
        Some(Node::Regular(_)) => Ok(()),
        None => Ok(()),
    }
}

/// Takes a name out of what stands at a number, if that is a directory.
fn remove_name(slot: &mut Option<Node>, name: &Blob)
    ensures { slot.new ≡ without_name slot.old name.now }
{
    match slot {
        Some(Node::Directory(directory)) => directory.remove(name),
        Some(Node::Regular(_)) => (),
        None => (),
    }
}

/// Lays bytes over those of what stands at a number, if that is a file.
fn write_slot(
    slot: &mut Option<Node>,
    alloc: Global,
    client: ClientId,
    offset: usize,
    bytes: &[u8],
) -> Result<(), Oom>
    requires { offset + length bytes.now ≤ file_size }
    ensures ok { OnOk result (slot.new ≡ changed_node client (λ contents. written contents offset bytes.now) slot.old) }
    ensures err { OnErr result (slot.new ≡ slot.old) }
{
    match slot {
        Some(Node::Directory(_)) => Ok(()),
        Some(Node::Regular(file)) => file.write(alloc, client, offset, bytes),
        None => Ok(()),
    }
}

/// Cuts off or grows what stands at a number, if that is a file.
fn truncate_slot(
    slot: &mut Option<Node>,
    alloc: Global,
    client: ClientId,
    size: usize,
) -> Result<(), Oom>
    requires { size ≤ file_size }
    ensures ok { OnOk result (slot.new ≡ changed_node client (λ contents. resized contents size) slot.old) }
    ensures err { OnErr result (slot.new ≡ slot.old) }
{
    match slot {
        Some(Node::Directory(_)) => Ok(()),
        Some(Node::Regular(file)) => file.truncate(alloc, client, size),
        None => Ok(()),
    }
}

/// Makes the present bytes of what stands at a number last, if that is a file.
fn flush_slot(slot: &mut Option<Node>)
    ensures { slot.new ≡ flushed_node slot.old }
{
    match slot {
        Some(Node::Directory(_)) => (),
        Some(Node::Regular(file)) => file.flush(),
        None => (),
    }
}

/// Takes a client's unflushed writes from all files.
fn restore_slots(slots: &mut [Option<Node>], client: ClientId)
    ensures { slots.new ≡ map (restored_node client) slots.old }
{
    for slot in slots.iter_mut() {
        restore_slot(slot, client);
    }
}

/// Takes a client's unflushed writes from what stands at a number.
fn restore_slot(slot: &mut Option<Node>, client: ClientId)
    ensures { slot.new ≡ restored_node client slot.old }
{
    match slot {
        Some(Node::Directory(_)) => (),
        Some(Node::Regular(file)) => file.restore(client),
        None => (),
    }
}
