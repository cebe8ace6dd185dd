ghost use Rattle.std.specs.Prelude.{◌≡◌, ◌<◌, Option, Some, None, IfOk, IfSome, is_none, length, position, replicate, slice_index_or, slice_set};
ghost use Rattle.std.specs.List.{list_any};
ghost use Rattle.tree_law.specs.Tree.{no_descriptors, least_unused};
ghost use Rattle.tree_law.specs.Idle.{opens_it};

use crate::mode::Mode;
use cal_base::{DESCRIPTORS, Ino, Oom};
use std::alloc::Global;
use std::marker::Model;

/// What a descriptor stands for: an open file, and what it is open for.
#[derive(Clone, Copy, Debug, PartialEq, Eq)]
pub struct Descriptor {
    pub ino: Ino,
    pub mode: Mode,
}

/// The descriptors of one client, 0 to 31. Contracts see the list of their places.
#[derive(Debug, Drop)]
pub struct DescriptorTable {
    places: Vec<Option<Descriptor>>,
}

impl Model for DescriptorTable {
    ghost use Rattle.std.specs.Prelude.{◌≡◌, List, Option, length};
    ghost use Rattle.std.specs.Coded.{codes};
    ghost use Rattle.tree_law.specs.declared.descriptor.Descriptor.{Descriptor};

    ghost Value = { List (Option Descriptor) };

    ghost coded = { Prim.hlevel codes };

    ghost view = { λ table. table.places.items };

    ghost invariant = { λ table. length table.places.items ≡ 32 };
}

impl DescriptorTable {
    /// No descriptor is in use.
    pub fn new(alloc: Global) -> Result<DescriptorTable, Oom>
        ensures { IfOk result (λ table. table ≡ no_descriptors) }
    {
        let places = vec![in alloc; None; DESCRIPTORS as usize]?;
        Ok(DescriptorTable { places })
    }

    /// What a descriptor stands for, if it is in use.
    pub fn get(&self, fd: u8) -> Option<Descriptor>
        ensures { result ≡ slice_index_or self.now fd None }
    {
        match self.places.get(fd as usize) {
            Some(place) => *place,
            None => None,
        }
    }

    /// The lowest unused descriptor; none where all 32 are in use.
    pub fn least_unused(&self) -> Option<u8>
        ensures { result ≡ least_unused self.now }
    {
        match first_unused(self.places.as_slice()) {
            Some(place) => Some(place as u8),
            None => None,
        }
    }

    /// Whether a descriptor stands for this inode.
    pub fn opens(&self, ino: u32) -> bool
        ensures { result ≡ list_any (opens_it ino) self.now }
    {
        self.places.iter().any(|place| is_of(place, ino))
    }

    /// Makes a descriptor stand for something else, or for nothing. One above 31 stays unused.
    pub fn set(&mut self, fd: u8, descriptor: Option<Descriptor>)
        ensures { self.new ≡ slice_set self.old fd descriptor }
    {
        if fd < DESCRIPTORS {
            self.places[fd as usize] = descriptor;
        }
    }

    /// Gives all descriptors back.
    pub fn clear(&mut self)
        ensures { self.new ≡ no_descriptors }
    {
        clear_places(&mut self.places);
    }
}

/// Whether a place stands for this inode.
fn is_of(place: &Option<Descriptor>, ino: u32) -> bool
    ensures { result ≡ opens_it ino place.now }
{
    match place {
        Some(descriptor) => descriptor.ino.0 == ino,
        None => false,
    }
}

/// Makes all places stand for nothing.
fn clear_places(places: &mut [Option<Descriptor>])
    ensures { places.new ≡ replicate (length places.old) None }
{
    for place in places.iter_mut() {
        *place = None;
    }
}

/// The first place that stands for nothing.
fn first_unused(places: &[Option<Descriptor>]) -> Option<usize>
    ensures first { result ≡ position is_none places.now }
    ensures within { IfSome result (λ place. place < length places.now) }
{
    places.iter().position(|place| place.is_none())
}
