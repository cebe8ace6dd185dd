ghost use Rattle.std.specs.Prelude.{◌≡◌, ◌≤◌, ◌<◌, ◌↔◌, length, slice_get, Some, None, IfSome, IfNone, OnOk, OnErr, IfErr, IsErr, IsErrOf, IsTrue, Contains};
ghost use Rattle.cal_base.specs.Limits as limits;
ghost use Rattle.cal_base.specs.Faults.{Rose};
ghost use Rattle.shared_disk.specs.Disk.{Reads, Writes, Fences, TellsWhole};
ghost use Rattle.shared_disk.specs.Faulty.{CountsCall, CountsNothing, IsFault, Leaves};

use crate::disk_refusal::DiskRefusal;
use crate::mem_disk::MemDisk;
use crate::port_disk::PortDisk;
use cal_base::{Failed, Oom, Sector, View};
use std::marker::Model;

/// A disk in memory whose listed calls fail. The calls of `read`, `write` and `fence` are counted
/// together, from 0; `reserve` is none of them. A listed call that meets another key is refused for
/// that, and is no fault. A failing write leaves its sector as it was, or the bytes that are given.
#[derive(Drop)]
pub struct FaultDisk {
    disk: MemDisk,
    fails: Vec<u64>,
    left: Option<Sector>,
    calls: u64,
    faults: u64,
}

impl Model for FaultDisk {
    ghost use Rattle.std.specs.Prelude.{◌≡◌, length, IfSome};
    ghost use Rattle.cal_base.specs.Limits as limits;
    ghost use Rattle.shared_disk.specs.Faulty.{FaultyDisk};

    ghost Value = { FaultyDisk };

    ghost view = { λ it. record { disk = it.disk; fails = it.fails.items; left = it.left; calls = it.calls; faults = it.faults } };

    ghost invariant = { λ it. IfSome it.left (λ bytes. length bytes ≡ limits.block_size) };
}

impl FaultDisk {
    /// The disk `disk`, but its calls with the listed numbers fail, and a write then leaves its sector.
    pub fn new(disk: MemDisk, fails: Vec<u64>) -> FaultDisk
        ensures { result ≡ record { disk = disk; fails = fails.items; left = None; calls = 0; faults = 0 } }
    {
        FaultDisk {
            disk,
            fails,
            left: None,
            calls: 0,
            faults: 0,
        }
    }

    /// The disk `disk`, but its calls with the listed numbers fail, and a write then leaves these bytes
    /// in its sector.
    pub fn leaving(disk: MemDisk, fails: Vec<u64>, left: Sector) -> FaultDisk
        ensures { result ≡ record { disk = disk; fails = fails.items; left = Some left; calls = 0; faults = 0 } }
    {
        FaultDisk {
            disk,
            fails,
            left: Some(left),
            calls: 0,
            faults: 0,
        }
    }

    /// The disk as it stands.
    pub fn disk(&self) -> &MemDisk
        ensures { result.now ≡ self.now.disk }
    {
        &self.disk
    }

    /// Counts a call, and answers whether it is listed.
    fn is_listed(&mut self) -> bool
        ensures listed { IsTrue result ↔ Contains self.old.fails self.old.calls }
        ensures calls { CountsCall self.old self.new }
        ensures disk { self.new.disk ≡ self.old.disk }
        ensures faults { self.new.faults ≡ self.old.faults }
    {
        let listed = self.fails.contains(&self.calls);
        self.calls = self.calls.saturating_add(1);
        listed
    }

    /// What a failing write leaves in a sector.
    fn leaves(&self, sector: u32) -> Sector
        requires { sector < limits.sectors }
        ensures given { IfSome self.now.left (λ bytes. result ≡ bytes) }
        ensures kept { IfNone self.now.left (IfSome self.now.disk.sectors (λ sectors. slice_get sectors sector ≡ Some result)) }
        ensures whole { length result ≡ limits.block_size }
    {
        match &self.left {
            Some(bytes) => *bytes,
            None => *self.disk.sector(sector),
        }
    }
}

impl PortDisk for FaultDisk {
    ghost means = { λ it. it.disk };

    ghost fault_count = { λ it. it.faults };

    fn reserve(&mut self, writes: usize) -> Result<(), Oom>
        ensures room { OnOk result (writes ≤ self.new.disk.room) }
        ensures keeps { self.old.disk.room ≤ self.new.disk.room }
        ensures same { self.new.disk ≡ record self.old.disk { room = self.new.disk.room } }
        ensures oom { OnErr result (self.new.disk ≡ self.old.disk) }
        ensures whole { OnOk result (TellsWhole self.new.disk) }
        ensures faults { self.new.faults ≡ self.old.faults }
        ensures calls { CountsNothing self.old self.new }
    {
        self.disk.reserve(writes)
    }

    fn read(&mut self, view: View, sector: u32, into: &mut Sector) -> Result<(), DiskRefusal>
        requires { sector < limits.sectors }
        ensures reads { Reads self.old.disk view.0 sector into.new result }
        ensures same { self.new.disk ≡ self.old.disk }
        ensures whole { OnOk result (TellsWhole self.new.disk) }
        ensures counted { IfErr result (λ why. why ≡ DiskRefusal.Failed → Rose self.old.faults self.new.faults) }
        ensures later { self.old.faults ≤ self.new.faults }
        ensures listed { IsErrOf result DiskRefusal.Failed ↔ IsFault self.old view.0 }
        ensures unlisted { ¬ IsFault self.old view.0 → self.new.faults ≡ self.old.faults }
        ensures calls { CountsCall self.old self.new }
    {
        let fails = self.is_listed();
        self.disk.admit(view)?;
        if fails {
            self.faults = self.faults.saturating_add(1);
            return Err(DiskRefusal::Failed);
        }
        self.disk.read(view, sector, into)
    }

    fn write(&mut self, view: View, sector: u32, from: &Sector) -> Result<(), DiskRefusal>
        requires within { sector < limits.sectors }
        requires room { 0 < self.old.disk.room }
        ensures writes { Writes self.old.disk view.0 sector from.now result self.new.disk }
        ensures whole { OnOk result (TellsWhole self.new.disk) }
        ensures counted { IfErr result (λ why. why ≡ DiskRefusal.Failed → Rose self.old.faults self.new.faults) }
        ensures later { self.old.faults ≤ self.new.faults }
        ensures listed { IsErrOf result DiskRefusal.Failed ↔ IsFault self.old view.0 }
        ensures unlisted { ¬ IsFault self.old view.0 → self.new.faults ≡ self.old.faults }
        ensures left { IfErr result (λ why. why ≡ DiskRefusal.Failed → Leaves self.old.left self.old.disk sector self.new.disk) }
        ensures calls { CountsCall self.old self.new }
    {
        let fails = self.is_listed();
        if !fails {
            return self.disk.write(view, sector, from);
        }
        let bytes = self.leaves(sector);
        self.disk.write(view, sector, &bytes)?;
        self.faults = self.faults.saturating_add(1);
        Err(DiskRefusal::Failed)
    }

    fn fence(&mut self, view: View) -> Result<View, Failed>
        ensures fences { Fences self.old.disk view.0 result self.new.disk }
        ensures whole { OnOk result (TellsWhole self.new.disk) }
        ensures counted { OnErr result (Rose self.old.faults self.new.faults) }
        ensures later { self.old.faults ≤ self.new.faults }
        ensures listed { IsErr result ↔ Contains self.old.fails self.old.calls }
        ensures unlisted { OnOk result (self.new.faults ≡ self.old.faults) }
        ensures left { OnErr result (self.new.disk ≡ self.old.disk) }
        ensures calls { CountsCall self.old self.new }
    {
        if self.is_listed() {
            self.faults = self.faults.saturating_add(1);
            return Err(Failed);
        }
        self.disk.fence(view)
    }

    fn faults(&self) -> u64 {
        self.faults
    }
}
