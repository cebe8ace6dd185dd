ghost use Rattle.std.specs.Prelude.{◌≡◌, ◌<◌, length, slice_get, IfOk, IfSome, MatchResult};
ghost use Rattle.cal_base.specs.Limits as limits;
ghost use Rattle.shared_disk.specs.Disk.{IsBlank, IsFencedOut};

use crate::disk_refusal::DiskRefusal;
use crate::port_disk::PortDisk;
use cal_base::{BLOCK_SIZE, Failed, Oom, SECTORS, Sector, View};
use std::alloc::Global;
use std::marker::Model;

/// A disk in memory, which keeps its changes. It never fails, and takes memory as it is made and in
/// `reserve` alone.
#[derive(Drop)]
pub struct MemDisk {
    sectors: Vec<Sector>,
    key: u64,
    changes: Vec<(u32, Sector)>,
}

impl Model for MemDisk {
    ghost use Rattle.std.specs.Prelude.{◌-◌, Some, vec_len, vec_capacity};
    ghost use Rattle.shared_disk.specs.Disk.{Disk};
    ghost use Rattle.shared_disk.specs.Sectors.{IsWhole};

    ghost Value = { Disk };

    ghost view = { λ it. record { sectors = Some it.sectors.items; key = it.key; changes = it.changes.items; room = vec_capacity it.changes - vec_len it.changes } };

    ghost invariant = { λ it. IsWhole it.sectors.items };
}

impl MemDisk {
    /// A disk of zeros, under key 0, without a change.
    pub fn new(alloc: Global) -> Result<MemDisk, Oom>
        ensures { IfOk result IsBlank }
    {
        let mut sectors = Vec::with_capacity(alloc, SECTORS as usize)?;
        for _i in 0..SECTORS {
            sectors.push([0; BLOCK_SIZE])?;
        }
        Ok(MemDisk {
            sectors,
            key: 0,
            changes: Vec::new(alloc),
        })
    }

    /// The bytes of a sector.
    pub fn sector(&self, sector: u32) -> &Sector
        requires { sector < limits.sectors }
        ensures bytes { IfSome self.now.sectors (λ sectors. slice_get sectors sector ≡ Some result.now) }
        ensures whole { length result.now ≡ limits.block_size }
    {
        &self.sectors[sector as usize]
    }

    /// The changes: sector and bytes of each accepted write and of each failed one, in order.
    pub fn changes(&self) -> &[(u32, Sector)]
        ensures { result.now ≡ self.now.changes }
    {
        self.changes.as_slice()
    }

    /// Whether a call under this view is let through.
    pub(crate) fn admit(&self, view: View) -> Result<(), DiskRefusal>
        ensures { MatchResult result (λ _. self.now.key ≡ view.0) (λ why. IsFencedOut self.now view.0 why) }
    {
        if view.0 == self.key {
            return Ok(());
        }
        Err(DiskRefusal::Fenced {
            mine: view,
            current: View(self.key),
        })
    }
}

impl PortDisk for MemDisk {
    ghost means = { λ it. it };

    ghost fault_count = { λ _. 0 };

    fn reserve(&mut self, writes: usize) -> Result<(), Oom> {
        self.changes.reserve(writes)?;
        Ok(())
    }

    fn read(&mut self, view: View, sector: u32, into: &mut Sector) -> Result<(), DiskRefusal> {
        self.admit(view)?;
        *into = self.sectors[sector as usize];
        Ok(())
    }

    fn write(&mut self, view: View, sector: u32, from: &Sector) -> Result<(), DiskRefusal> {
        self.admit(view)?;
        self.sectors[sector as usize] = *from;
        self.changes.push_reserved((sector, *from));
        Ok(())
    }

    fn fence(&mut self, view: View) -> Result<View, Failed> {
        self.key = self.key.max(view.0);
        Ok(View(self.key))
    }

    fn faults(&self) -> u64 {
        0
    }
}
