ghost use Rattle.std.specs.Prelude.{◌≡◌, ◌≤◌, ◌↔◌, Some, IsErr, IfOk, OnOk, OnErr, Contains};
ghost use Rattle.cal_base.specs.Faults.{Rose, counted_up};
ghost use Rattle.cal_base.specs.Source.{Reads};

use crate::failed::Failed;
use crate::mem_source::MemSource;
use crate::source::Source;
use std::marker::Model;

/// A source in memory whose listed calls of `read`, counted from 0, fail, and in these alone the count
/// of faults rises.
#[derive(Drop)]
pub struct FaultSource {
    source: MemSource,
    fails: Vec<u64>,
    calls: u64,
    faults: u64,
}

impl Model for FaultSource {
    ghost use Rattle.cal_base.specs.Faults.{FaultyRest};

    ghost Value = { FaultyRest };

    ghost view = { λ it. record { left = it.source; fails = it.fails.items; calls = it.calls; faults = it.faults } };
}

impl FaultSource {
    /// A source that gives the bytes of `source`, but whose calls with the listed numbers fail.
    pub fn new(source: MemSource, fails: Vec<u64>) -> FaultSource
        ensures { result ≡ record { left = source; fails = fails.items; calls = 0; faults = 0 } }
    {
        FaultSource {
            source,
            fails,
            calls: 0,
            faults: 0,
        }
    }
}

impl Source for FaultSource {
    ghost left = { λ it. Some it.left };

    ghost fault_count = { λ it. it.faults };

    fn read(&mut self, into: &mut [u8]) -> Result<usize, Failed>
        ensures reads { IfOk result (λ count. Reads (Some self.old.left) (Some self.new.left) count into.new) }
        ensures failed { OnErr result (Some self.new.left ≡ Some self.old.left) }
        ensures counted { OnErr result (Rose self.old.faults self.new.faults) }
        ensures later { self.old.faults ≤ self.new.faults }
        ensures listed { IsErr result ↔ Contains self.old.fails self.old.calls }
        ensures raised { OnErr result (self.new.faults ≡ counted_up self.old.faults) }
        ensures unlisted { OnOk result (self.new.faults ≡ self.old.faults) }
        ensures calls { self.new.calls ≡ counted_up self.old.calls }
        ensures fails { self.new.fails ≡ self.old.fails }
    {
        let fails = self.fails.contains(&self.calls);
        self.calls = self.calls.saturating_add(1);
        if fails {
            self.faults = self.faults.saturating_add(1);
            return Err(Failed);
        }
        self.source.read(into)
    }

    fn faults(&self) -> u64 {
        self.faults
    }
}
