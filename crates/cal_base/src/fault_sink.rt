ghost use Rattle.std.specs.Prelude.{◌≡◌, ◌+◌, ◌≤◌, ◌↔◌, length, Some, IsErr, OnOk, OnErr, Contains};
ghost use Rattle.std.specs.Io.KnownBytes.{append_known};
ghost use Rattle.cal_base.specs.Faults.{Rose, counted_up};
ghost use Rattle.cal_base.specs.Sink.{TakesPrefix};

use crate::failed::Failed;
use crate::mem_sink::MemSink;
use crate::oom::Oom;
use crate::sink::Sink;
use std::marker::Model;

/// A sink in memory whose listed calls of `write`, counted from 0, fail and take nothing. Only a call of
/// `write` counts as one, and the count of faults rises in those that fail alone.
#[derive(Drop)]
pub struct FaultSink {
    sink: MemSink,
    fails: Vec<u64>,
    calls: u64,
    faults: u64,
}

impl Model for FaultSink {
    ghost use Rattle.cal_base.specs.Faults.{FaultyMemory};

    ghost Value = { FaultyMemory };

    ghost view = { λ it. record { memory = it.sink; fails = it.fails.items; calls = it.calls; faults = it.faults } };
}

impl FaultSink {
    /// A sink that writes into `sink`, but whose calls of `write` with the listed numbers fail.
    pub fn new(sink: MemSink, fails: Vec<u64>) -> FaultSink
        ensures { result ≡ record { memory = sink; fails = fails.items; calls = 0; faults = 0 } }
    {
        FaultSink {
            sink,
            fails,
            calls: 0,
            faults: 0,
        }
    }

    /// The bytes that it holds.
    pub fn bytes(&self) -> &[u8]
        ensures { result.now ≡ self.now.memory.bytes }
    {
        self.sink.bytes()
    }
}

impl Sink for FaultSink {
    ghost held = { λ it. Some it.memory.bytes };

    ghost room = { λ it. it.memory.room };

    ghost fault_count = { λ it. it.faults };

    fn reserve(&mut self, bytes: usize) -> Result<(), Oom>
        ensures room { OnOk result (bytes ≤ self.new.memory.room) }
        ensures oom { OnErr result (self.new.memory.room ≡ self.old.memory.room) }
        ensures keeps { self.old.memory.room ≤ self.new.memory.room }
        ensures held { Some self.new.memory.bytes ≡ Some self.old.memory.bytes }
        ensures faults { self.new.faults ≡ self.old.faults }
        ensures calls { self.new.calls ≡ self.old.calls }
        ensures fails { self.new.fails ≡ self.old.fails }
    {
        self.sink.reserve(bytes)
    }

    fn write(&mut self, piece: &[u8]) -> Result<(), Failed>
        requires { length piece.now ≤ self.old.memory.room }
        ensures ok { OnOk result (Some self.new.memory.bytes ≡ append_known (Some self.old.memory.bytes) piece.now) }
        ensures failed { OnErr result (TakesPrefix (Some self.old.memory.bytes) piece.now (Some self.new.memory.bytes)) }
        ensures room { self.old.memory.room ≤ self.new.memory.room + length piece.now }
        ensures counted { OnErr result (Rose self.old.faults self.new.faults) }
        ensures later { self.old.faults ≤ self.new.faults }
        ensures listed { IsErr result ↔ Contains self.old.fails self.old.calls }
        ensures nothing_taken { OnErr result (self.new.memory ≡ self.old.memory) }
        ensures raised { OnErr result (self.new.faults ≡ counted_up self.old.faults) }
        ensures unlisted { OnOk result (self.new.faults ≡ self.old.faults) }
        ensures calls { self.new.calls ≡ counted_up self.old.calls }
        ensures fails { self.new.fails ≡ self.old.fails }
    {
        let fails = self.fails.contains(&self.calls);
        self.calls = self.calls.saturating_add(1);
        if fails {
            self.faults = self.faults.saturating_add(1);
            return Err(Failed);
        }
        self.sink.write(piece)
    }

    fn faults(&self) -> u64 {
        self.faults
    }
}
