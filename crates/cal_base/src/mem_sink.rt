ghost use Rattle.std.specs.Prelude.{◌≡◌, [], Some, IfOk};

use crate::failed::Failed;
use crate::oom::Oom;
use crate::sink::Sink;
use std::alloc::Global;
use std::marker::Model;

/// A sink into memory. It never fails.
#[derive(Drop)]
pub struct MemSink {
    bytes: Vec<u8>,
}

impl Model for MemSink {
    ghost use Rattle.std.specs.Prelude.{◌-◌, vec_len, vec_capacity};
    ghost use Rattle.cal_base.specs.Memory.{Memory};

    ghost Value = { Memory };

    ghost view = { λ sink. record { bytes = sink.bytes.items; room = vec_capacity sink.bytes - vec_len sink.bytes } };
}

impl MemSink {
    /// A sink that holds nothing yet.
    pub fn new(alloc: Global) -> Result<MemSink, Oom>
        ensures { IfOk result (λ sink. sink.bytes ≡ []) }
    {
        Ok(MemSink {
            bytes: Vec::new(alloc),
        })
    }

    /// The bytes that it holds.
    pub fn bytes(&self) -> &[u8]
        ensures { result.now ≡ self.now.bytes }
    {
        self.bytes.as_slice()
    }
}

impl Sink for MemSink {
    ghost held = { λ sink. Some sink.bytes };

    ghost room = { λ sink. sink.room };

    ghost fault_count = { λ _. 0 };

    fn reserve(&mut self, bytes: usize) -> Result<(), Oom> {
        self.bytes.reserve(bytes)?;
        Ok(())
    }

    fn write(&mut self, piece: &[u8]) -> Result<(), Failed> {
        self.bytes.extend_from_slice(piece).unwrap();
        Ok(())
    }

    fn faults(&self) -> u64 {
        0
    }
}
