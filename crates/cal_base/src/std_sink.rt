ghost use Rattle.std.specs.Prelude.{◌≡◌, ◌^◌, None};

use crate::failed::Failed;
use crate::oom::Oom;
use crate::sink::Sink;
use std::io::{ErrorKind, Write};
use std::marker::Model;

/// A sink over a writer of the system, as standard output. It doesn't tell its bytes, and needs no room.
///
/// A write that a signal interrupts is made again. Each error of the writer, that one too, and each
/// write that takes nothing of a piece that isn't empty, raises the count of faults.
#[derive(Drop)]
pub struct StdSink<W: Write> {
    writer: W,
    faults: u64,
}

impl<W: Write> Model for StdSink<W> {
    ghost use Rattle.std.specs.Prelude.{ℕ};

    ghost Value = { ℕ };

    ghost view = { λ sink. sink.faults };
}

impl<W: Write> StdSink<W> {
    /// A sink that writes to `writer`, which has not failed yet.
    pub fn new(writer: W) -> StdSink<W>
        ensures { result ≡ 0 }
    {
        StdSink { writer, faults: 0 }
    }
}

impl<W: Write> Sink for StdSink<W> {
    ghost held = { λ _. None };

    ghost room = { λ _. 2 ^ 64 };

    ghost fault_count = { λ sink. sink };

    fn reserve(&mut self, _bytes: usize) -> Result<(), Oom> {
        Ok(())
    }

    fn write(&mut self, piece: &[u8]) -> Result<(), Failed> {
        let mut rest = piece;
        for _ in 0..u64::MAX {
            if rest.is_empty() {
                return Ok(());
            }
            match self.writer.write(rest) {
                Ok(0) => {
                    self.faults = self.faults.saturating_add(1);
                    return Err(Failed);
                }
                Ok(count) => rest = &rest[count..],
                Err(error) => {
                    self.faults = self.faults.saturating_add(1);
                    if error.kind() != ErrorKind::Interrupted {
                        return Err(Failed);
                    }
                }
            }
        }
        self.faults = self.faults.saturating_add(1);
        Err(Failed)
    }

    fn faults(&self) -> u64 {
        self.faults
    }
}
