ghost use Rattle.std.specs.Prelude.{◌≡◌, OnOk};
ghost use Rattle.trace_reader.specs.Adding.{with_entry, with_sent, with_write};

use cal_base::Oom;
use cluster_law::{SectorWrite, TraceStep};
use session::Packet;
use tree_law::Entry;

/// Puts a write behind those of a step.
pub(crate) fn push_write(step: &mut TraceStep, write: SectorWrite) -> Result<(), Oom>
    ensures { OnOk result (step.new ≡ with_write step.old write) }
{
    step.writes.push(write)
}

/// Puts an entry behind those of a step.
pub(crate) fn push_entry(step: &mut TraceStep, entry: Entry) -> Result<(), Oom>
    ensures { OnOk result (step.new ≡ with_entry step.old entry) }
{
    step.entries.push(entry)
}

/// Puts a packet behind those of a step.
pub(crate) fn push_sent(step: &mut TraceStep, packet: Packet) -> Result<(), Oom>
    ensures { OnOk result (step.new ≡ with_sent step.old packet) }
{
    step.sent.push(packet)
}
