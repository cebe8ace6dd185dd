ghost use Rattle.std.specs.Prelude.{◌≡◌, IfOk, IsTrue, ◌↔◌};
ghost use Rattle.run_trace.specs.Traces.{IsBody, IsSpelling};

use cal_base::Oom;
use message::{DecodeError, decode};
use std::alloc::Global;

/// Whether bytes are the spelling of a message.
fn is_spelling(alloc: Global, bytes: &[u8]) -> Result<bool, Oom>
    ensures { IfOk result (λ is. IsTrue is ↔ IsSpelling bytes.now) }
{
    match decode(alloc, bytes) {
        Ok(_) => Ok(true),
        Err(DecodeError::BadMessage { at: _ }) => Ok(false),
        Err(DecodeError::OutOfMemory) => Err(Oom),
    }
}

/// Whether a packet with this number can carry these bytes: a message, or nothing in a bare acknowledgement.
pub(crate) fn is_body(alloc: Global, number: u64, bytes: &[u8]) -> Result<bool, Oom>
    ensures { IfOk result (λ is. IsTrue is ↔ IsBody number bytes.now) }
{
    if number == 0 && bytes.is_empty() {
        return Ok(true);
    }
    is_spelling(alloc, bytes)
}
