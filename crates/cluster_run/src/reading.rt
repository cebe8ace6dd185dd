ghost use Rattle.std.specs.Prelude.{◌≤◌, length, IfOk, IfErr};
ghost use Rattle.cal_base.specs.Limits as limits;
ghost use Rattle.run_status.specs.Taking.{Left};
ghost use Rattle.cluster_run.specs.Reading.{IsReadAll, WhyUnread, IsPiece, IsNoPiece};

use cal_base::{SCRIPT_BYTES, Source};
use std::alloc::{AllocError, Global};

/// Why a source was not read to its end.
#[derive(Clone, Copy, Debug, PartialEq, Eq)]
pub enum ReadError {
    /// The source failed.
    ReadFault,
    OutOfMemory,
}

/// How many bytes are read at a time.
const PIECE: usize = 4_096;

/// Reads a source to its end, or one byte more than a script may have.
pub(crate) fn read_all<S: Source>(alloc: Global, source: &mut S) -> Result<Vec<u8>, ReadError>
    ensures ok { IfOk result (λ bytes. IsReadAll (record { left = S.left source.old; faults = S.fault_count source.old }) bytes.items (record { left = S.left source.new; faults = S.fault_count source.new })) }
    ensures err { IfErr result (WhyUnread (record { left = S.left source.old; faults = S.fault_count source.old }) (record { left = S.left source.new; faults = S.fault_count source.new })) }
{
    let mut bytes = Vec::new(alloc);
    for _ in 0..u64::MAX {
        if bytes.len() > SCRIPT_BYTES {
            return Ok(bytes);
        }
        match read_piece(source, &mut bytes) {
            Ok(0) => return Ok(bytes),
            Ok(_) => {}
            Err(error) => return Err(error),
        }
    }
    Err(ReadError::OutOfMemory)
}

/// Reads a piece behind the bytes that were read, and answers how long it is: 0 at the end of the source.
fn read_piece<S: Source>(source: &mut S, bytes: &mut Vec<u8>) -> Result<usize, ReadError>
    requires { length bytes.old.items ≤ limits.script_bytes }
    ensures ok { IfOk result (IsPiece (record { left = S.left source.old; faults = S.fault_count source.old }) bytes.old.items bytes.new.items (record { left = S.left source.new; faults = S.fault_count source.new })) }
    ensures err { IfErr result (IsNoPiece (record { left = S.left source.old; faults = S.fault_count source.old }) (record { left = S.left source.new; faults = S.fault_count source.new })) }
{
    let mut buffer = [0; PIECE];
    let wanted = PIECE.min(SCRIPT_BYTES + 1 - bytes.len());
    let Ok(count) = source.read(&mut buffer[..wanted]) else {
        return Err(ReadError::ReadFault);
    };
    match bytes.extend_from_slice(&buffer[..count]) {
        Ok(()) => Ok(count),
        Err(AllocError) => Err(ReadError::OutOfMemory),
    }
}
