ghost use Rattle.std.specs.Prelude.{◌≡◌, ℕ, List, Ok, Err, IfOk, length};
ghost use Rattle.message.specs.Decoding.{Reads, ReadsAs};
ghost use Rattle.message.specs.Reading.{byte_at, number_at, take_at};

use crate::stop::Stop;
use cal_fields::{take_bytes, take_u8, take_u16, take_u32, take_u64};

/// Bytes that are read field by field, from the left.
#[derive(Drop)]
pub(crate) struct Input<'a> {
    pub(crate) rest: &'a [u8],
}

/// Bytes are missing.
const MISSING: Stop = Stop::Outside { left: 0 };

impl<'a> Input<'a> {
    /// One byte.
    pub(crate) fn byte(&mut self) -> Result<u8, Stop>
        ensures { Reads result self.new.rest.now (byte_at self.old.rest.now) }
    {
        match take_u8(&mut self.rest) {
            Ok(byte) => Ok(byte),
            Err(_) => Err(MISSING),
        }
    }

    /// A number of two bytes.
    pub(crate) fn u16(&mut self) -> Result<u16, Stop>
        ensures { Reads result self.new.rest.now (number_at 2 self.old.rest.now) }
    {
        match take_u16(&mut self.rest) {
            Ok(number) => Ok(number),
            Err(_) => Err(MISSING),
        }
    }

    /// A number of four bytes.
    pub(crate) fn u32(&mut self) -> Result<u32, Stop>
        ensures { Reads result self.new.rest.now (number_at 4 self.old.rest.now) }
    {
        match take_u32(&mut self.rest) {
            Ok(number) => Ok(number),
            Err(_) => Err(MISSING),
        }
    }

    /// A number of eight bytes.
    pub(crate) fn u64(&mut self) -> Result<u64, Stop>
        ensures { Reads result self.new.rest.now (number_at 8 self.old.rest.now) }
    {
        match take_u64(&mut self.rest) {
            Ok(number) => Ok(number),
            Err(_) => Err(MISSING),
        }
    }

    /// So many bytes.
    pub(crate) fn bytes(&mut self, count: usize) -> Result<&'a [u8], Stop>
        ensures read { ReadsAs (λ bytes. bytes.now) result self.new.rest.now (take_at count self.old.rest.now) }
        ensures count { IfOk result (λ bytes. length bytes.now ≡ count) }
    {
        match take_bytes(&mut self.rest, count) {
            Ok(bytes) => Ok(bytes),
            Err(_) => Err(MISSING),
        }
    }
}
