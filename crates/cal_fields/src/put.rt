ghost use Rattle.std.specs.Prelude.{◌≡◌, ◌∷◌, [], ◌++◌, OnOk, OnErr};
ghost use Rattle.cal_fields.specs.BigEndian.{big_endian};

use byteorder::{BigEndian, ByteOrder};
use cal_base::Oom;

/// Puts bytes at the end. After want of memory `out` is as it was.
pub fn put_bytes(out: &mut Vec<u8>, bytes: &[u8]) -> Result<(), Oom>
    ensures ok { OnOk result (out.new.items ≡ out.old.items ++ bytes.now) }
    ensures err { OnErr result (out.new.items ≡ out.old.items) }
{
    out.extend_from_slice(bytes)?;
    Ok(())
}

/// Puts one byte at the end. After want of memory `out` is as it was.
pub fn put_u8(out: &mut Vec<u8>, number: u8) -> Result<(), Oom>
    ensures ok { OnOk result (out.new.items ≡ out.old.items ++ number ∷ []) }
    ensures err { OnErr result (out.new.items ≡ out.old.items) }
{
    out.push(number)?;
    Ok(())
}

/// Puts a number of two bytes at the end. After want of memory `out` is as it was.
pub fn put_u16(out: &mut Vec<u8>, number: u16) -> Result<(), Oom>
    ensures ok { OnOk result (out.new.items ≡ out.old.items ++ big_endian 2 number) }
    ensures err { OnErr result (out.new.items ≡ out.old.items) }
{
    put_bytes(out, &bytes_of_u16(number))
}

/// Puts a number of four bytes at the end. After want of memory `out` is as it was.
pub fn put_u32(out: &mut Vec<u8>, number: u32) -> Result<(), Oom>
    ensures ok { OnOk result (out.new.items ≡ out.old.items ++ big_endian 4 number) }
    ensures err { OnErr result (out.new.items ≡ out.old.items) }
{
    put_bytes(out, &bytes_of_u32(number))
}

/// Puts a number of eight bytes at the end. After want of memory `out` is as it was.
pub fn put_u64(out: &mut Vec<u8>, number: u64) -> Result<(), Oom>
    ensures ok { OnOk result (out.new.items ≡ out.old.items ++ big_endian 8 number) }
    ensures err { OnErr result (out.new.items ≡ out.old.items) }
{
    put_bytes(out, &bytes_of_u64(number))
}

/// The bytes of a number, the highest first.
pub(crate) fn bytes_of_u16(number: u16) -> [u8; 2]
    ensures { result ≡ big_endian 2 number }
{
    let mut bytes = [0; 2];
    BigEndian::write_u16(&mut bytes, number);
    bytes
}

/// The bytes of a number, the highest first.
pub(crate) fn bytes_of_u32(number: u32) -> [u8; 4]
    ensures { result ≡ big_endian 4 number }
{
    let mut bytes = [0; 4];
    BigEndian::write_u32(&mut bytes, number);
    bytes
}

/// The bytes of a number, the highest first.
pub(crate) fn bytes_of_u64(number: u64) -> [u8; 8]
    ensures { result ≡ big_endian 8 number }
{
    let mut bytes = [0; 8];
    BigEndian::write_u64(&mut bytes, number);
    bytes
}
