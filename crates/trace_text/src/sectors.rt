ghost use Rattle.std.specs.Prelude.{◌≡◌, ◌≤◌, ◌++◌, codes, length, take, OnOk};
ghost use Rattle.std.specs.Fmt.{decimal};
ghost use Rattle.trace_text.specs.Line.{line};
ghost use Rattle.trace_text.specs.Sectors.{sector_text, trimmed, write_line, writes_text};

use crate::words::put_hex_or_dash;
use cal_base::Oom;
use cluster_law::SectorWrite;
use reply_text::{put, put_field};

/// How many bytes there are without the zero bytes at the end.
fn trimmed_len(bytes: &[u8]) -> usize
    ensures within { result ≤ length bytes.now }
    ensures value { take result bytes.now ≡ trimmed bytes.now }
{
    let mut count = bytes.len();
    while count > 0 && bytes[count - 1] == 0 {
        count -= 1;
    }
    count
}

/// Puts a sector in hexadecimal without the zero bytes at its end, or a dash where all are zero.
pub(crate) fn put_sector(text: &mut Vec<u8>, sector: &[u8]) -> Result<(), Oom>
    ensures { OnOk result (text.new.items ≡ text.old.items ++ sector_text sector.now) }
{
    put_hex_or_dash(text, &sector[..trimmed_len(sector)])
}

/// Puts the line of a write.
fn put_write(text: &mut Vec<u8>, write: &SectorWrite) -> Result<(), Oom>
    ensures { OnOk result (text.new.items ≡ text.old.items ++ line (write_line write.now)) }
{
    put_field(text, "write ", u64::from(write.0))?;
    put(text, " ")?;
    put_sector(text, &write.1)?;
    put(text, "\n")
}

/// Puts a line for each write, in order.
pub(crate) fn put_writes(text: &mut Vec<u8>, writes: &[SectorWrite]) -> Result<(), Oom>
    ensures { OnOk result (text.new.items ≡ text.old.items ++ writes_text writes.now) }
{
    for write in writes {
        put_write(text, write)?;
    }
    Ok(())
}
