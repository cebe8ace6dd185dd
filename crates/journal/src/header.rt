ghost use Rattle.std.specs.Prelude.{◌≡◌, ◌≤◌, ◌<◌, ◌+◌, ◌*◌, ℕ, IsTrue, List, length, drop, nat_eq, slice_index};
ghost use Rattle.std.specs.List.{list_all};
ghost use Rattle.byteorder.specs.Endian.{big_number};
ghost use Rattle.cal_base.specs.Limits.{block_size, transaction_homes};
ghost use Rattle.shared_disk.specs.Homes.{IsTransaction, are_ascending, is_home, sectors_of};
ghost use Rattle.journal.specs.Layout.{header_of, is_header, homes_in};

use cal_base::{BLOCK_SIZE, SECTORS, Sector, TRANSACTION_HOMES};
use cal_fields::{SectorFields, take_u32};
use shared_disk::{AT_HEAD, AT_MAP};

/// The header of a transaction: the count of its homes, and the homes in four bytes each.
pub fn header_with(homes: &[(u32, Sector)]) -> Sector
    requires { length homes.now ≤ transaction_homes }
    ensures { result ≡ header_of homes.now }
{
    let mut fields = SectorFields::new();
    fields.put_u8(homes.len() as u8);
    for i in 0..homes.len() {
        fields.put_u32(homes[i].0);
    }
    let mut header = [0; BLOCK_SIZE];
    fields.finish(&mut header);
    header
}

/// Whether a header is in its grammar: a count of 1 to 16, that many homes ascending, and zeros.
pub fn is_good(header: &Sector) -> bool
    ensures { result ≡ is_header header.now }
{
    let count = header[0] as usize;
    1 <= count
        && count <= TRANSACTION_HOMES
        && homes_ascend(header, count)
        && is_blank(&header[1 + 4 * count..])
}

/// Whether all bytes are zero.
fn is_blank(bytes: &[u8]) -> bool
    ensures { result ≡ list_all (λ byte. nat_eq byte 0) bytes.now }
{
    bytes.iter().all(|byte| *byte == 0)
}

/// Whether the homes of a header ascend, and each is one.
fn homes_ascend(header: &Sector, count: usize) -> bool
    requires few { count ≤ transaction_homes }
    requires count { count ≡ slice_index header.now 0 }
    ensures { result ≡ are_ascending 0 (homes_in header.now) }
{
    let mut least = 0;
    for i in 0..count {
        let home = home_at(header, i);
        if home < least || !may_be_home(home) {
            return false;
        }
        least = home + 1;
    }
    true
}

/// The home at a place of a header.
pub fn home_at(header: &Sector, place: usize) -> u32
    requires { place < transaction_homes }
    ensures { result ≡ big_number 4 (drop (1 + 4 * place) header.now) }
{
    let mut from = &header[1 + 4 * place..];
    take_u32(&mut from).unwrap()
}

/// Whether a transaction may write this sector: the head, or one behind the journal's body.
fn may_be_home(sector: u32) -> bool
    ensures { result ≡ is_home sector }
{
    sector == AT_HEAD || AT_MAP <= sector && sector < SECTORS
}

/// A header has one spelling. Transactions with the same header have the same homes, and a sector that
/// is in the grammar of a header is, byte for byte, the header of those homes that it names.
pub fn a_header_has_one_spelling()
    ensures same { (some others : List (ℕ × List ℕ)) → IsTransaction some → IsTransaction others
        → header_of some ≡ header_of others → sectors_of some ≡ sectors_of others }
    ensures spelled { (header : List ℕ) (homes : List (ℕ × List ℕ)) → length header ≡ block_size → ((i : ℕ) → slice_index header i < 256)
        → IsTrue (is_header header) → homes_in header ≡ sectors_of homes → header ≡ header_of homes }
{}
