ghost use Rattle.std.specs.Prelude.{◌≡◌, ◌≢◌, ◌↔◌, ◌≤◌, ◌<◌, ◌^◌, ◌++◌, ◌∷◌, [], ℕ, List, Ok, length, IsTrue, IfOk, OnErr};
ghost use Rattle.cal_base.specs.Limits as limits;
ghost use Rattle.cal_fields.specs.BigEndian.{big_endian};
ghost use Rattle.volume.specs.Head.{SpellsHead, head_fields, head_size, mark};

use cal_base::{CLIENTS, SECTORS, Sector};
use cal_fields::{SectorFields, padded_front, take_bytes, take_u8, take_u32};

/// Bytes of the fields of a head.
const HEAD_SIZE: usize = 13;

/// A sector spells no head.
#[derive(Clone, Copy, Debug, PartialEq, Eq)]
pub struct BadHead;

/// The count of clients, 1 to 16, that a head spells; `BadHead` exactly where the sector spells none.
pub fn read_head(from: &Sector) -> Result<u8, BadHead>
    ensures found { IfOk result (λ clients. SpellsHead from.now clients) }
    ensures again { (clients : ℕ) → SpellsHead from.now clients → result ≡ Ok clients }
{
    let Some(front) = padded_front(from, HEAD_SIZE) else {
        return Err(BadHead);
    };
    let clients = clients_of(front)?;
    if !is_count(clients) {
        return Err(BadHead);
    }
    Ok(clients)
}

/// Whether a volume may have so many clients.
fn is_count(clients: u8) -> bool
    ensures { IsTrue result ↔ (1 ≤ clients) × (clients ≤ limits.clients) }
{
    1 <= clients && clients <= CLIENTS
}

/// The count of clients that the fields of a head spell.
fn clients_of(front: &[u8]) -> Result<u8, BadHead>
    requires { length front.now ≡ head_size }
    ensures found { IfOk result (λ clients. front.now ≡ head_fields clients) }
    ensures bad { OnErr result ((clients : ℕ) → front.now ≢ head_fields clients) }
{
    let fields = fields_of(front);
    if !is_head(fields.mark, fields.sectors) {
        return Err(BadHead);
    }
    Ok(fields.clients)
}

/// The fields of a head.
#[derive(Drop)]
struct Fields<'a> {
    mark: &'a [u8],
    sectors: u32,
    clients: u8,
}

fn fields_of(front: &[u8]) -> Fields<'_>
    requires { length front.now ≡ head_size }
    ensures mark { length result.mark.now ≡ 8 }
    ensures fields { front.now ≡ result.mark.now ++ (big_endian 4 result.sectors ++ result.clients ∷ []) }
{
    let mut rest = front;
    let mark = take_bytes(&mut rest, 8).unwrap();
    let sectors = take_u32(&mut rest).unwrap();
    let clients = take_u8(&mut rest).unwrap();
    Fields {
        mark,
        sectors,
        clients,
    }
}

/// Whether a head begins with these.
fn is_head(found: &[u8], sectors: u32) -> bool
    ensures { IsTrue result ↔ (found.now ≡ mark) × (sectors ≡ limits.sectors) }
{
    found == b"CALYPSO1".as_slice() && sectors == SECTORS
}

/// Writes the one head that spells so many clients, 1 to 16.
pub fn write_head(clients: u8, into: &mut Sector)
    requires some { 1 ≤ clients }
    requires few { clients ≤ limits.clients }
    ensures { SpellsHead into.new clients }
{
    let mut fields = SectorFields::new();
    fields.put_bytes(b"CALYPSO1");
    fields.put_u32(SECTORS);
    fields.put_u8(clients);
    fields.finish(into);
}
