ghost use Rattle.std.specs.Prelude.{◌≡◌, ◌++◌, ◌≤◌, ◌+◌, ◌*◌, length};
ghost use Rattle.cal_base.specs.Limits.{block_size};
ghost use Rattle.cal_fields.specs.Padded.{padded};
ghost use Rattle.cal_fields.specs.Flag.{bool_byte};
ghost use Rattle.inode.specs.Inode.{IsInode, SpellsInode, inode_fields, kind_byte, pointer_bytes};

use crate::inode::{Inode, Kind};
use cal_base::Sector;
use cal_fields::SectorFields;

/// Writes the one sector that spells an inode.
pub fn write_inode(inode: &Inode, into: &mut Sector)
    requires { IsInode inode.now }
    ensures { SpellsInode into.new inode.now }
{
    let mut fields = SectorFields::new();
    fields.put_u8(byte_of_kind(inode.kind));
    fields.put_u8(u8::from(inode.named));
    fields.put_u32(inode.size);
    put_pointers(&mut fields, &inode.blocks);
    fields.finish(into);
}

fn byte_of_kind(kind: Kind) -> u8
    ensures { result ≡ kind_byte kind }
{
    match kind {
        Kind::Free => 0,
        Kind::File => 1,
        Kind::Dir => 2,
    }
}

/// Puts pointers, two bytes each.
fn put_pointers(fields: &mut SectorFields, pointers: &[u16])
    requires { length fields.old + 2 * length pointers.now ≤ block_size }
    ensures { fields.new ≡ fields.old ++ pointer_bytes pointers.now }
{
    for pointer in pointers {
        fields.put_u16(*pointer);
    }
}
