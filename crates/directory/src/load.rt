ghost use Rattle.std.specs.Prelude.{◌≡◌, ◌≤◌, ◌<◌, ◌+◌, List, Option, length, take, OnOk, OnErr};
ghost use Rattle.cal_base.specs.Limits.{block_size, directory_entries, slot_size, slots_per_block};
ghost use Rattle.directory.specs.declared.entry.DirEntry.{DirEntry};
ghost use Rattle.directory.specs.Block.{IsSlot, slot_bytes};
ghost use Rattle.directory.specs.Directory.{Continues, Repeats};
ghost use Rattle.directory.specs.Loading.{Takes};

use crate::block::{BadBlock, read_slot};
use crate::slot_table::SlotTable;
use cal_base::{SLOT_SIZE, SLOTS_PER_BLOCK};
use cal_fields::take_bytes;

/// Puts the slots of a sector at the end, up to the first that may not follow.
pub(crate) fn push_slots(table: &mut SlotTable, sector: &[u8]) -> Result<(), BadBlock>
    requires room { length table.old + slots_per_block ≤ directory_entries }
    requires sector { length sector.now ≡ block_size }
    ensures ok { OnOk result (Continues table.old sector.now table.new) }
    ensures bad { OnErr result ((new : List (Option DirEntry)) → ¬ (Continues table.old sector.now new)) }
    ensures kept { take (length table.old) table.new ≡ table.old }
    ensures longer { length table.old ≤ length table.new }
{
    let mut rest = sector;
    let end = table.slots().len() + SLOTS_PER_BLOCK;
    while table.slots().len() < end {
        let bytes = take_bytes(&mut rest, SLOT_SIZE).unwrap();
        match next_slot(table, bytes) {
            Ok(()) => {}
            Err(bad) => return Err(bad),
        }
    }
    Ok(())
}

/// Puts the slot that these bytes spell at the end.
fn next_slot(table: &mut SlotTable, bytes: &[u8]) -> Result<(), BadBlock>
    requires room { length table.old < directory_entries }
    requires size { length bytes.now ≡ slot_size }
    ensures ok { OnOk result (Takes table.old bytes.now table.new) }
    ensures bad { OnErr result ((slot : Option DirEntry) → IsSlot slot → bytes.now ≡ slot_bytes slot → Repeats table.old slot) }
    ensures unchanged { OnErr result (table.new ≡ table.old) }
{
    match read_slot(bytes) {
        Ok(slot) => match table.push_slot(slot) {
            Ok(()) => Ok(()),
            Err(bad) => Err(bad),
        },
        Err(bad) => Err(bad),
    }
}

/// Takes slots away from the end, until so many are left.
pub(crate) fn cut(table: &mut SlotTable, count: usize)
    requires { count ≤ length table.old }
    ensures { table.new ≡ take count table.old }
{
    while table.slots().len() > count {
        table.pop();
    }
}
