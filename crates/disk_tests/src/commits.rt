use cal_base::View;
use fence::Port;
use journal::{commit, replay};
use shared_disk::{MemDisk, PortDisk, Stop, Txn};
use std::alloc::Global;
use std::test::Fail;

fn two_homes(alloc: Global) -> Option<Txn> {
    let mut homes = Vec::new(alloc);
    homes.push((20, [7; 4096])).ok()?;
    homes.push((36, [8; 4096])).ok()?;
    Some(Txn::new(homes))
}

/// A new disk on which two homes were committed up to a stop after so many writes, and then replayed.
fn stopped_after(alloc: Global, after: u32) -> Option<MemDisk> {
    let txn = two_homes(alloc)?;
    let mut disk = MemDisk::new(alloc).ok()?;
    let mut port = Port::take(&mut disk, View(1)).ok()?;
    port.arm(Some(Stop { after, torn: None }));
    let writes = 2 * txn.homes().len() + 3;
    disk.reserve(writes).ok()?;
    let _halt = commit(&mut port, &mut disk, &txn);
    let mut next = Port::take(&mut disk, View(2)).ok()?;
    disk.reserve(17).ok()?;
    replay(&mut next, &mut disk).ok()?;
    Some(disk)
}

#[test]
fn the_writes_of_a_commit(rt: HostRuntime) -> Result<(), Fail> {
    let disk = stopped_after(rt.alloc(), 7).ok_or("no disk")?;
    let mut sectors = Vec::new(rt.alloc());
    for (sector, _bytes) in disk.changes() {
        sectors.push(*sector)?;
    }
    assert_eq!(rt; sectors.as_slice(), [2, 3, 4, 1, 20, 36, 1].as_slice());
    let header = disk.sector(2);
    assert_eq!(rt; &header[..10], [2, 0, 0, 0, 20, 0, 0, 0, 36, 0].as_slice());
    Ok(())
}

#[test]
fn an_opened_commit_is_replayed(rt: HostRuntime) -> Result<(), Fail> {
    let disk = stopped_after(rt.alloc(), 4).ok_or("no disk")?;
    assert_eq!(rt; disk.changes().len(), 7);
    assert_eq!(rt; disk.sector(36)[4_095], 8);
    Ok(())
}
