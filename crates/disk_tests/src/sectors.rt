use change_reply::{put_reply, take_reply};
use inode::{Inode, Kind, read_inode, write_inode};
use request_log::{Judged, Slot, read_slot, write_slot};
use space_map::SpaceMap;
use std::test::Fail;
use tree_law::{Reply, Why};

#[test]
fn least_free_block_is_taken(rt: HostRuntime) -> Result<(), Fail> {
    let mut sector = [0; 4096];
    sector[0] = 0xfd;
    sector[255] = 0x7f;
    let mut map = SpaceMap::read(&sector).ok().ok_or("bad")?;
    assert_eq!(rt; map.free(), 2034);
    assert_eq!(rt; map.take_least(), Some(1));
    assert_eq!(rt; map.take_least(), Some(8));
    let mut written = [7; 4096];
    map.write(&mut written);
    sector[0] = 0xff;
    sector[1] = 0x01;
    assert_eq!(rt; written.as_slice(), sector.as_slice());
    Ok(())
}

#[test]
fn inode_is_read_and_written(rt: HostRuntime) -> Result<(), Fail> {
    let mut sector = [0; 4096];
    sector[..8].copy_from_slice(b"\x02\x01\x00\x00\x10\x00\x08\x00");
    let root: Inode = read_inode(&sector).ok().ok_or("bad")?;
    assert_eq!(rt; (root.kind, root.named, root.size), (Kind::Dir, true, 4096));
    assert_eq!(rt; root.blocks[0], 2048);
    let mut written = [7; 4096];
    write_inode(&root, &mut written);
    assert_eq!(rt; written.as_slice(), sector.as_slice());
    Ok(())
}

#[test]
fn want_of_blocks_has_five_bytes(rt: HostRuntime) -> Result<(), Fail> {
    let mut out = Vec::new(rt.alloc());
    let reply = Reply::Refused(Why::NoSpace {
        free: 3,
        needed: 258,
    });
    put_reply(&mut out, &reply).ok().ok_or("memory")?;
    assert_eq!(rt; out.as_slice(), b"\x0b\x00\x03\x01\x02".as_slice());
    let mut from = b"\x0b\x00\x03\x01\x02\x63".as_slice();
    assert!(rt; take_reply(&mut from) == Ok(reply));
    assert_eq!(rt; from, b"c".as_slice());
    Ok(())
}

#[test]
fn slot_is_read_and_written(rt: HostRuntime) -> Result<(), Fail> {
    let mut sector = [0; 4096];
    sector[8] = 1;
    sector[18..24].copy_from_slice(b"\x05\x0b\x00\x02\x00\x10");
    let slot: Slot = read_slot(&sector).ok().ok_or("bad")?;
    assert_eq!(rt; (slot.call, slot.flush), (1, 0));
    assert_eq!(rt;
        slot.judge(1),
        Judged::Kept(Reply::Refused(Why::NoSpace {
            free: 2,
            needed: 16
        }))
    );
    let mut written = [7; 4096];
    write_slot(&slot, &mut written);
    assert_eq!(rt; written.as_slice(), sector.as_slice());
    Ok(())
}
