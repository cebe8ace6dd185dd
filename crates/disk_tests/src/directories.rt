use cal_base::{Ino, Sector};
use directory::{BadBlock, DirBlocks};
use std::test::Fail;

/// Loads the next block, where there is room for it.
fn add(blocks: &mut DirBlocks, sector: &Sector) -> Option<Result<(), BadBlock>> {
    if blocks.slots().len() >= 1_024 {
        return None;
    }
    Some(blocks.load(sector))
}

/// Writes a block, where it is there.
fn write(blocks: &DirBlocks, block: u8, into: &mut Sector) {
    if 128 * (block as usize) < blocks.slots().len() {
        blocks.store(block, into);
    }
}

#[test]
fn block_is_read_and_written(rt: HostRuntime) -> Result<(), Fail> {
    let mut sector = [0; 4096];
    sector[..6].copy_from_slice(b"\x00\x00\x00\x01\x01a");
    let mut blocks = DirBlocks::room(rt.alloc()).ok().ok_or("no memory")?;
    assert_eq!(rt; add(&mut blocks, &sector), Some(Ok(())));
    assert_eq!(rt; blocks.find(b"a"), Some(Ino(1)));
    assert_eq!(rt; add(&mut blocks, &sector), Some(Err(BadBlock)));
    let mut written = [7; 4096];
    write(&blocks, 0, &mut written);
    assert_eq!(rt; written.as_slice(), sector.as_slice());
    Ok(())
}
