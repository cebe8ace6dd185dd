use cal_base::View;
use fence::{Port, PortHalt};
use shared_disk::{FaultDisk, MemDisk, PortDisk, Stop};
use std::test::Fail;

/// Writes sector 36 full of one byte.
fn put<D: PortDisk>(port: &mut Port, disk: &mut D, byte: u8) -> Result<(), PortHalt> {
    let Ok(()) = disk.reserve(1) else {
        return Err(PortHalt::Failed);
    };
    port.write(disk, 36, &[byte; 4096])
}

#[test]
fn a_port_fails_stops_and_is_fenced(rt: HostRuntime) -> Result<(), Fail> {
    let alloc = rt.alloc();
    let memory = MemDisk::new(alloc).ok().ok_or("no memory")?;
    let mut disk = FaultDisk::new(memory, vec![in alloc; 1]?);
    let mut port = Port::take(&mut disk, View(1)).ok().ok_or("no port")?;
    assert_eq!(rt; put(&mut port, &mut disk, 7), Err(PortHalt::Failed));
    let torn = Some([9; 4096]);
    port.arm(Some(Stop { after: 0, torn }));
    assert_eq!(rt; put(&mut port, &mut disk, 8), Err(PortHalt::Stopped));
    assert_eq!(rt; disk.disk().sector(36)[0], 9);
    assert!(rt; Port::take(&mut disk, View(2)).is_ok());
    port.arm(None);
    let fenced = PortHalt::Fenced {
        mine: View(1),
        current: View(2),
    };
    assert_eq!(rt; put(&mut port, &mut disk, 6), Err(fenced));
    Ok(())
}
