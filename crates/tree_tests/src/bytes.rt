use cal_fields::{
    SectorFields, Short, is_zeros, padded_front, put_bytes, put_u8, put_u16, put_u32, put_u64,
    take_bytes, take_u8, take_u16, take_u32, take_u64,
};
use file_bytes::{block, read, resize, write};
use std::test::Fail;

#[test]
fn numbers_are_spelled_highest_byte_first(rt: HostRuntime) -> Result<(), Fail> {
    let mut out = Vec::new(rt.alloc());
    assert!(rt; put_u8(&mut out, 0xfe).is_ok());
    assert!(rt; put_u16(&mut out, 0x0102).is_ok());
    assert!(rt; put_u32(&mut out, u32::MAX - 1).is_ok());
    assert!(rt; put_u64(&mut out, 0x0102_0304_0506_0708).is_ok());
    assert!(rt; put_bytes(&mut out, b"hi").is_ok());
    let spelled = b"\xfe\x01\x02\xff\xff\xff\xfe\x01\x02\x03\x04\x05\x06\x07\x08hi";
    assert_eq!(rt; out.as_slice(), spelled.as_slice());
    let mut rest = out.as_slice();
    assert_eq!(rt; take_u8(&mut rest), Ok(0xfe));
    assert_eq!(rt; take_u16(&mut rest), Ok(0x0102));
    assert_eq!(rt; take_u32(&mut rest), Ok(u32::MAX - 1));
    assert_eq!(rt; take_u64(&mut rest), Ok(0x0102_0304_0506_0708));
    assert_eq!(rt; take_u32(&mut rest), Err(Short));
    assert_eq!(rt; take_bytes(&mut rest, 2), Ok(b"hi".as_slice()));
    assert_eq!(rt; take_u8(&mut rest), Err(Short));
    Ok(())
}

#[test]
fn sector_is_filled_from_its_first_byte(rt: HostRuntime) -> Result<(), Fail> {
    let mut fields = SectorFields::new();
    fields.put_u8(9);
    fields.put_u16(0x0102);
    fields.put_zeros(1);
    fields.put_u32(3);
    fields.put_u64(4);
    let mut sector = [7; 4096];
    fields.finish(&mut sector);
    let spelled = b"\x09\x01\x02\x00\x00\x00\x00\x03\x00\x00\x00\x00\x00\x00\x00\x04";
    assert_eq!(rt; padded_front(&sector, 16), Some(spelled.as_slice()));
    assert!(rt; is_zeros(&sector[16..]));
    Ok(())
}

#[test]
fn a_gap_and_a_growth_read_as_zeros(rt: HostRuntime) -> Result<(), Fail> {
    let alloc = rt.alloc();
    let mut contents = b"abcde".to_vec(alloc)?;
    resize(&mut contents, 2).ok().ok_or("no memory")?;
    write(&mut contents, 4, b"x").ok().ok_or("no memory")?;
    assert!(rt; contents.as_slice() == b"ab\0\0x".as_slice());
    let tail = read(alloc, contents.as_slice(), 3, 9)
        .ok()
        .ok_or("no memory")?;
    assert!(rt; tail.as_slice() == b"\0x".as_slice());
    let first = block(contents.as_slice(), 0);
    assert!(rt; first[4] == b'x' && first[5] == 0);
    Ok(())
}
