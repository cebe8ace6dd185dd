use crate::making::{begins, change, make_file};
use cal_base::Ino;
use image::Image;
use std::alloc::Global;
use std::test::Fail;
use tree_law::{Call, Reply, read_path};

#[test]
fn a_create_has_five_homes(rt: HostRuntime) -> Result<(), Fail> {
    let mut image = Image::room(rt.alloc()).ok().ok_or("no memory")?;
    let planned = make_file(&mut image, rt.alloc(), 0, b"/a").ok_or("no memory")?;
    assert_eq!(rt; planned.plan.reply, Reply::Done);
    assert_eq!(rt; planned.plan.new_ino, Some(Ino(1)));
    assert_eq!(rt; planned.plan.needed, 1);
    assert_eq!(rt; planned.txn.homes().len(), 5);
    assert!(rt; begins(&planned, 0, 19, b"\x01\x00"));
    assert!(rt;
        begins(
            &planned,
            1,
            20,
            b"\x00\x00\x00\x00\x00\x00\x00\x00\x01\x00\x00\x00\x00\x00\x00\x00\x00\x00\x01\x00"
        )
    );
    assert!(rt; begins(&planned, 2, 36, b"\x02\x01\x00\x00\x10\x00\x00\x01\x00"));
    assert!(rt; begins(&planned, 3, 37, b"\x01\x01\x00"));
    assert!(rt; begins(&planned, 4, 548, b"\x00\x00\x00\x01\x01\x61\x00"));
    Ok(())
}

/// The last decimal digit of a number, as text.
fn digit(number: u32) -> u8 {
    (number % 10) as u8 + 48
}

/// Makes a file with a name of three digits; whether that was done.
fn make_numbered(image: &mut Image, alloc: Global, number: u32) -> Option<bool> {
    let text = [47, digit(number / 100), digit(number / 10), digit(number)];
    let call = Call::Create(read_path(alloc, &text).ok()?);
    let planned = change(image, alloc, 3, number as u64 + 1, &call)?;
    Some(planned.plan.new_ino.is_some())
}

/// Makes so many files; how many were made.
fn make_files(image: &mut Image, alloc: Global, count: u32) -> Option<u32> {
    let mut made = 0;
    for number in 0..count {
        if make_numbered(image, alloc, number)? {
            made = number + 1;
        }
    }
    Some(made)
}

#[test]
fn five_hundred_and_eleven_files_are_made(rt: HostRuntime) -> Result<(), Fail> {
    let mut image = Image::room(rt.alloc()).ok().ok_or("no memory")?;
    assert_eq!(rt; make_files(&mut image, rt.alloc(), 512), Some(511));
    assert_eq!(rt; image.free(), 2_044);
    assert_eq!(rt; image.least_inode(), None);
    assert_eq!(rt; image.entries_of(Ino(0)).count(), 511);
    Ok(())
}
