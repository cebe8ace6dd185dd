use message::{DecodeError, decode, encode};
use std::alloc::Global;
use std::test::Fail;

/// Whether these bytes are read as a message that is spelled by them.
fn stands(alloc: Global, bytes: &[u8]) -> bool {
    match decode(alloc, bytes) {
        Ok(message) => match encode(alloc, &message) {
            Ok(spelled) => spelled.as_slice() == bytes,
            Err(_) => false,
        },
        Err(_) => false,
    }
}

/// Whether these bytes with zeros behind them, as many as a block lacks, stand.
fn stands_with_block(alloc: Global, bytes: &[u8]) -> Result<bool, Fail> {
    let zeros = vec![in alloc; 0u8; 4093]?;
    let mut filled = Vec::from_slice(alloc, bytes)?;
    filled.extend_from_slice(zeros.as_slice())?;
    Ok(stands(alloc, filled.as_slice()))
}

/// Whether some of these bytes, cut short at any length, are read as a message.
fn reads_when_cut(alloc: Global, bytes: &[u8]) -> bool {
    let mut read = false;
    for end in 0..bytes.len() {
        if decode(alloc, &bytes[..end]).is_ok() {
            read = true;
        }
    }
    read
}

/// The place of the fault in these bytes; 999 where there is none.
fn place_in(alloc: Global, bytes: &[u8]) -> usize {
    match decode(alloc, bytes) {
        Err(DecodeError::BadMessage { at }) => at,
        Err(DecodeError::OutOfMemory) | Ok(_) => 999,
    }
}

#[test]
fn bodies_of_worked_runs_stand(rt: HostRuntime) -> Result<(), Fail> {
    let alloc = rt.alloc();
    for body in [
        // an Acquire of opening src/a
        b"\x01\x00\x00\x00\x00\x00\x00\x00\x01\x02\x02\x03src\x01a".as_slice(),
        // a Grant of the names on a path with their entries, and of Open
        b"\x02\x00\x00\x00\x00\x00\x00\x00\x04\x00\x03\x00\x00\x00\x00\x01\x01\x01\x00\x01\x03src\x00\x00\x00\x01\x02\x00\x00\x00\x01\x01\x01\x01\x00\x02\x01a\x00\x00\x00\x02\x01\x05a.tmp\x00\x00\x00\x03\x01\x00\x00\x00\x03\x04\x01\x01".as_slice(),
        // a Grant of the bytes of a file and its size, and one that raises both holds
        b"\x02\x00\x00\x00\x00\x00\x00\x00\x02\x00\x02\x00\x00\x00\x03\x02\x01\x01\x00\x00\x00\x02hi\x00\x00\x00\x03\x03\x01\x01\x00\x00\x00\x02".as_slice(),
        b"\x02\x00\x00\x00\x00\x00\x00\x00\x05\x00\x02\x00\x00\x00\x01\x02\x02\x00\x00\x00\x00\x01\x03\x02\x00".as_slice(),
        // a Refuse with no block free where one is needed
        b"\x03\x00\x00\x00\x00\x00\x00\x00\x01\x00\x00\x00\x01".as_slice(),
        // a Change that renames src/a.tmp to src/a, and a Done with EINVAL
        b"\x04\x00\x00\x00\x00\x00\x00\x00\x08\x05\x02\x03src\x05a.tmp\x02\x03src\x01a".as_slice(),
        b"\x05\x00\x00\x00\x00\x00\x00\x00\x03\x05".as_slice(),
        // a Flush with a cut and no blocks, and a Flushed
        b"\x06\x00\x00\x00\x00\x00\x00\x00\x02\x00\x00\x00\x01\x00\x00\x86\x14\x00\x00\x49\x1c\x01\x01\x00".as_slice(),
        b"\x07\x00\x00\x00\x00\x00\x00\x00\x01".as_slice(),
        // a Revoke of Write, and a Release of all
        b"\x08\x00\x00\x00\x01\x02\x02\x01\x03\x01".as_slice(),
        b"\x09\x00\x00\x00\x01\x02\x02\x00\x03\x00".as_slice(),
        // an Ask, and a Piece of four holds, two of them under a flush
        b"\x0a".as_slice(),
        b"\x0b\x00\x00\x01\x04\x00\x00\x00\x00\x01\x01\x00\x00\x00\x00\x00\x00\x00\x00\x00\x00\x00\x00\x01\x02\x02\x00\x00\x00\x00\x00\x00\x00\x01\x00\x00\x00\x00\x01\x03\x02\x00\x00\x00\x00\x00\x00\x00\x01\x00\x00\x00\x00\x01\x04\x01\x00\x00\x00\x00\x00\x00\x00\x00\x00".as_slice(),
        // a Wait for client 1, and an Admit
        b"\x0c\x00\x00\x00\x00\x00\x00\x00\x01\x01".as_slice(),
        b"\x0d".as_slice(),
    ] {
        assert!(rt; stands(alloc, body));
        assert!(rt; !reads_when_cut(alloc, body));
    }
    Ok(())
}

#[test]
fn a_flush_with_a_block_stands(rt: HostRuntime) -> Result<(), Fail> {
    let new =
        b"\x06\x00\x00\x00\x00\x00\x00\x00\x01\x00\x00\x00\x01\x00\x00\x00\x03\x00\x00\x00\x00\x01\x01\x01\x00new".as_slice();
    assert!(rt; stands_with_block(rt.alloc(), new)?);
    Ok(())
}

#[test]
fn faults_are_told_by_their_place(rt: HostRuntime) -> Result<(), Fail> {
    let alloc = rt.alloc();
    assert_eq!(rt; place_in(alloc, b"".as_slice()), 0);
    assert_eq!(rt; place_in(alloc, b"\x01\x00".as_slice()), 2);
    assert_eq!(rt; place_in(alloc, b"\x0e".as_slice()), 0);
    assert_eq!(rt; place_in(alloc, b"\x0d\x00".as_slice()), 1);
    assert_eq!(rt;
        place_in(
            alloc,
            b"\x03\x00\x00\x00\x00\x00\x00\x00\x00\x00\x00\x00\x01".as_slice()
        ),
        1
    );
    Ok(())
}
