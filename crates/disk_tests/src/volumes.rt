use std::test::Fail;
use volume::{read_head, write_head};

#[test]
fn head_is_read_and_written(rt: HostRuntime) -> Result<(), Fail> {
    let mut sector = [7; 4096];
    write_head(1, &mut sector);
    let spelled = b"CALYPSO1\x00\x00\x0a\x24\x01\x00";
    assert_eq!(rt; &sector[..14], spelled.as_slice());
    assert_eq!(rt; read_head(&sector), Ok(1));
    Ok(())
}
