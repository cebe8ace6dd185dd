use cal_base::{ClientId, ServerId, View};
use membership::{Members, NotSo};
use std::test::Fail;

#[test]
fn a_client_is_declared_once_after_its_crash(rt: HostRuntime) -> Result<(), Fail> {
    let mut members = Members::new(2);
    assert_eq!(rt; members.declare(ClientId(0)), Err(NotSo::Alive));
    assert_eq!(rt; members.crash(ClientId(2)), Err(NotSo::NoSuch));
    assert_eq!(rt; members.crash(ClientId(0)), Ok(()));
    assert_eq!(rt; members.crash(ClientId(0)), Err(NotSo::Dead));
    assert_eq!(rt; members.declare(ClientId(0)), Ok(()));
    assert_eq!(rt; members.declare(ClientId(0)), Err(NotSo::Dead));
    assert!(rt; members.declared(ClientId(0)));
    assert!(rt; !members.declared(ClientId(1)));
    Ok(())
}

#[test]
fn views_rise_by_one(rt: HostRuntime) -> Result<(), Fail> {
    let mut members = Members::new(1);
    assert_eq!(rt; members.next_view(ServerId::B), View(2));
    assert_eq!(rt; members.next_view(ServerId::B), View(3));
    assert_eq!(rt; members.view(), View(3));
    assert_eq!(rt; members.server(), ServerId::B);
    Ok(())
}
