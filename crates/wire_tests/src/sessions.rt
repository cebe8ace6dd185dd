use cal_base::{ClientId, NodeId, ServerId, View};
use session::{Packet, Session};
use std::alloc::Global;
use std::test::Fail;

/// A session of client 0 with server A, or of the server with the client.
fn end(alloc: Global, is_client: bool) -> Result<Session, Fail> {
    let client = NodeId::Client(ClientId(0));
    let server = NodeId::Server(ServerId::A);
    if is_client {
        Ok(Session::new(alloc, client, server, View(1))?)
    } else {
        Ok(Session::new(alloc, server, client, View(1))?)
    }
}

/// Sends a message of one byte: its packet.
fn send(session: &mut Session, alloc: Global, byte: u8) -> Result<Packet, Fail> {
    if session.steps() > 99 {
        return Err(Fail::from("too many steps"));
    }
    let body = vec![in alloc; byte]?;
    match session.send(body)? {
        Some(packet) => Ok(packet),
        None => Err(Fail::from("it waits")),
    }
}

/// The byte of the message that a packet brings, if it brings the next one.
fn hear(session: &mut Session, packet: &Packet) -> Result<Option<u8>, Fail> {
    if session.steps() > 99 {
        return Err(Fail::from("too many steps"));
    }
    let taken = session.on_packet(packet)?;
    match &taken.body {
        Some(body) => Ok(body.as_slice().first().copied()),
        None => Ok(None),
    }
}

/// The packet that is sent again.
fn again(session: &Session) -> Result<Packet, Fail> {
    match session.tick()? {
        Some(packet) => Ok(packet),
        None => Err(Fail::from("nothing is sent again")),
    }
}

#[test]
fn a_lost_message_comes_again_and_in_order(rt: HostRuntime) -> Result<(), Fail> {
    let alloc = rt.alloc();
    let mut client = end(alloc, true)?;
    let mut server = end(alloc, false)?;
    let _lost = send(&mut client, alloc, 7)?;
    let second = send(&mut client, alloc, 8)?;
    assert_eq!(rt; hear(&mut server, &second)?, None);
    assert_eq!(rt; hear(&mut server, &again(&client)?)?, Some(7));
    assert_eq!(rt; hear(&mut client, &server.bare_ack())?, None);
    assert_eq!(rt; hear(&mut server, &again(&client)?)?, Some(8));
    assert_eq!(rt; hear(&mut server, &second)?, None);
    assert_eq!(rt; hear(&mut client, &server.bare_ack())?, None);
    assert!(rt; client.is_quiet());
    Ok(())
}
