// Sockets on the loopback interface, with blocking clients in the same thread.
ghost use Rattle.std.specs.Prelude.{◌≡◌, true, false, IfOk, IfSome};
ghost use Rattle.mio_wire.specs.Doors.{door_of};

use crate::MioWire;
use std::io;
use std::io::{ErrorKind, Read, Write};
use std::net::{Ipv4Addr, SocketAddr, TcpListener, TcpStream};
use std::test::Fail;
use std::time::Duration;
use wire_port::{Conn, Found, Given, Poller, Taken, Wire};

// The address of a port on the loopback interface.
fn local(port: u16) -> SocketAddr {
    SocketAddr::from((Ipv4Addr::LOCALHOST, port))
}

// Two ports at which nobody listens.
fn free_ports(rt: &HostRuntime) -> io::Result<(u16, u16)> {
    let one = TcpListener::bind(rt, local(0))?;
    let other = TcpListener::bind(rt, local(0))?;
    Ok((one.local_addr()?.port(), other.local_addr()?.port()))
}

// A wire that listens at two free ports. Where another program takes one in between, others are tried.
fn listening(rt: &HostRuntime, turns: Option<u64>) -> Result<(MioWire<HostRuntime>, u16, u16), Fail>
    ensures up { IfOk result (λ r. (door_of r.0.door).up ≡ true) }
    ensures not_over { IfOk result (λ r. (door_of r.0.door).over ≡ false) }
{
    for _ in 0..10 {
        let (one, other) = free_ports(rt)?;
        let mut wire = MioWire::new(rt.clone()?, rt.alloc(), turns)?;
        if wire.listen(&[one, other]).is_ok() {
            return Ok((wire, one, other));
        }
    }
    Err(io::Error::from(ErrorKind::AddrInUse))?
}

// What a poll finds, unless it fails or the end came.
fn polled(wire: &mut MioWire<HostRuntime>, wait: bool) -> Option<Found>
    requires up { (door_of wire.old.door).up ≡ true }
    requires not_over { (door_of wire.old.door).over ≡ false }
    ensures up { (door_of wire.new.door).up ≡ true }
    ensures not_over { IfSome result (λ _. (door_of wire.new.door).over ≡ false) }
{
    match wire.poll(wait) {
        Ok(Found::End) | Err(_) => None,
        Ok(found) => Some(found),
    }
}

// What is found next, other than room. There are at most a thousand polls.
fn next_found(wire: &mut MioWire<HostRuntime>) -> Option<Found>
    requires up { (door_of wire.old.door).up ≡ true }
    requires not_over { (door_of wire.old.door).over ≡ false }
    ensures up { (door_of wire.new.door).up ≡ true }
    ensures not_over { IfSome result (λ _. (door_of wire.new.door).over ≡ false) }
{
    for _ in 0..1000 {
        let found = polled(wire, true)?;
        if !matches!(found, Found::Room(_)) {
            return Some(found);
        }
    }
    None
}

// Takes up to eight bytes from a connection, where it is the next that has something.
fn next_taken(wire: &mut MioWire<HostRuntime>, conn: Conn, bytes: &mut [u8; 8]) -> Option<Taken>
    requires up { (door_of wire.old.door).up ≡ true }
    requires not_over { (door_of wire.old.door).over ≡ false }
    ensures up { (door_of wire.new.door).up ≡ true }
    ensures not_over { IfSome result (λ _. (door_of wire.new.door).over ≡ false) }
{
    if next_found(wire)? != Found::Ready(conn) {
        return None;
    }
    Some(wire.take(conn, bytes))
}

// Whether polls that do not wait find nothing but room. As many are made as tell the room of all connections, and some more.
fn is_quiet(wire: &mut MioWire<HostRuntime>) -> bool
    requires up { (door_of wire.old.door).up ≡ true }
    requires not_over { (door_of wire.old.door).over ≡ false }
    ensures up { (door_of wire.new.door).up ≡ true }
    ensures not_over { result ≡ true → (door_of wire.new.door).over ≡ false }
{
    for _ in 0..80 {
        match polled(wire, false) {
            Some(Found::Nothing | Found::Room(_)) => {}
            _ => return false,
        }
    }
    true
}

// Whether the server closes this client's connection, while polls find nothing but room.
fn is_turned_away(wire: &mut MioWire<HostRuntime>, client: &mut TcpStream) -> io::Result<bool>
    requires up { (door_of wire.old.door).up ≡ true }
    requires not_over { (door_of wire.old.door).over ≡ false }
{
    client.set_read_timeout(Some(Duration::from_millis(10)))?;
    for _ in 0..100 {
        if !is_quiet(wire) {
            return Ok(false);
        }
        if let Ok(0) = client.read(&mut [0]) {
            return Ok(true);
        }
    }
    Ok(false)
}

// How many polls are answered before the end comes, at most a thousand.
fn polls_before_end(wire: &mut MioWire<HostRuntime>) -> u32
    requires up { (door_of wire.old.door).up ≡ true }
    requires not_over { (door_of wire.old.door).over ≡ false }
{
    for count in 0..1000 {
        if polled(wire, false).is_none() {
            return count;
        }
    }
    1000
}

#[test]
fn the_end_comes_after_the_turns(rt: HostRuntime) -> Result<(), Fail> {
    let (mut wire, _, _) = listening(&rt, Some(3))?;
    assert_eq!(rt; polls_before_end(&mut wire), 3);
    assert_eq!(rt; wire.faults(), 0);
    Ok(())
}

#[test]
fn no_end_comes_without_turns(rt: HostRuntime) -> Result<(), Fail> {
    let (mut wire, _, _) = listening(&rt, None)?;
    assert_eq!(rt; polls_before_end(&mut wire), 1000);
    assert_eq!(rt; wire.faults(), 0);
    Ok(())
}

#[test]
fn a_port_in_use_is_a_fault(rt: HostRuntime) -> Result<(), Fail> {
    let other = TcpListener::bind(&rt, local(0))?;
    let mut wire = MioWire::new(rt.clone()?, rt.alloc(), None)?;
    assert!(rt; wire.listen(&[other.local_addr()?.port()]).is_err());
    assert_eq!(rt; wire.faults(), 1);
    Ok(())
}

#[test]
fn a_client_is_served(rt: HostRuntime) -> Result<(), Fail> {
    let (mut wire, port, _) = listening(&rt, None)?;
    let mut client = TcpStream::connect(&rt, local(port))?;
    assert_eq!(rt; next_found(&mut wire), Some(Found::Opened(1, port)));
    client.write_all(b"getinfo:")?;
    let mut bytes = [0; 8];
    assert_eq!(rt; next_taken(&mut wire, 1, &mut bytes), Some(Taken::Bytes(8)));
    assert_eq!(rt; bytes, *b"getinfo:");
    assert_eq!(rt; wire.take(1, &mut [0]), Taken::NotNow);
    assert_eq!(rt; wire.give(1, b"xvcServer_v1.0:64\n"), Given::Bytes(18));
    let mut reply = [0; 18];
    client.read_exact(&mut reply)?;
    assert_eq!(rt; reply, *b"xvcServer_v1.0:64\n");
    drop(client);
    assert_eq!(rt; next_taken(&mut wire, 1, &mut bytes), Some(Taken::Gone));
    assert_eq!(rt; wire.give(1, b"x"), Given::Gone);
    assert_eq!(rt; wire.faults(), 0);
    Ok(())
}

#[test]
fn a_connection_is_shut(rt: HostRuntime) -> Result<(), Fail> {
    let (mut wire, port, _) = listening(&rt, None)?;
    let mut first = TcpStream::connect(&rt, local(port))?;
    assert_eq!(rt; next_found(&mut wire), Some(Found::Opened(1, port)));
    wire.shut(1);
    assert_eq!(rt; first.read(&mut [0])?, 0);
    let second = TcpStream::connect(&rt, local(port))?;
    assert_eq!(rt; next_found(&mut wire), Some(Found::Opened(2, port)));
    drop(second);
    Ok(())
}

#[test]
fn what_a_shut_connection_is_ready_for_is_not_told(rt: HostRuntime) -> Result<(), Fail> {
    let (mut wire, port, _) = listening(&rt, None)?;
    let mut first = TcpStream::connect(&rt, local(port))?;
    assert_eq!(rt; next_found(&mut wire), Some(Found::Opened(1, port)));
    let mut second = TcpStream::connect(&rt, local(port))?;
    assert_eq!(rt; next_found(&mut wire), Some(Found::Opened(2, port)));
    first.write_all(b"a")?;
    second.write_all(b"b")?;
    assert_eq!(rt; next_found(&mut wire), Some(Found::Ready(1)));
    wire.shut(2);
    assert!(rt; is_quiet(&mut wire));
    assert_eq!(rt; wire.take(1, &mut [0]), Taken::Bytes(1));
    Ok(())
}

#[test]
fn each_port_is_told(rt: HostRuntime) -> Result<(), Fail> {
    let (mut wire, one, other) = listening(&rt, None)?;
    let first = TcpStream::connect(&rt, local(other))?;
    assert_eq!(rt; next_found(&mut wire), Some(Found::Opened(1, other)));
    let second = TcpStream::connect(&rt, local(one))?;
    assert_eq!(rt; next_found(&mut wire), Some(Found::Opened(2, one)));
    drop((first, second));
    Ok(())
}

#[test]
fn a_peer_that_left_is_gone(rt: HostRuntime) -> Result<(), Fail> {
    let (mut wire, port, _) = listening(&rt, None)?;
    let client = TcpStream::connect(&rt, local(port))?;
    assert_eq!(rt; next_found(&mut wire), Some(Found::Opened(1, port)));
    drop(client);
    assert_eq!(rt; next_found(&mut wire), Some(Found::Ready(1)));
    assert_eq!(rt; wire.give(1, b"reply"), Given::Bytes(5));
    assert_eq!(rt; next_found(&mut wire), Some(Found::Ready(1)));
    assert_eq!(rt; wire.give(1, b"reply"), Given::Gone);
    assert_eq!(rt; wire.faults(), 0);
    Ok(())
}

#[test]
fn one_connection_too_many_is_closed(rt: HostRuntime) -> Result<(), Fail> {
    let (mut wire, port, _) = listening(&rt, None)?;
    let mut clients = Vec::new(rt.alloc());
    for conn in 1..65 {
        clients.push(TcpStream::connect(&rt, local(port))?)?;
        assert_eq!(rt; next_found(&mut wire), Some(Found::Opened(conn, port)));
    }
    let mut late = TcpStream::connect(&rt, local(port))?;
    assert!(rt; is_turned_away(&mut wire, &mut late)?);
    assert_eq!(rt; wire.faults(), 0);
    Ok(())
}
