//! A socket over loopback, beside a clock of the tests' own: how long takes wait, what comes, and what the system
//! refuses.

use super::{Got, Sent, UdpWire, got_of, sent_of};
use crate::refusal::Refusal;
use crate::wire::Wire;
use rx_base::Failed;
use rx_model::Host;
use std::fs::File;
use std::net::{Ipv6Addr, SocketAddrV6, UdpSocket};
use std::os::fd::OwnedFd;
use std::test::Fail;
use std::time::{Duration, Instant};
use std::{io, thread};

const LOOPBACK: Host = Host {
    addr: 0x7f00_0001,
    port: 0,
};

/// A host that no way leads to, and never from a loopback address.
const FAR: Host = Host {
    addr: 0xf000_0001,
    port: 7000,
};

#[test]
fn takes_wait_as_long_as_they_are_told(rt: HostRuntime) -> Result<(), Fail> {
    let start = Instant::now(&rt)?;
    let mut wire = UdpWire::make(&rt);
    wire.bind(LOOPBACK)?;
    // The second take has to raise the socket's timeout, the third to lower it, and its moment has passed.
    for until in [30, 200, 20] {
        assert!(rt; until < 1_000);
        assert_eq!(rt; wire.take(until, &mut [0; 4]), Ok(None));
        assert!(rt; until <= wire.now());
    }
    let waited = start.elapsed(&rt)?.as_millis();
    assert!(rt; (200..400).contains(&waited), "{waited} ms");
    assert_eq!(rt; wire.faults, 0);
    Ok(())
}

#[test]
fn the_moment_is_what_the_clock_reads(rt: HostRuntime) -> Result<(), Fail> {
    let before = Instant::now(&rt)?;
    let mut wire = UdpWire::make(&rt);
    let behind = Instant::now(&rt)?;
    let here = wire.bind(LOOPBACK)?;
    wire.give(here, b"abc")?;
    thread::sleep(&rt, Duration::from_millis(60));
    let least = behind.elapsed(&rt)?.as_millis();
    // What came ends the wait early.
    assert_eq!(rt; wire.take(60_000, &mut [0; 4]), Ok(Some((here, 3))));
    let most = before.elapsed(&rt)?.as_millis();
    let now = u128::from(wire.now());
    assert!(rt;
        60 <= least && least <= now && now <= most,
        "{least} <= {now} <= {most}"
    );
    Ok(())
}

#[test]
fn long_datagrams_come_whole_and_from_their_hosts(rt: HostRuntime) -> Result<(), Fail> {
    let alloc = rt.alloc();
    let mut server = UdpWire::make(&rt);
    let server_host = server.bind(LOOPBACK)?;
    let mut sent = Vec::with_capacity(alloc, 60_000)?;
    for at in 0..60_000_u32 {
        sent.push((at % 251) as u8)?;
    }
    let mut to = vec![in alloc; 0; 65_536]?;
    for addr in [0x7f00_0001, 0x7f00_0002, 0x7f01_0203] {
        let mut client = UdpWire::make(&rt);
        let client_host = client.bind(Host { addr, port: 0 })?;
        assert_eq!(rt; client_host.addr, addr);
        assert!(rt; client_host.port != 0);
        client.give(server_host, sent.as_slice())?;
        assert_eq!(rt; server.take(60_000, &mut to)?, Some((client_host, 60_000)));
        assert!(rt; to.as_slice().starts_with(sent.as_slice()));
    }
    Ok(())
}

#[test]
fn what_the_system_refuses_is_lost(rt: HostRuntime) -> Result<(), Fail> {
    let alloc = rt.alloc();
    let mut wire = UdpWire::make(&rt);
    let here = wire.bind(LOOPBACK)?;
    let closed = UdpWire::make(&rt).bind(LOOPBACK)?;
    let long = vec![in alloc; 0; 65_508]?;
    // A broadcast, which a socket may not send unless it asked to.
    let all = Host {
        addr: 0x7fff_ffff,
        port: 7000,
    };
    assert_eq!(rt; wire.give(LOOPBACK, b"port 0"), Ok(()));
    assert_eq!(rt; wire.give(here, long.as_slice()), Ok(()));
    assert_eq!(rt; wire.give(all, b"broadcast"), Ok(()));
    assert_eq!(rt; wire.give(closed, b"closed"), Ok(()));
    assert_eq!(rt; wire.take(40, &mut [0; 8]), Ok(None));
    assert_eq!(rt; wire.give(here, &long[..65_507]), Ok(()));
    assert_eq!(rt; wire.take(60_000, &mut [0; 8]), Ok(Some((here, 8))));
    assert_eq!(rt; wire.faults, 0);
    Ok(())
}

#[test]
fn no_way_is_a_fault_until_something_has_passed(rt: HostRuntime) -> Result<(), Fail> {
    let mut client = UdpWire::make(&rt);
    let client_host = client.bind(LOOPBACK)?;
    assert_eq!(rt; client.give(LOOPBACK, b"port 0"), Ok(()));
    assert_eq!(rt; client.give(FAR, b"far"), Err(Failed));
    assert_eq!(rt; client.give(FAR, b"far"), Err(Failed));
    let other = UdpWire::make(&rt).bind(LOOPBACK)?;
    assert_eq!(rt; client.give(other, b"near"), Ok(()));
    assert_eq!(rt; client.give(FAR, b"far"), Ok(()));
    assert_eq!(rt; client.faults, 2);
    // A server may have taken one before it gives any.
    let mut server = UdpWire::make(&rt);
    let server_host = server.bind(LOOPBACK)?;
    assert_eq!(rt; client.give(server_host, b"near"), Ok(()));
    assert_eq!(rt;
        server.take(60_000, &mut [0; 8]),
        Ok(Some((client_host, 4)))
    );
    assert_eq!(rt; server.give(FAR, b"far"), Ok(()));
    assert_eq!(rt; server.faults, 0);
    // A bind begins anew.
    server.bind(LOOPBACK)?;
    assert_eq!(rt; server.give(FAR, b"far"), Err(Failed));
    Ok(())
}

#[test]
fn a_wait_goes_on_behind_a_hundred_that_are_passed_over(rt: HostRuntime) -> Result<(), Fail> {
    let any = SocketAddrV6::new(Ipv6Addr::LOCALHOST, 0, 0, 0);
    let (Ok(socket), Ok(other)) = (UdpSocket::bind(&rt, any), UdpSocket::bind(&rt, any)) else {
        // A machine without IPv6 has no such source.
        return Ok(());
    };
    let to = socket.local_addr()?;
    for _ in 0..100 {
        other.send_to(b"abc", to)?;
    }
    let mut wire = UdpWire::make(&rt);
    wire.bind(LOOPBACK)?;
    wire.socket = Some(socket);
    let until = (wire.now() + 60).min(10_000);
    assert_eq!(rt; wire.take(until, &mut [0; 8]), Ok(None));
    assert!(rt; until <= wire.now());
    assert_eq!(rt; wire.faults, 0);
    Ok(())
}

#[test]
fn a_refusal_that_is_told_late_ends_no_wait(rt: HostRuntime) -> Result<(), Fail> {
    let mut wire = UdpWire::make(&rt);
    wire.bind(LOOPBACK)?;
    let closed = UdpWire::make(&rt).bind(LOOPBACK)?;
    // The system tells a socket with one peer that nobody has the peer's port.
    let peer = super::v4_of(closed);
    if let Some(socket) = &wire.socket {
        socket.connect(peer)?;
        socket.send(b"abc")?;
        thread::sleep(&rt, Duration::from_millis(20));
        let told = socket.send(b"def").map_err(|error| error.raw_os_error());
        assert_eq!(rt; told, Err(Some(111)));
        socket.send(b"ghi")?;
    }
    thread::sleep(&rt, Duration::from_millis(20));
    let start = Instant::now(&rt)?;
    let until = (wire.now() + 120).min(10_000);
    assert_eq!(rt; wire.take(until, &mut [0; 8]), Ok(None));
    assert!(rt; until <= wire.now());
    assert!(rt; (60..1_000).contains(&start.elapsed(&rt)?.as_millis()));
    // Nor is a datagram refused that is given then.
    assert_eq!(rt; wire.give(closed, b"abc"), Ok(()));
    thread::sleep(&rt, Duration::from_millis(20));
    assert_eq!(rt; wire.give(closed, b"def"), Ok(()));
    assert_eq!(rt; wire.faults, 0);
    Ok(())
}

#[test]
fn what_is_no_socket_fails(rt: HostRuntime) -> Result<(), Fail> {
    let mut wire = UdpWire::make(&rt);
    let here = wire.bind(LOOPBACK)?;
    wire.give(here, b"abc")?;
    wire.socket = Some(UdpSocket::from(OwnedFd::from(File::open(&rt, "/dev/null")?)));
    assert_eq!(rt; wire.give(here, b"abc"), Err(Failed));
    assert_eq!(rt; wire.take(10, &mut [0; 4]), Err(Failed));
    assert_eq!(rt; wire.faults, 2);
    Ok(())
}

/// What a receive that ends with this error of the system comes to.
fn received(number: i32) -> Option<bool> {
    match got_of(io::Error::from_raw_os_error(number)) {
        Ok(Got::Late) => Some(true),
        Ok(Got::Again) => Some(false),
        Ok(Got::Came(..)) | Err(_) => None,
    }
}

#[test]
fn each_error_has_its_meaning(rt: HostRuntime) {
    let (over, again) = (Some(true), Some(false));
    // By errno(3) on Linux.
    let rows = [
        (1, Sent::Lost, None),
        (4, Sent::Again, again),
        (9, Sent::Fault, None),
        (11, Sent::Lost, over),
        (12, Sent::Lost, again),
        (13, Sent::Lost, None),
        (14, Sent::Fault, None),
        (19, Sent::NoRoute, again),
        (22, Sent::NoRoute, None),
        (32, Sent::Fault, None),
        (64, Sent::NoRoute, again),
        (71, Sent::Lost, again),
        (88, Sent::Fault, None),
        (90, Sent::Lost, again),
        (92, Sent::Lost, again),
        (95, Sent::Lost, again),
        (97, Sent::Fault, None),
        (99, Sent::NoRoute, None),
        (100, Sent::NoRoute, again),
        (101, Sent::NoRoute, again),
        (104, Sent::Lost, again),
        (105, Sent::Lost, again),
        (107, Sent::Fault, None),
        (111, Sent::Lost, again),
        (112, Sent::NoRoute, again),
        (113, Sent::NoRoute, again),
    ];
    for (number, sent, got) in rows {
        let error = io::Error::from_raw_os_error(number);
        assert_eq!(rt; sent_of(Refusal::of(&error)), sent, "{number}");
        assert_eq!(rt; received(number), got, "{number}");
    }
    let unnumbered = io::Error::from(io::ErrorKind::WouldBlock);
    assert_eq!(rt; Refusal::of(&unnumbered), Refusal::Socket);
}
