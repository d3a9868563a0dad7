//! Wires in memory, and sockets over loopback.

use crate::{Arrival, LastBind, LogEntry, MemWire, UdpWire, Wire};
use rx_base::Failed;
use rx_model::Host;
use std::test::Fail;

const SERVER: Host = Host {
    addr: 0x0a00_0001,
    port: 7000,
};

const CLIENT: Host = Host {
    addr: 0x0a00_0002,
    port: 7001,
};

const LOOPBACK: Host = Host {
    addr: 0x7f00_0001,
    port: 0,
};

#[test]
fn arrivals_come_in_their_order(rt: HostRuntime) -> Result<(), Fail> {
    let alloc = rt.alloc();
    let first = Arrival {
        at: 5,
        from: CLIENT,
        bytes: Vec::from_slice(alloc, b"abcde")?,
    };
    let second = Arrival {
        at: 2,
        from: SERVER,
        bytes: Vec::from_slice(alloc, b"f")?,
    };
    let arrivals = vec![in alloc; first, second]?;
    let mut wire = MemWire::make(alloc, arrivals, 9, Vec::new(alloc))?;
    let mut to = [0; 4];
    assert_eq!(rt; wire.now(), 0);
    let takes = [
        (4, None, 4, *b"\0\0\0\0"),
        (6, Some((CLIENT, 4)), 5, *b"abcd"),
        (2, Some((SERVER, 1)), 5, *b"fbcd"),
        (3, None, 5, *b"fbcd"),
        (7, None, 7, *b"fbcd"),
    ];
    for (until, came, now, bytes) in takes {
        assert!(rt; until < 8);
        assert_eq!(rt; wire.take(until, &mut to)?, came);
        assert_eq!(rt; wire.now(), now);
        assert_eq!(rt; to, bytes);
    }
    Ok(())
}

#[test]
fn the_log_tells_takes_and_gives(rt: HostRuntime) -> Result<(), Fail> {
    let alloc = rt.alloc();
    let arrival = Arrival {
        at: 0,
        from: CLIENT,
        bytes: Vec::from_slice(alloc, b"abc")?,
    };
    let mut wire = MemWire::make(alloc, vec![in alloc; arrival]?, 9, Vec::new(alloc))?;
    let mut to = [0; 2];
    wire.give(CLIENT, b"x")?;
    assert_eq!(rt; wire.bound(), None);
    assert_eq!(rt; wire.bind(SERVER)?, SERVER);
    wire.take(6, &mut to)?;
    wire.take(6, &mut [0; 3])?;
    let bound = LastBind {
        asked: SERVER,
        answered: SERVER,
        log_length: 1,
    };
    assert_eq!(rt; wire.bound(), Some(bound));
    let given = LogEntry::Given {
        to: CLIENT,
        bytes: b"x",
    };
    let came = LogEntry::Came {
        room: 2,
        until: 6,
        from: CLIENT,
        bytes: b"ab",
        moment: 0,
    };
    let waited = LogEntry::Waited {
        room: 3,
        until: 6,
        moment: 6,
    };
    let mut log = wire.log();
    for want in [given, came, waited] {
        assert_eq!(rt; log.next(), Some(want));
    }
    assert_eq!(rt; log.next(), None);
    Ok(())
}

#[test]
fn the_listed_calls_fail(rt: HostRuntime) -> Result<(), Fail> {
    let alloc = rt.alloc();
    let failing = Vec::from_slice(alloc, &[1, 3, 5])?;
    let mut wire = MemWire::make(alloc, Vec::new(alloc), 9, failing)?;
    let mut to = [0; 2];
    assert_eq!(rt; wire.bind(SERVER), Err(Failed));
    assert_eq!(rt; wire.bind(CLIENT), Ok(CLIENT));
    assert_eq!(rt; wire.take(5, &mut to), Err(Failed));
    assert_eq!(rt; wire.take(5, &mut to), Ok(None));
    assert_eq!(rt; wire.give(SERVER, b"x"), Err(Failed));
    assert_eq!(rt; wire.give(SERVER, b"y"), Ok(()));
    assert_eq!(rt; wire.log().count(), 2);
    Ok(())
}

#[test]
fn what_passes_the_room_fails(rt: HostRuntime) -> Result<(), Fail> {
    let alloc = rt.alloc();
    let arrival = Arrival {
        at: 0,
        from: CLIENT,
        bytes: Vec::from_slice(alloc, b"abc")?,
    };
    let mut wire = MemWire::make(alloc, vec![in alloc; arrival]?, 3, Vec::new(alloc))?;
    wire.give(SERVER, b"x")?;
    assert_eq!(rt; wire.give(SERVER, b"xyz"), Err(Failed));
    assert_eq!(rt; wire.take(5, &mut [0; 3]), Err(Failed));
    assert_eq!(rt; wire.take(5, &mut [0; 2]), Ok(Some((CLIENT, 2))));
    assert_eq!(rt; wire.take(5, &mut [0; 2]), Ok(None));
    assert_eq!(rt; wire.give(SERVER, b""), Err(Failed));
    Ok(())
}

#[test]
fn datagrams_cross_loopback(rt: HostRuntime) -> Result<(), Fail> {
    let mut server = UdpWire::make(&rt);
    let mut client = UdpWire::make(&rt);
    let server_host = server.bind(LOOPBACK)?;
    let client_host = client.bind(LOOPBACK)?;
    assert_eq!(rt; server_host.addr, LOOPBACK.addr);
    client.give(server_host, b"abc")?;
    client.give(server_host, b"defgh")?;
    let mut to = [0; 4];
    assert_eq!(rt; server.take(60_000, &mut to)?, Some((client_host, 3)));
    assert_eq!(rt; to, *b"abc\0");
    assert_eq!(rt; server.take(60_000, &mut to)?, Some((client_host, 4)));
    assert_eq!(rt; to, *b"defg");
    assert!(rt; server.now() < 60_000);
    Ok(())
}

#[test]
fn a_take_waits_up_to_its_moment(rt: HostRuntime) -> Result<(), Fail> {
    let mut wire = UdpWire::make(&rt);
    wire.bind(LOOPBACK)?;
    assert_eq!(rt; wire.now(), 0);
    assert_eq!(rt; wire.take(30, &mut [0; 4]), Ok(None));
    assert!(rt; (30..10_000).contains(&wire.now()));
    assert_eq!(rt; wire.take(30, &mut [0; 4]), Ok(None));
    Ok(())
}

#[test]
fn a_wire_without_a_socket_fails(rt: HostRuntime) -> Result<(), Fail> {
    let mut wire = UdpWire::make(&rt);
    assert_eq!(rt; wire.take(5, &mut [0; 4]), Err(Failed));
    assert_eq!(rt; wire.give(LOOPBACK, b"abc"), Err(Failed));
    let other = UdpWire::make(&rt).bind(LOOPBACK)?;
    assert_eq!(rt; wire.bind(SERVER), Err(Failed));
    assert_eq!(rt; wire.bind(other)?, other);
    assert_eq!(rt; wire.give(other, b"abc"), Ok(()));
    Ok(())
}
