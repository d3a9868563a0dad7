use crate::{Forgetting, Journal, MemJournal};
use rx_model::{Bytes, CallName, Event, Host, ReadGot, ServeRead, Took, WroteGot, event_line};
use std::alloc::{AllocError, Global};
use std::test::Fail;

const HOST: Host = Host {
    addr: 0x0a00_0002,
    port: 7001,
};

const CALL: CallName = CallName {
    host: HOST,
    epoch: 9,
    cid: 4,
    chan: 1,
    number: 3,
};

/// An event of each kind.
fn events(alloc: Global) -> Result<Vec<Event>, AllocError> {
    let mut events = Vec::new(alloc);
    let (to, service, first) = (HOST, 5, 1);
    events.push(Event::Linked {
        to,
        service,
        first,
        got: Ok(4),
    })?;
    events.push(Event::Called {
        cid: 4,
        got: Ok(CALL),
    })?;
    let bytes = Bytes::copied(alloc, b"ab")?;
    events.push(Event::Wrote {
        call: CALL,
        offered: 3,
        got: WroteGot::Client(Ok(2)),
        bytes,
    })?;
    events.push(Event::Shut {
        call: CALL,
        got: Ok(()),
    })?;
    let bytes = Bytes::copied(alloc, b"c")?;
    let got = ReadGot::Server(ServeRead::Got(1));
    events.push(Event::HasRead {
        call: CALL,
        max: 9,
        got,
        bytes,
    })?;
    events.push(Event::Ended {
        call: CALL,
        got: rx_model::Asked::Live,
    })?;
    events.push(Event::Cancelled {
        call: CALL,
        code: 7,
        got: Ok(()),
    })?;
    events.push(Event::Accepted { got: Some(CALL) })?;
    events.push(Event::Finished {
        call: CALL,
        code: 0,
        got: Ok(()),
    })?;
    let bytes = Bytes::copied(alloc, b"d")?;
    events.push(Event::Taken {
        from: HOST,
        bytes,
        got: Took::Bad(rx_model::BadMsg::Short(1)),
    })?;
    events.push(Event::Polled {
        got: Some((HOST, Bytes::copied(alloc, b"e")?)),
    })?;
    events.push(Event::Polled { got: None })?;
    events.push(Event::Clocked { now: 8 })?;
    Ok(events)
}

/// Their lines.
static LINES: [&str; 13] = [
    "c2 connect 10.0.0.2:7001 5 1 -> 4",
    "c2 call 4 -> 10.0.0.2:7001/9/4/1/3",
    "c2 write 10.0.0.2:7001/9/4/1/3 3 -> 2 6162",
    "c2 shut 10.0.0.2:7001/9/4/1/3 -> ok",
    "c2 read 10.0.0.2:7001/9/4/1/3 9 -> got 63",
    "c2 ask 10.0.0.2:7001/9/4/1/3 -> live",
    "c2 cancel 10.0.0.2:7001/9/4/1/3 7 -> ok",
    "c2 accept -> 10.0.0.2:7001/9/4/1/3",
    "c2 finish 10.0.0.2:7001/9/4/1/3 0 -> ok",
    "c2 take 10.0.0.2:7001 64 -> bad short 1",
    "c2 poll -> 10.0.0.2:7001 65",
    "c2 poll -> none",
    "c2 clock 8",
];

/// The lines of a datagram that is noted from a slice.
static SLICE_LINES: [&str; 2] = [
    "c2 take 10.0.0.2:7001 6465 -> kept",
    "c2 poll -> 10.0.0.2:7001 66",
];

/// Notes for a node that a datagram was taken, and that one was polled.
fn note_slices<J: Journal>(book: &mut J, node: u32) -> Result<(), AllocError> {
    book.note_taken(node, HOST, b"de", Took::Kept)?;
    book.note_polled(node, HOST, b"f")
}

/// Notes them for a node.
fn note_all<J: Journal>(book: &mut J, node: u32, events: &[Event]) -> Result<(), AllocError> {
    for event in events {
        book.note(node, event)?;
    }
    Ok(())
}

#[test]
fn keeps_each_event_in_order(rt: HostRuntime) -> Result<(), Fail> {
    let mut book = MemJournal::make(rt.alloc());
    note_all(&mut book, 2, &events(rt.alloc())?)?;
    assert_eq!(rt; book.noted().len(), LINES.len());
    for (noted, line) in book.noted().iter().zip(&LINES) {
        assert_eq!(rt; noted.node, 2);
        let printed = event_line(rt.alloc(), "c2", &noted.event)?;
        assert_eq!(rt; printed.as_str(), *line);
    }
    Ok(())
}

#[test]
fn keeps_datagrams_from_slices(rt: HostRuntime) -> Result<(), Fail> {
    let mut book = MemJournal::make(rt.alloc());
    note_slices(&mut book, 2)?;
    assert_eq!(rt; book.noted().len(), SLICE_LINES.len());
    for (noted, line) in book.noted().iter().zip(&SLICE_LINES) {
        assert_eq!(rt; noted.node, 2);
        let printed = event_line(rt.alloc(), "c2", &noted.event)?;
        assert_eq!(rt; printed.as_str(), *line);
    }
    Ok(())
}

#[test]
fn forgets(rt: HostRuntime) -> Result<(), Fail> {
    note_all(&mut Forgetting, 2, &events(rt.alloc())?)?;
    note_slices(&mut Forgetting, 2)?;
    Ok(())
}
