//! What a server counts: its live calls, and the moment at which something is due.

ghost use Rattle.std.specs.Prelude.{◌≡◌, ◌<◌};

use rx_class::Null;
use rx_due::Steps;
use rx_model::{Host, Limits, Took};
use rx_server::Server;
use std::alloc::{AllocError, Global};
use std::marker::Brand;
use std::sync::ledger::{Blank, Ledger};
use std::test::*;

/// The host of the client.
const CLIENT: Host = Host {
    addr: 0x0a00_0002,
    port: 7001,
};

/// The limits of a small server.
const SMALL: Limits = Limits {
    conns: 4,
    calls: 4,
    slots: 200,
    window: 32,
};

/// The epoch 1 and the cid 4 of the client's first connection, and the cid 8 of its second.
const FIRST: [u8; 8] = [0, 0, 0, 1, 0, 0, 0, 4];

const SECOND: [u8; 8] = [0, 0, 0, 1, 0, 0, 0, 8];

/// A datagram from the client that comes at a moment: its connection, channel, call number and seq, and its last eight
/// bytes with what stands behind them; its answer, and what the server counts then.
struct Row {
    at: u64,
    conn: [u8; 8],
    chan: u8,
    number: u8,
    seq: u8,
    rest: &'static [u8],
    took: Took,
    live: u32,
    due: Option<u64>,
}

/// A whole request in one packet, which asks for its acknowledgement; one that doesn't; and one of another service.
const ASKS: &[u8] = &[1, 7, 0, 0, 0, 0, 0, 1];

const WHOLE: &[u8] = &[1, 5, 0, 0, 0, 0, 0, 1];

const UNSERVED: &[u8] = &[1, 5, 0, 0, 0, 0, 0, 2];

/// An ABORT with the code 9.
const ABORT: &[u8] = &[4, 1, 0, 0, 0, 0, 0, 1, 0, 0, 0, 9];

static ROWS: [Row; 7] = [
    // an acknowledgement is due 100 ms later
    Row {
        at: 5,
        conn: FIRST,
        chan: 0,
        number: 1,
        seq: 1,
        rest: WHOLE,
        took: Took::Kept,
        live: 1,
        due: Some(105),
    },
    // at once
    Row {
        at: 6,
        conn: FIRST,
        chan: 1,
        number: 1,
        seq: 1,
        rest: ASKS,
        took: Took::Kept,
        live: 2,
        due: Some(6),
    },
    Row {
        at: 7,
        conn: SECOND,
        chan: 0,
        number: 1,
        seq: 1,
        rest: WHOLE,
        took: Took::Kept,
        live: 3,
        due: Some(7),
    },
    // an ABORT of the call that was owed it, and one of all calls of its connection
    Row {
        at: 8,
        conn: FIRST,
        chan: 1,
        number: 1,
        seq: 0,
        rest: ABORT,
        took: Took::Stopped,
        live: 2,
        due: Some(105),
    },
    Row {
        at: 9,
        conn: FIRST,
        chan: 2,
        number: 0,
        seq: 0,
        rest: ABORT,
        took: Took::Stopped,
        live: 1,
        due: Some(107),
    },
    Row {
        at: 10,
        conn: SECOND,
        chan: 0,
        number: 1,
        seq: 0,
        rest: ABORT,
        took: Took::Stopped,
        live: 0,
        due: None,
    },
    // a stray abort, at once
    Row {
        at: 11,
        conn: SECOND,
        chan: 0,
        number: 2,
        seq: 1,
        rest: UNSERVED,
        took: Took::Unserved,
        live: 0,
        due: Some(11),
    },
];

/// The bytes of a row's datagram.
fn bytes_of(alloc: Global, row: &Row) -> Result<Vec<u8>, AllocError> {
    let mut bytes = Vec::from_slice(alloc, &row.conn)?;
    if let Some(last) = bytes.last_mut() {
        *last |= row.chan;
    }
    for word in [row.number, row.seq, 1] {
        bytes.extend_from_slice(&[0, 0, 0, word])?;
    }
    bytes.extend_from_slice(row.rest)?;
    Ok(bytes)
}

/// A datagram comes at a moment. Its answer; none where the moment is before the server's own, or no moment.
fn comes(server: &mut Server<Null>, at: u64, bytes: &[u8]) -> Option<Took> {
    if at < server.moment() || at >= 1 << 62 {
        return None;
    }
    server.clock(at);
    Some(server.take(CLIENT, bytes))
}

/// Whether the server counts so many live calls, and that something is due at this moment.
fn counts<L: Ledger>(
    server: &Server<Null>,
    steps: &mut Steps<L>,
    live: u32,
    due: Option<u64>,
) -> bool {
    server.live() == live && server.due(steps) == due
}

/// The moment of the first row, on one server, that isn't as it is told.
fn first_wrong<L: Ledger>(alloc: Global, blank: Blank) -> Result<Option<u64>, AllocError>
    requires name { blank.name ≡ L.name }
    requires parts { blank.parts ≡ L.parts }
    requires some { 0 < blank.parts }
{
    let mut steps = Steps::<L>::new(blank);
    let mut server = Server::make(alloc, &SMALL, 1, Null, 0)?;
    for row in &ROWS {
        let took = comes(&mut server, row.at, &bytes_of(alloc, row)?);
        if took != Some(row.took) || !counts(&server, &mut steps, row.live, row.due) {
            return Ok(Some(row.at));
        }
    }
    Ok(None)
}

#[test]
fn a_server_counts_its_calls_and_what_is_due(rt: HostRuntime) -> Result<(), Fail> {
    let wrong = first_wrong::<Brand>(rt.alloc(), Blank::new(1))?;
    assert_eq!(&rt; wrong, None);
    Ok(())
}
