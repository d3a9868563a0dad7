//! Servers over a wire in memory.

use super::case::{CASE, Case, check};
use super::wire::{CLIENT, Comes};
use std::test::Fail;

/// A whole request of FetchStatus in one datagram.
const REQUEST: &str = "0000000100000004000000010000000100000001 0107000000000001 \
    00000084 00000001 00000002 00000003 00000001 61000000 000001a4";

/// It comes at the beginning.
const ASKED: &[Comes] = &[(0, CLIENT, REQUEST)];

const SERVE: &str = "serve AFS.xg S.txt --at 10.0.0.1:7000 --for 5000";

const READY: &str = "ready 10.0.0.1:7000\n";

const FINISHED: &str = "ready 10.0.0.1:7000\n\
    accept 10.0.0.2:7001/1/4/0/1\n\
    finish 10.0.0.2:7001/1/4/0/1 0\n";

const SERVED: &str = "ready 10.0.0.1:7000\n\
    accept 10.0.0.2:7001/1/4/0/1\n\
    finish 10.0.0.2:7001/1/4/0/1 0\n\
    time up\n";

/// A server that ends by a fault of its wire.
const CUT: Case = Case {
    line: SERVE,
    comes: ASKED,
    status: 8,
    err: "rx: network fault\n",
    ..CASE
};

/// The same by which no call is served, and by which one is.
const CUT_EARLY: Case = Case { out: READY, ..CUT };

const CUT_LATE: Case = Case {
    out: FINISHED,
    ..CUT
};

/// The example serve-one, and failing-wire: its first bind, take or give fails, its second, and so on up to its last.
static SERVES: [Case; 11] = [
    Case {
        line: SERVE,
        comes: ASKED,
        out: SERVED,
        ..CASE
    },
    // the bind, and the take of the request
    Case {
        wire_faults: &[1],
        ..CUT
    },
    Case {
        wire_faults: &[2],
        ..CUT_EARLY
    },
    // the reply, with the ACK that the request asks for, behind its read, which was polled before the reply went; and
    // that ACK alone
    Case {
        wire_faults: &[3],
        lost: 2,
        ..CUT_LATE
    },
    Case {
        wire_faults: &[4],
        lost: 1,
        ..CUT_LATE
    },
    // the reply again after 1,100 ms, and again after 2,000
    Case {
        wire_faults: &[5],
        ..CUT_LATE
    },
    Case {
        wire_faults: &[6],
        lost: 1,
        ..CUT_LATE
    },
    Case {
        wire_faults: &[7],
        ..CUT_LATE
    },
    Case {
        wire_faults: &[8],
        lost: 1,
        ..CUT_LATE
    },
    // the take up to the end
    Case {
        wire_faults: &[9],
        ..CUT_LATE
    },
    Case {
        line: SERVE,
        comes: ASKED,
        wire_faults: &[10],
        out: SERVED,
        ..CASE
    },
];

#[test]
fn servers_end_as_they_are_told(rt: HostRuntime) -> Result<(), Fail> {
    for case in &SERVES {
        check(&rt, rt.alloc(), case)?;
    }
    Ok(())
}

const SERVE_NONE: &str = "serve none.xg none.txt --at 10.0.0.1:7000 --for 30000";

/// A request that nobody serves.
const UNKNOWN: &str = "0000000100000004000000010000000100000001 0105000000000001 00000084";

/// The same, and more, as two packets in one datagram.
const JOINED: &str =
    "0000000100000004000000010000000100000001 0121000000000001 00000084 1408*5a 05000000 010203";

/// The ABORT with the code -455, as the first packet that the server gives.
const ABORT: &str = "0000000100000004000000010000000000000001 0400000000000001 fffffe39";

/// The lines of a server that has one call, of no procedure that it knows, and those up to the end of that call.
const REFUSED: &str = "ready 10.0.0.1:7000\n\
    accept 10.0.0.2:7001/1/4/0/1\n\
    finish 10.0.0.2:7001/1/4/0/1 -455\n\
    time up\n";

const REFUSED_CALL: &str = "ready 10.0.0.1:7000\n\
    accept 10.0.0.2:7001/1/4/0/1\n\
    finish 10.0.0.2:7001/1/4/0/1 -455\n";

/// A server without procedures to which that request comes.
const NONE: Case = Case {
    line: SERVE_NONE,
    comes: &[(0, CLIENT, UNKNOWN)],
    out: REFUSED,
    ..CASE
};

static REFUSES: [Case; 9] = [
    // a call that comes behind a wait of 20 seconds lives
    Case {
        comes: &[(20_000, CLIENT, UNKNOWN)],
        gives: Some(ABORT),
        on_wire: Some((1, 1, 1)),
        noted: Some((1, 1)),
        ..NONE
    },
    // a jumbo datagram is one entry of the log, and the node takes each part
    Case {
        comes: &[(0, CLIENT, JOINED)],
        is_joined: true,
        gives: Some(ABORT),
        on_wire: Some((1, 1, 1)),
        noted: Some((2, 1)),
        ..NONE
    },
    // the bind fails, a take, and a give
    Case {
        wire_faults: &[1],
        status: 8,
        out: "",
        err: "rx: network fault\n",
        ..NONE
    },
    Case {
        wire_faults: &[2],
        status: 8,
        out: READY,
        err: "rx: network fault\n",
        ..NONE
    },
    Case {
        wire_faults: &[3],
        status: 8,
        out: REFUSED_CALL,
        err: "rx: network fault\n",
        lost: 1,
        ..NONE
    },
    // the line that it is ready, that a call was accepted, and that the time is up
    Case {
        put_faults: &[1],
        status: 7,
        out: "",
        err: "rx: cannot write\n",
        ..NONE
    },
    Case {
        put_faults: &[2],
        status: 7,
        out: READY,
        err: "rx: cannot write\n",
        ..NONE
    },
    Case {
        put_faults: &[4],
        status: 7,
        out: REFUSED_CALL,
        err: "rx: cannot write\n",
        ..NONE
    },
    // all takes are made
    Case {
        line: "serve none.xg none.txt --at 10.0.0.1:7000 --for 1000000 --turns 3",
        comes: &[],
        status: 9,
        out: READY,
        err: "rx: turns spent 3\n",
        on_wire: Some((0, 3, 0)),
        noted: Some((0, 0)),
        ..NONE
    },
];

#[test]
fn a_request_that_nobody_serves_is_refused(rt: HostRuntime) -> Result<(), Fail> {
    for case in &REFUSES {
        check(&rt, rt.alloc(), case)?;
    }
    Ok(())
}
