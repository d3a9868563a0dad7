//! Clients that make a call over a wire in memory.

use super::case::{CASE, Case, check};
use super::wire::{CLIENT, Comes, SERVER};
use std::test::Fail;

const CALL: &str = "call AFS.xg FetchStatus [{\"Volume\":1,\"Vnode\":2,\"Unique\":3},\"a\",420] \
    --to 10.0.0.1:7000 --epoch 1 --from 10.0.0.2:7001";

const CALL_FIVE: &str =
    "call AFS.xg FetchStatus [{\"Volume\":1,\"Vnode\":2,\"Unique\":3},\"a\",420] \
    --to 10.0.0.1:7000 --epoch 1 --from 10.0.0.2:7001 --turns 5";

/// A call of a procedure whose reply begins with a download.
const FETCH: &str =
    "call AFS.xg FetchData [{\"Volume\":1,\"Vnode\":2,\"Unique\":3},0,3] --down yes \
    --to 10.0.0.1:7000 --epoch 1 --from 10.0.0.2:7001";

/// A call whose request is 3,000 bytes.
const JOINS: &str = "call AFS.xg FetchData [{\"Volume\":1,\"Vnode\":2,\"Unique\":3},0,3] --up up \
    --to 10.0.0.1:7000 --epoch 1 --from 10.0.0.2:7001 --jumbo 16 --turns 1";

/// The whole reply of FetchStatus in one datagram.
const REPLY: &[Comes] = &[(
    7,
    SERVER,
    "0000000100000004000000010000000100000001 0106000000000001 000001a4 00000000",
)];

/// The whole reply of FetchData, with a download of three bytes and with one of none.
const FETCHED: &[Comes] = &[(
    7,
    SERVER,
    "0000000100000004000000010000000100000001 0106000000000001 00000003 616263 00000007",
)];

const FETCHED_NONE: &[Comes] = &[(
    7,
    SERVER,
    "0000000100000004000000010000000100000001 0106000000000001 00000000 00000007",
)];

/// An ABORT of the call with -5.
const ABORT: &[Comes] = &[(
    7,
    SERVER,
    "0000000100000004000000010000000000000001 0400000000000001 fffffffb",
)];

/// Nine datagrams of a byte come, at nine moments.
const NINE: &[Comes] = &[
    (0, CLIENT, "00"),
    (1, CLIENT, "00"),
    (2, CLIENT, "00"),
    (3, CLIENT, "00"),
    (4, CLIENT, "00"),
    (5, CLIENT, "00"),
    (6, CLIENT, "00"),
    (7, CLIENT, "00"),
    (8, CLIENT, "00"),
];

/// A call that nobody answers and that a fault of its wire ends.
const CUT: Case = Case {
    line: CALL,
    status: 8,
    err: "rx: network fault\n",
    ..CASE
};

/// A call whose answer can't be put whole.
const FULL: Case = Case {
    line: FETCH,
    comes: FETCHED,
    status: 7,
    err: "rx: cannot write\n",
    ..CASE
};

static CALLS: [Case; 16] = [
    Case {
        line: CALL,
        comes: REPLY,
        out: "ok [420,[]]\n",
        ..CASE
    },
    Case {
        line: FETCH,
        comes: FETCHED,
        out: "ok [7] down 616263\n",
        ..CASE
    },
    Case {
        line: FETCH,
        comes: FETCHED_NONE,
        out: "ok [7] down -\n",
        ..CASE
    },
    Case {
        line: CALL,
        comes: ABORT,
        status: 3,
        err: "rx: aborted -5\n",
        ..CASE
    },
    // the example wire-faults: nobody answers; the bind fails, the first give, the first take and the third give
    Case {
        line: CALL,
        status: 4,
        err: "rx: dead 12000\n",
        ..CASE
    },
    Case {
        wire_faults: &[1],
        ..CUT
    },
    Case {
        wire_faults: &[2],
        lost: 1,
        ..CUT
    },
    Case {
        wire_faults: &[3],
        ..CUT
    },
    Case {
        wire_faults: &[6],
        lost: 1,
        ..CUT
    },
    // of five takes none brings what it waits for
    Case {
        line: CALL_FIVE,
        comes: NINE,
        status: 9,
        err: "rx: turns spent 5\n",
        ..CASE
    },
    // the first two pieces go out as one datagram; nobody answers, and one of them goes out again
    Case {
        line: JOINS,
        status: 9,
        err: "rx: turns spent 1\n",
        is_joined: true,
        on_wire: Some((0, 1, 2)),
        noted: Some((0, 3)),
        ..CASE
    },
    // each put of the line of an answer fails
    Case {
        put_faults: &[1],
        ..FULL
    },
    Case {
        put_faults: &[2],
        out: "ok ",
        ..FULL
    },
    Case {
        put_faults: &[3],
        out: "ok [7]",
        ..FULL
    },
    Case {
        put_faults: &[4],
        out: "ok [7] down ",
        ..FULL
    },
    Case {
        put_faults: &[5],
        out: "ok [7] down 616263",
        ..FULL
    },
];

#[test]
fn calls_end_as_they_are_told(rt: HostRuntime) -> Result<(), Fail> {
    for case in &CALLS {
        check(&rt, rt.alloc(), case)?;
    }
    Ok(())
}
