//! Which half of a peer takes and gives.

ghost use Rattle.std.specs.Prelude.{◌≡◌, ◌<◌};

use crate::peer::Peer;
use crate::role::Role;
use rx_class::Null;
use rx_due::Steps;
use rx_model::wire::DATAGRAM_BYTES;
use rx_model::{BadMsg, Host, Limits, Took};
use std::alloc::{AllocError, Global};
use std::marker::Brand;
use std::sync::ledger::{Blank, Ledger};
use std::test::*;

/// The host of the peer, and that of another one.
const HOST: Host = Host {
    addr: 0x0a00_0001,
    port: 7000,
};

const OTHER: Host = Host {
    addr: 0x0a00_0002,
    port: 7001,
};

const SMALL: Limits = Limits {
    conns: 4,
    calls: 4,
    slots: 200,
    window: 32,
};

/// A datagram, the half that takes it, what becomes of it, and when something is due then.
struct Row {
    bytes: &'static [u8],
    role: Role,
    took: Took,
    due: Option<u64>,
}

static ROWS: [Row; 4] = [
    // shorter than a header
    Row {
        bytes: &[
            0, 0, 0, 1, 0, 0, 0, 4, 0, 0, 0, 1, 0, 0, 0, 1, 0, 0, 0, 1, 1, 4, 0, 0, 0, 0, 0,
        ],
        role: Role::Served,
        took: Took::Bad(BadMsg::Short(27)),
        due: None,
    },
    // from a served half, of a connection that the caller half hasn't
    Row {
        bytes: &[
            0, 0, 0, 1, 0, 0, 0, 4, 0, 0, 0, 1, 0, 0, 0, 1, 0, 0, 0, 1, 1, 4, 0, 0, 0, 0, 0, 1,
        ],
        role: Role::Caller,
        took: Took::Strange,
        due: None,
    },
    // from a caller half: a whole request, whose acknowledgement is due 100 ms later
    Row {
        bytes: &[
            0, 0, 0, 1, 0, 0, 0, 4, 0, 0, 0, 1, 0, 0, 0, 1, 0, 0, 0, 1, 1, 5, 0, 0, 0, 0, 0, 1,
        ],
        role: Role::Served,
        took: Took::Kept,
        due: Some(107),
    },
    // another one, which asks for it
    Row {
        bytes: &[
            0, 0, 0, 1, 0, 0, 0, 5, 0, 0, 0, 1, 0, 0, 0, 1, 0, 0, 0, 2, 1, 7, 0, 0, 0, 0, 0, 1,
        ],
        role: Role::Served,
        took: Took::Kept,
        due: Some(7),
    },
];

/// A peer at the moment 7.
fn peer_at_seven(alloc: Global) -> Result<Peer<Null>, AllocError> {
    let mut peer = Peer::make(alloc, &SMALL, HOST, 1, 1, Null, Null, 0)?;
    if peer.caller.moment() <= 7 && peer.served.moment() <= 7 {
        peer.clock(7);
    }
    Ok(peer)
}

/// The length of the first datagram, of those that come to one peer, that isn't taken as it is told.
fn first_wrong<L: Ledger>(alloc: Global, blank: Blank) -> Result<Option<usize>, AllocError>
    requires name { blank.name ≡ L.name }
    requires parts { blank.parts ≡ L.parts }
    requires some { 0 < blank.parts }
{
    let mut steps = Steps::<L>::new(blank);
    let mut peer = peer_at_seven(alloc)?;
    for row in &ROWS {
        let took = peer.take(OTHER, row.bytes);
        if took != (row.role, row.took) || peer.due(&mut steps) != row.due {
            return Ok(Some(row.bytes.len()));
        }
    }
    Ok(None)
}

/// Whether the caller half says a request to the other host.
fn says(peer: &mut Peer<Null>) -> bool {
    let Ok(cid) = peer.caller.connect(OTHER, 1, 1) else {
        return false;
    };
    let Ok(call) = peer.caller.call(cid) else {
        return false;
    };
    peer.caller.write(&call, &[1, 2, 3]) == Ok(3) && peer.caller.shut(&call) == Ok(())
}

/// Which halves give, in order, where both have something to give at once, and for whom; none past the last one.
fn givers<L: Ledger>(
    alloc: Global,
    blank: Blank,
) -> Result<Option<[Option<(Role, Host)>; 3]>, AllocError>
    requires name { blank.name ≡ L.name }
    requires parts { blank.parts ≡ L.parts }
    requires some { 0 < blank.parts }
{
    let mut steps = Steps::<L>::new(blank);
    let mut peer = peer_at_seven(alloc)?;
    let mut to = [0u8; DATAGRAM_BYTES];
    let (_role, _took) = peer.take(OTHER, ROWS[3].bytes);
    if !says(&mut peer) {
        return Ok(None);
    }
    let mut gave = [None; 3];
    for one in &mut gave {
        *one = match peer.poll(&mut to, &mut steps) {
            Some((role, host, _count)) => Some((role, host)),
            None => None,
        };
    }
    Ok(Some(gave))
}

#[test]
fn short_and_flagged_datagrams_are_the_served_halfs(rt: HostRuntime) -> Result<(), Fail> {
    let wrong = first_wrong::<Brand>(rt.alloc(), Blank::new(1))?;
    assert_eq!(&rt; wrong, None);
    Ok(())
}

#[test]
fn the_caller_half_gives_first(rt: HostRuntime) -> Result<(), Fail> {
    let gave = givers::<Brand>(rt.alloc(), Blank::new(1))?;
    assert_eq!(&rt;
        gave,
        Some([
            Some((Role::Caller, OTHER)),
            Some((Role::Served, OTHER)),
            None
        ])
    );
    Ok(())
}
