ghost use Rattle.std.specs.Prelude.{◌≡◌, ◌<◌};

use crate::calls::{Counts, make_calls, start};
use crate::joined::{Joined, MAX_IDLE, MAX_LIVE};
use crate::streams::make_streams;
use rx_due::Steps;
use std::alloc::{AllocError, Global};
use std::sync::ledger::{Blank, Ledger};

/// What is measured.
#[derive(Clone, Copy)]
pub struct Work {
    /// Tiny calls.
    pub calls: u32,
    /// How many of them are made at a time.
    pub channels: u32,
    /// Bytes of a stream each way; none moves where there are none.
    pub bytes: u64,
    /// How many connections idle beside the one in use.
    pub idle: u32,
    /// On how many more a call lives.
    pub live: u32,
}

/// What was done.
#[derive(Clone, Copy)]
pub struct Done {
    /// The checksum of what was read.
    pub sum: u64,
    /// How many calls ended well.
    pub calls: u32,
    /// How many datagrams were given and taken.
    pub datagrams: u64,
}

/// Does the work over a new ledger; none where there are too many connections, or a connection can't be made.
pub fn measured<L: Ledger>(
    alloc: Global,
    work: &Work,
    blank: Blank,
) -> Result<Option<Done>, AllocError>
    requires name { blank.name ≡ L.name }
    requires parts { blank.parts ≡ L.parts }
    requires some { 0 < blank.parts }
{
    let mut steps = Steps::<L>::new(blank);
    if work.idle > MAX_IDLE || work.live > MAX_LIVE {
        return Ok(None);
    }
    let mut joined = Joined::make(alloc, work.idle, work.live)?;
    let idled = idle(&mut joined, work.idle, &mut steps);
    live(&mut joined, work.live, &mut steps);
    let Some(cid) = joined.connect() else {
        return Ok(None);
    };
    let called = make_calls(
        &mut joined,
        cid,
        work.calls,
        work.channels,
        idled,
        &mut steps,
    );
    let counts = if work.bytes > 0 {
        make_streams(alloc, &mut joined, cid, work.bytes, called, &mut steps)?
    } else {
        called
    };
    Ok(Some(Done {
        sum: counts.sum,
        calls: counts.calls,
        datagrams: joined.datagrams,
    }))
}

/// Makes so many connections with a tiny call on each, so that both ends know them.
fn idle<L: Ledger>(joined: &mut Joined, conns: u32, steps: &mut Steps<L>) -> Counts {
    let mut counts = Counts { sum: 0, calls: 0 };
    for _ in 0..conns {
        if let Some(cid) = joined.connect() {
            counts = make_calls(joined, cid, 1, 1, counts, steps);
        }
    }
    counts
}

/// Makes so many connections with a call on each, which a handler takes and leaves as it is.
fn live<L: Ledger>(joined: &mut Joined, conns: u32, steps: &mut Steps<L>) {
    for number in 0..conns {
        if let Some(cid) = joined.connect() {
            let _call = start(joined, cid, number);
            joined.client_gives(steps);
            let _handled = joined.accept();
        }
    }
}
