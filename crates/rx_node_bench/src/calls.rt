use crate::bytes::fold;
use crate::joined::Joined;
use rx_due::Steps;
use rx_model::{CallName, ReadAns, ServeRead};
use std::sync::ledger::Ledger;

/// Bytes that a request and a reply have.
const TINY: usize = 4;

/// Room for a request or a reply, and for one byte more.
const ROOM: usize = 8;

/// What was done.
#[derive(Clone, Copy, Debug)]
pub struct Counts {
    /// The checksum of what was read.
    pub sum: u64,
    /// How many calls ended well.
    pub calls: u32,
}

/// Makes so many tiny calls on a connection, on so many channels at a time; each reply has the bytes of its request.
pub fn make_calls<L: Ledger>(
    joined: &mut Joined,
    cid: u32,
    calls: u32,
    channels: u32,
    before: Counts,
    steps: &mut Steps<L>,
) -> Counts {
    let mut counts = before;
    let mut left = calls;
    for _ in 0..calls {
        let now = left.min(channels);
        counts = make_at_once(joined, cid, now, counts, steps);
        left -= now;
        if left == 0 {
            return counts;
        }
    }
    counts
}

/// Makes so many calls at once, at most four.
fn make_at_once<L: Ledger>(
    joined: &mut Joined,
    cid: u32,
    calls: u32,
    before: Counts,
    steps: &mut Steps<L>,
) -> Counts {
    let mut started = [None; 4];
    for place in 0..calls.min(4) {
        started[place as usize] = start(joined, cid, before.calls.wrapping_add(place));
    }
    joined.client_gives(steps);
    let mut counts = before;
    for _ in 0..calls {
        counts.sum = serve(joined, counts.sum);
    }
    joined.server_gives(steps);
    for call in &started {
        counts = read(joined, call, counts);
    }
    joined.client_gives(steps);
    joined.wait(1);
    counts
}

/// Starts a call, whose request is a number.
pub fn start(joined: &mut Joined, cid: u32, number: u32) -> Option<CallName> {
    let c = joined.call(cid)?;
    let _accepted = joined.write_request(&c, &number.to_be_bytes());
    joined.shut(&c);
    Some(c)
}

/// A handler takes the next call, reads its request and gives it back. Answers the checksum.
fn serve(joined: &mut Joined, sum: u64) -> u64 {
    let Some(c) = joined.accept() else {
        return sum;
    };
    let mut room = [0; ROOM];
    let ServeRead::Got(count) = joined.read_request(&c, &mut room) else {
        return sum;
    };
    let _end = joined.read_request(&c, &mut [0]);
    let (request, _rest) = room.split_at(TINY);
    let _accepted = joined.write_reply(&c, request);
    joined.finish(&c);
    fold(sum, &room, count)
}

/// Reads a reply to its end.
fn read(joined: &mut Joined, call: &Option<CallName>, before: Counts) -> Counts {
    let Some(c) = call else {
        return before;
    };
    let mut room = [0; ROOM];
    let ReadAns::Got(count) = joined.read_reply(c, &mut room) else {
        return before;
    };
    let sum = fold(before.sum, &room, count);
    if joined.read_reply(c, &mut room) != ReadAns::End {
        return Counts { sum, ..before };
    }
    Counts {
        sum,
        calls: before.calls.wrapping_add(1),
    }
}
