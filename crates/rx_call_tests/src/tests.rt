ghost use Rattle.std.specs.Prelude.{◌≡◌, ◌≤◌, ◌<◌, ◌^◌, length, false};
ghost use Rattle.rx_pool.specs.Held.{Holds};
ghost use Rattle.rx_call.specs.Standing.{IsIdle, slots_of};

use rx_call::{Call, Giving, Side};
use rx_model::{CallRead, Pace, Took};
use rx_packet::{Body, Head};
use rx_pool::Pool;
use std::process::Abort;
use std::test::*;

mod acks;
mod calls;
mod losses;
mod packets;
mod pieces;

/// The pace of a node with this window that isn't prompt.
pub fn of_window(window: u32) -> Pace
    ensures { result ≡ record { window = window; prompt = false } }
{
    Pace {
        window,
        prompt: false,
    }
}

/// The pace of a node with a window of 32 that is prompt or isn't.
pub fn of_prompt(prompt: bool) -> Pace
    ensures { result ≡ record { window = 32; prompt = prompt } }
{
    Pace { window: 32, prompt }
}

/// The header of a message of call 1 on channel 0.
pub fn head(seq: u32, serial: u32, flags: u8) -> Head {
    Head {
        epoch: 1,
        cid: 4,
        number: 1,
        seq,
        serial,
        flags,
        status: 0,
        index: 0,
        spare: 0,
        service: 1,
    }
}

/// A data packet comes, where all free slots but one for the lead are left for any packet; `Full` where none is free.
fn take(call: &mut Call, pool: &mut Pool, now: u64, head: &Head, payload: &[u8]) -> Took
    requires size { length payload.now ≤ 1444 }
    requires now { now < 2 ^ 62 }
    requires holds { Holds pool.old (slots_of call.old) }
    ensures { Holds pool.new (slots_of call.new) }
{
    let free = pool.free();
    if free == 0 {
        return Took::Full;
    }
    call.take(pool, free - 1, now, head, &Body::Chunk(payload))
}

#[test]
fn packets_out_of_order_are_acknowledged_and_read_in_order(rt: HostRuntime) -> Result<(), Fail> {
    let mut pool = Pool::make(rt.alloc(), 3)?;
    let mut call = Call::make(rt.alloc(), of_window(32))?;
    call.start(Side::Server, 0);
    assert_eq!(rt;
        take(&mut call, &mut pool, 5, &head(2, 2, 5), b"k"),
        Took::Kept
    );
    assert!(rt; call.held() == 1 && !call.lead() && call.dies() == 12_005);
    assert_eq!(rt;
        call.poll(5),
        Some(Giving::Ack {
            reason: 3,
            serial: 2
        })
    );
    assert_eq!(rt; call.poll(5), None);
    assert_eq!(rt; call.ack_view().marks.as_slice(), [false, true].as_slice());
    assert_eq!(rt;
        take(&mut call, &mut pool, 6, &head(1, 1, 1), &[0x5a; 1412]),
        Took::Kept
    );
    assert_eq!(rt; call.due(), Some(106));
    assert!(rt; call.lead() && !call.all_read());
    call.clear(&mut pool);
    assert!(rt; pool.free() == 3 && call.held() == 0);
    Ok(())
}

#[test]
fn what_is_lost_is_given_again_between_pings(rt: HostRuntime) -> Result<(), Fail> {
    let mut pool = Pool::make(rt.alloc(), 2)?;
    let mut call = Call::make(rt.alloc(), of_window(32))?;
    call.start(Side::Client, 0);
    call.shut(&mut pool);
    let piece = Giving::Piece {
        seq: 1,
        asks: true,
        last: true,
    };
    let ping = Giving::Ack {
        reason: 6,
        serial: 0,
    };
    for (moment, giving) in [
        (0, Some(piece)),
        (999, None),
        (1000, Some(piece)),
        (2999, None),
        (3000, Some(piece)),
        (4999, None),
        (5000, Some(ping)),
        (6999, None),
        (7000, Some(piece)),
        (9000, Some(ping)),
        (11_000, Some(piece)),
        (11_999, None),
    ] {
        assert_eq!(rt; poll(&mut call, moment), giving);
    }
    assert!(rt; call.dies() == 12_000 && call.is_shut() && !call.is_delivered());
    Ok(())
}

/// What it gives at a moment.
fn poll(call: &mut Call, moment: u32) -> Option<Giving>
    ensures { slots_of call.new ≡ slots_of call.old }
{
    call.poll(moment as u64)
}

/// Shuts a stream that isn't shut, where a slot is free.
fn shut(call: &mut Call, pool: &mut Pool)
    requires { Holds pool.old (slots_of call.old) }
    ensures { Holds pool.new (slots_of call.new) }
{
    if !call.is_shut() && pool.free() > 0 {
        call.shut(pool);
    }
}

#[test]
fn reply_data_acknowledges_the_request(rt: HostRuntime) -> Result<(), Fail> {
    let mut pool = Pool::make(rt.alloc(), 2)?;
    let mut call = Call::make(rt.alloc(), of_window(32))?;
    let mut to = [0; 4];
    call.start(Side::Client, 0);
    assert_eq!(rt;
        take(&mut call, &mut pool, 5, &head(1, 1, 4), b"ok"),
        Took::Strange
    );
    shut(&mut call, &mut pool);
    assert!(rt; poll(&mut call, 0).is_some() && call.held() == 1);
    assert_eq!(rt;
        take(&mut call, &mut pool, 5, &head(1, 1, 4), b"ok"),
        Took::Kept
    );
    assert!(rt; call.is_delivered() && call.held() == 1 && call.due() == Some(105));
    assert_eq!(rt; call.read(&mut pool, 6, &mut to), CallRead::Got(2));
    assert!(rt; to[0] == b'o' && to[1] == b'k' && call.held() == 1);
    assert_eq!(rt; call.read(&mut pool, 7, &mut to), CallRead::End);
    assert!(rt; call.all_read() && call.held() == 0 && pool.free() == 2);
    assert_eq!(rt; call.due(), Some(105));
    Ok(())
}
