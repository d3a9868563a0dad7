ghost use Rattle.rx_pool.specs.Held.{Holds};
ghost use Rattle.rx_call.specs.Standing.{slots_of};

use super::{head, of_window, poll, shut};
use crate::tests::pieces::{left, piece, say};
use arrayvec::ArrayVec;
use rx_call::{Call, Giving, Side};
use rx_model::Took;
use rx_packet::{AckBody, Body};
use rx_pool::Pool;
use std::process::Abort;
use std::test::*;

/// An ACK of a reason, with the serial 9.
#[derive(Clone, Copy)]
struct Ack {
    first: u32,
    /// The marks of the first two packets from `first` on; none where none is set.
    marks: [bool; 2],
    window: Option<u32>,
    reason: u8,
}

/// It comes.
fn hear(call: &mut Call, pool: &mut Pool, now: u32, ack: Ack) -> Took
    requires { Holds pool.old (slots_of call.old) }
    ensures { Holds pool.new (slots_of call.new) }
{
    let mut marks = ArrayVec::new();
    if ack.marks[0] || ack.marks[1] {
        marks.push(ack.marks[0]);
        marks.push(ack.marks[1]);
    }
    let body = Body::Ack(AckBody {
        first: ack.first,
        previous: 0,
        serial: 0,
        reason: ack.reason,
        marks,
        window: ack.window,
    });
    match left(call, pool) {
        Some(left) => call.take(pool, left, now as u64, &head(0, 9, 0), &body),
        None => Took::Full,
    }
}

/// An ACKALL comes.
fn hear_all(call: &mut Call, pool: &mut Pool, now: u32) -> Took
    requires { Holds pool.old (slots_of call.old) }
    ensures { Holds pool.new (slots_of call.new) }
{
    match left(call, pool) {
        Some(left) => call.take(pool, left, now as u64, &head(0, 9, 0), &Body::AckAll),
        None => Took::Full,
    }
}

/// An ACK that was asked for.
fn asked(first: u32, marks: [bool; 2], window: Option<u32>) -> Ack {
    Ack {
        first,
        marks,
        window,
        reason: 1,
    }
}

/// A ping.
fn ping(first: u32, marks: [bool; 2], window: Option<u32>) -> Ack {
    Ack {
        first,
        marks,
        window,
        reason: 6,
    }
}

#[test]
fn lenient_and_strange_acks(rt: HostRuntime) -> Result<(), Fail> {
    let mut pool = Pool::make(rt.alloc(), 4)?;
    let mut call = Call::make(rt.alloc(), of_window(32))?;
    call.start(Side::Server, 0);
    assert_eq!(rt; say(&mut call, &mut pool, &[7; 2825]), 2825);
    assert_eq!(rt; poll(&mut call, 0), piece(1, false, false));
    let none = [false, false];
    for (now, ack, took, dies) in [
        (1, asked(1, none, None), Took::Heard, 12_001),
        (2, asked(1, none, Some(32)), Took::Heard, 12_002),
        (3, asked(3, none, Some(1)), Took::Strange, 12_002),
        (4, asked(1, [false, true], Some(1)), Took::Strange, 12_002),
        (5, asked(0, none, Some(1)), Took::Strange, 12_002),
        (6, ping(4_294_967_295, none, None), Took::Strange, 12_002),
        (7, asked(1, [true, false], None), Took::Heard, 12_007),
        (8, asked(1, none, Some(0)), Took::Heard, 12_008),
    ] {
        assert_eq!(rt; hear(&mut call, &mut pool, now, ack), took);
        assert_eq!(rt; call.dies(), dies);
    }
    assert_eq!(rt; hear_all(&mut call, &mut pool, 9), Took::Strange);
    assert!(rt; call.held() == 3 && call.dies() == 12_008);
    assert_eq!(rt; poll(&mut call, 8), None);
    assert_eq!(rt;
        hear(&mut call, &mut pool, 9, asked(2, none, None)),
        Took::Heard
    );
    assert_eq!(rt; poll(&mut call, 9), piece(2, true, false));
    assert_eq!(rt; poll(&mut call, 9), None);
    Ok(())
}

#[test]
fn old_marks_and_stale_pings(rt: HostRuntime) -> Result<(), Fail> {
    let mut pool = Pool::make(rt.alloc(), 4)?;
    let mut call = Call::make(rt.alloc(), of_window(32))?;
    call.start(Side::Server, 0);
    assert_eq!(rt; say(&mut call, &mut pool, &[7; 2825]), 2825);
    shut(&mut call, &mut pool);
    assert_eq!(rt; poll(&mut call, 10), piece(1, false, false));
    assert_eq!(rt; poll(&mut call, 10), piece(2, true, false));
    let none = [false, false];
    let answer = Some(Giving::Ack {
        reason: 7,
        serial: 9,
    });
    for (now, ack, giving, due) in [
        (
            110,
            asked(1, [false, true], None),
            piece(3, true, true),
            Some(360),
        ),
        (150, asked(2, none, None), None, Some(360)),
        (200, ping(1, [true, true], Some(0)), answer, Some(360)),
        (359, asked(1, [true, true], Some(0)), None, Some(360)),
        (360, asked(2, none, None), piece(2, true, false), Some(1060)),
        (400, ping(3, [true, false], None), answer, None),
        (410, ping(4, none, None), answer, None),
        (420, ping(3, none, None), answer, None),
    ] {
        assert_eq!(rt; hear(&mut call, &mut pool, now, ack), Took::Heard);
        assert_eq!(rt; poll(&mut call, now), giving);
        assert_eq!(rt; call.due(), due);
    }
    assert!(rt; call.is_delivered() && call.held() == 0 && pool.free() == 4);
    assert_eq!(rt; hear_all(&mut call, &mut pool, 430), Took::Heard);
    Ok(())
}

#[test]
fn round_trips(rt: HostRuntime) -> Result<(), Fail> {
    let mut pool = Pool::make(rt.alloc(), 33)?;
    let mut call = Call::make(rt.alloc(), of_window(32))?;
    call.start(Side::Server, 0);
    assert_eq!(rt; say(&mut call, &mut pool, &[7; 45_184]), 45_184);
    shut(&mut call, &mut pool);
    for (now, first, count, due) in [
        (0, 1, 2, 1000),
        (100, 3, 4, 450),
        (280, 7, 8, 630),
        (1180, 15, 16, 2351),
        (2351, 15, 1, 4693),
        (2400, 16, 0, 3522),
        (2410, 30, 2, 3261),
    ] {
        let ack = asked(first, [false, false], None);
        assert_eq!(rt; hear(&mut call, &mut pool, now, ack), Took::Heard);
        for _ in 0..count {
            assert!(rt; poll(&mut call, now).is_some());
        }
        assert_eq!(rt; poll(&mut call, now), None);
        assert_eq!(rt; call.due(), Some(due));
    }
    Ok(())
}
