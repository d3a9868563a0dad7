ghost use Rattle.rx_pool.specs.Held.{Holds};
ghost use Rattle.rx_call.specs.Standing.{slots_of};

use super::{head, of_prompt, poll, shut, take};
use crate::tests::packets::reason_at;
use crate::tests::pieces::{left, piece, say};
use arrayvec::ArrayVec;
use rx_call::{Call, Side};
use rx_model::{CallRead, Took};
use rx_packet::{AckBody, Body};
use rx_pool::Pool;
use std::process::Abort;
use std::test::*;

/// An ACK comes that was asked for, with marks for the four packets from `first` on.
fn hear(call: &mut Call, pool: &mut Pool, now: u32, first: u32, marks: [bool; 4]) -> Took
    requires { Holds pool.old (slots_of call.old) }
    ensures { Holds pool.new (slots_of call.new) }
{
    let mut all = ArrayVec::new();
    all.push(marks[0]);
    all.push(marks[1]);
    all.push(marks[2]);
    all.push(marks[3]);
    let body = Body::Ack(AckBody {
        first,
        previous: 0,
        serial: 0,
        reason: 1,
        marks: all,
        window: None,
    });
    match left(call, pool) {
        Some(left) => call.take(pool, left, now as u64, &head(0, 9, 0), &body),
        None => Took::Full,
    }
}

#[test]
fn a_prompt_end_leaves_what_fills_a_hole_a_millisecond(rt: HostRuntime) -> Result<(), Fail> {
    for (prompt, filled, due) in [(true, Some(8), 8), (false, None, 105)] {
        let mut pool = Pool::make(rt.alloc(), 9)?;
        let mut call = Call::make(rt.alloc(), of_prompt(prompt))?;
        call.start(Side::Server, 0);
        for (seq, first, second) in [
            (2, Some(3), None),
            (4, Some(3), None),
            (1, None, filled),
            (3, None, filled),
            (5, None, None),
        ] {
            assert_eq!(rt;
                take(&mut call, &mut pool, 5, &head(seq, 9, 1), b"x"),
                Took::Kept
            );
            assert_eq!(rt; reason_at(&mut call, 5), first);
            assert_eq!(rt; reason_at(&mut call, 6), second);
        }
        assert_eq!(rt; call.due(), Some(due));
    }
    Ok(())
}

#[test]
fn a_prompt_end_waits_less_where_more_is_to_come(rt: HostRuntime) -> Result<(), Fail> {
    for (prompt, flags, due) in [(true, 1, 8), (true, 5, 105), (false, 1, 105)] {
        let mut pool = Pool::make(rt.alloc(), 9)?;
        let mut call = Call::make(rt.alloc(), of_prompt(prompt))?;
        call.start(Side::Server, 0);
        assert_eq!(rt;
            take(&mut call, &mut pool, 5, &head(1, 9, flags), b"x"),
            Took::Kept
        );
        assert_eq!(rt; call.due(), Some(due));
    }
    Ok(())
}

#[test]
fn a_prompt_end_tells_a_hole_again_while_nothing_comes(rt: HostRuntime) -> Result<(), Fail> {
    for (prompt, first, again) in [(true, 1, Some(3)), (true, 2, None), (false, 1, None)] {
        let mut pool = Pool::make(rt.alloc(), 9)?;
        let mut call = Call::make(rt.alloc(), of_prompt(prompt))?;
        call.start(Side::Server, 0);
        assert_eq!(rt;
            take(&mut call, &mut pool, 5, &head(first, 9, 1), b"x"),
            Took::Kept
        );
        assert_eq!(rt;
            take(&mut call, &mut pool, 5, &head(3, 9, 1), b"x"),
            Took::Kept
        );
        for (now, reason) in [
            (5, Some(3)),
            (14, None),
            (15, again),
            (24, None),
            (25, again),
            (44, None),
            (45, again),
        ] {
            assert_eq!(rt; reason_at(&mut call, now), reason);
        }
    }
    Ok(())
}

#[test]
fn a_prompt_end_tells_what_was_asked_behind_the_read(rt: HostRuntime) -> Result<(), Fail> {
    for (prompt, before, behind, later) in [
        (true, None, Some(1), 13),
        (false, Some(1), None, 105),
    ] {
        let mut pool = Pool::make(rt.alloc(), 9)?;
        let mut call = Call::make(rt.alloc(), of_prompt(prompt))?;
        call.start(Side::Server, 0);
        assert_eq!(rt;
            take(&mut call, &mut pool, 5, &head(1, 9, 3), b"x"),
            Took::Kept
        );
        assert_eq!(rt; reason_at(&mut call, 5), before);
        assert_eq!(rt; call.read(&mut pool, 5, &mut [0]), CallRead::Got(1));
        assert_eq!(rt; reason_at(&mut call, 5), behind);
        assert_eq!(rt;
            take(&mut call, &mut pool, 10, &head(2, 9, 1), b"x"),
            Took::Kept
        );
        assert_eq!(rt; call.read(&mut pool, 10, &mut [0]), CallRead::Got(1));
        assert_eq!(rt; call.due(), Some(later));
    }
    Ok(())
}

#[test]
fn an_overtaken_piece_goes_again_at_once_and_asks(rt: HostRuntime) -> Result<(), Fail> {
    let fresh = [piece(7, false, false), piece(8, true, true), None];
    for (prompt, first, due) in [(true, piece(3, true, false), 80), (false, None, 360)] {
        let mut pool = Pool::make(rt.alloc(), 9)?;
        let mut call = Call::make(rt.alloc(), of_prompt(prompt))?;
        call.start(Side::Server, 0);
        assert_eq!(rt; say(&mut call, &mut pool, &[7; 11_296]), 11_296);
        shut(&mut call, &mut pool);
        let none = [false; 4];
        for (now, acked, marks, count) in [
            (0, 1, none, 2),
            (10, 3, none, 4),
            (20, 3, [false, true, true, true], 0),
        ] {
            assert_eq!(rt; hear(&mut call, &mut pool, now, acked, marks), Took::Heard);
            for _ in 0..count {
                assert!(rt; poll(&mut call, now).is_some());
            }
        }
        if first.is_some() {
            assert_eq!(rt; poll(&mut call, 20), first);
        }
        for giving in fresh {
            assert_eq!(rt; poll(&mut call, 20), giving);
        }
        assert_eq!(rt; call.due(), Some(due));
        let known = [true, true, false, false];
        assert_eq!(rt; hear(&mut call, &mut pool, 30, 7, known), Took::Heard);
        assert!(rt; call.held() == 2 && call.is_delivered() == prompt);
    }
    Ok(())
}

#[test]
fn a_late_piece_goes_again_as_the_window_lets_it(rt: HostRuntime) -> Result<(), Fail> {
    for (prompt, up, late, due) in [
        (true, 1100, piece(2, true, false), 3110),
        (false, 1000, None, 2000),
    ] {
        let mut pool = Pool::make(rt.alloc(), 9)?;
        let mut call = Call::make(rt.alloc(), of_prompt(prompt))?;
        call.start(Side::Server, 0);
        assert_eq!(rt; say(&mut call, &mut pool, &[7; 4236]), 4236);
        for (now, giving) in [
            (0, piece(1, false, false)),
            (0, piece(2, true, false)),
            (up - 1, None),
            (up, piece(1, true, false)),
            (up, None),
        ] {
            assert_eq!(rt; poll(&mut call, now), giving);
        }
        assert_eq!(rt;
            hear(&mut call, &mut pool, up + 10, 2, [false; 4]),
            Took::Heard
        );
        assert_eq!(rt; poll(&mut call, up + 10), late);
        assert_eq!(rt; call.due(), Some(due));
    }
    Ok(())
}
