ghost use Rattle.std.specs.Prelude.{◌≡◌, ◌≤◌, ◌<◌, ◌^◌, length, false};
ghost use Rattle.rx_pool.specs.Held.{Holds};
ghost use Rattle.rx_sendwin.specs.Window.{piece_slots};

use crate::{Newly, SendWin};
use rx_pool::Pool;
use rx_rtt::Cwnd;
use std::process::Abort;
use std::test::*;

mod losses;

/// Says as much as fits, and shuts where a slot is free.
pub fn say(win: &mut SendWin, pool: &mut Pool, bytes: &[u8]) -> usize
    requires unshut { win.old.shut ≡ false }
    requires holds { Holds pool.old (piece_slots win.old) }
    ensures { Holds pool.new (piece_slots win.new) }
{
    let more = pool.free();
    let count = win.write(pool, bytes, more);
    if pool.free() == 0 {
        return count;
    }
    win.shut(pool);
    count
}

/// Sends the piece that is due, and answers its seq, its length, and whether it is the last and whether it asks for an
/// acknowledgement; 0 where none is due.
fn send(win: &mut SendWin, pool: &Pool, now: u64, cw: &Cwnd) -> (u32, usize, bool, bool)
    requires now { now < 2 ^ 62 }
    requires holds { Holds pool.now (piece_slots win.old) }
    ensures { Holds pool.now (piece_slots win.new) }
{
    match win.next(now, 1000, cw) {
        Some(next) => {
            let (payload, last) = win.piece(pool, next.seq);
            let size = payload.len();
            win.sent(next.seq, now);
            (next.seq, size, last, next.asks)
        }
        None => (0, 0, false, false),
    }
}

/// Takes an ACK in that tells a window of 0, where it makes sense.
fn ack(win: &mut SendWin, pool: &mut Pool, now: u64, first: u32, marks: &[bool]) -> Option<Newly>
    requires { Holds pool.old (piece_slots win.old) }
    ensures { Holds pool.new (piece_slots win.new) }
{
    if !win.valid(first, marks) {
        return None;
    }
    Some(win.on_ack(pool, now, first, marks, Some(0)))
}

fn newly(count: u32, sample: Option<u64>) -> Option<Newly> {
    Some(Newly { count, sample })
}

#[test]
fn piece_sizes_of_one_and_two_pieces(rt: HostRuntime) -> Result<(), Fail> {
    let cw = Cwnd::new(32, false);
    let mut pool = Pool::make(rt.alloc(), 3)?;
    let mut win = SendWin::make(rt.alloc(), 32)?;
    assert_eq!(rt; say(&mut win, &mut pool, &[0x5a; 1412]), 1412);
    assert_eq!(rt; send(&mut win, &pool, 0, &cw), (1, 1412, true, true));
    win.drop_all(&mut pool);
    assert_eq!(rt; say(&mut win, &mut pool, &[0x5a; 1413]), 1413);
    assert_eq!(rt; send(&mut win, &pool, 0, &cw), (1, 1412, false, false));
    assert_eq!(rt; send(&mut win, &pool, 0, &cw), (2, 1, true, true));
    assert!(rt; win.all_sent() && !win.all_acked());
    Ok(())
}

#[test]
fn a_stream_that_is_shut_empty_has_one_empty_piece(rt: HostRuntime) -> Result<(), Fail> {
    let cw = Cwnd::new(32, false);
    let mut pool = Pool::make(rt.alloc(), 1)?;
    let mut win = SendWin::make(rt.alloc(), 32)?;
    assert_eq!(rt; say(&mut win, &mut pool, b""), 0);
    assert_eq!(rt; win.due(1000, &cw), Some(0));
    assert_eq!(rt; send(&mut win, &pool, 0, &cw), (1, 0, true, true));
    assert_eq!(rt;
        ack(&mut win, &mut pool, 60_001, 2, &[]),
        newly(1, Some(60_000))
    );
    assert!(rt; win.all_acked() && pool.free() == 1);
    assert_eq!(rt; win.due(1000, &cw), None);
    Ok(())
}

#[test]
fn full_windows_accept_no_more(rt: HostRuntime) -> Result<(), Fail> {
    let said = [0x5a; 46_596];
    for (window, count) in [(32, 45_184), (33, 46_596), (255, 46_596)] {
        let mut pool = Pool::make(rt.alloc(), 34)?;
        let mut win = SendWin::make(rt.alloc(), window)?;
        assert_eq!(rt; win.write(&mut pool, &said, 34), count);
        assert_eq!(rt; win.write(&mut pool, b"", 0), 0);
    }
    Ok(())
}

#[test]
fn acks_of_what_was_never_sent_are_strange(rt: HostRuntime) -> Result<(), Fail> {
    let mut pool = Pool::make(rt.alloc(), 2)?;
    let mut win = SendWin::make(rt.alloc(), 32)?;
    assert_eq!(rt; say(&mut win, &mut pool, b"one"), 3);
    assert_eq!(rt;
        send(&mut win, &pool, 0, &Cwnd::new(32, false)),
        (1, 3, true, true)
    );
    for (first, marks, valid) in [
        (0, [false, false], false),
        (1, [false, false], true),
        (1, [true, false], true),
        (1, [false, true], false),
        (2, [false, false], true),
        (2, [true, false], false),
        (3, [false, false], false),
        (4_294_967_295, [false, false], false),
    ] {
        assert_eq!(rt; win.valid(first, &marks), valid);
    }
    assert!(rt; win.valid(1, &[]) && win.valid(2, &[false; 300]));
    Ok(())
}

#[test]
fn a_piece_that_is_no_longer_marked_is_sent_again(rt: HostRuntime) -> Result<(), Fail> {
    let cw = Cwnd::new(32, false);
    let mut pool = Pool::make(rt.alloc(), 4)?;
    let mut win = SendWin::make(rt.alloc(), 32)?;
    assert_eq!(rt; say(&mut win, &mut pool, &[7; 2825]), 2825);
    assert_eq!(rt; send(&mut win, &pool, 10, &cw), (1, 1412, false, false));
    assert_eq!(rt; send(&mut win, &pool, 10, &cw), (2, 1412, false, true));
    assert_eq!(rt;
        ack(&mut win, &mut pool, 110, 1, &[false, true]),
        newly(1, Some(100))
    );
    assert!(rt; win.held() == 3 && pool.free() == 1);
    assert_eq!(rt; send(&mut win, &pool, 1009, &cw), (0, 0, false, false));
    assert_eq!(rt; send(&mut win, &pool, 1010, &cw), (1, 1412, false, true));
    assert_eq!(rt; ack(&mut win, &mut pool, 1200, 2, &[false]), newly(1, None));
    assert!(rt; win.held() == 2 && pool.free() == 2);
    assert_eq!(rt; win.due(1000, &cw), Some(1010));
    assert_eq!(rt; send(&mut win, &pool, 1200, &cw), (2, 1412, false, true));
    Ok(())
}

#[test]
fn a_peer_window_of_0_lets_one_piece_go(rt: HostRuntime) -> Result<(), Fail> {
    let cw = Cwnd::new(32, false);
    let mut pool = Pool::make(rt.alloc(), 4)?;
    let mut win = SendWin::make(rt.alloc(), 32)?;
    assert_eq!(rt; say(&mut win, &mut pool, &[7; 2825]), 2825);
    assert_eq!(rt; send(&mut win, &pool, 0, &cw), (1, 1412, false, false));
    assert_eq!(rt; ack(&mut win, &mut pool, 5, 2, &[]), newly(1, Some(5)));
    assert_eq!(rt; send(&mut win, &pool, 5, &cw), (2, 1412, false, true));
    assert_eq!(rt; send(&mut win, &pool, 5, &cw), (0, 0, false, false));
    assert_eq!(rt;
        ack(&mut win, &mut pool, 6, 1, &[false, true]),
        newly(0, None)
    );
    assert!(rt; win.held() == 2 && pool.free() == 2);
    assert_eq!(rt; win.due(1000, &cw), Some(1005));
    Ok(())
}
