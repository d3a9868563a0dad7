ghost use Rattle.std.specs.Prelude.{◌≡◌, ◌<◌, ◌^◌, false};
ghost use Rattle.rx_pool.specs.Held.{Holds};
ghost use Rattle.rx_sendwin.specs.Window.{piece_slots};

use crate::SendWin;
use crate::tests::say;
use rx_pool::Pool;
use rx_rtt::Cwnd;
use std::test::*;

/// Why a piece is sent: for the first time, as its time is up, or as it was taken for lost; that may close the window
/// by half.
#[derive(Clone, Copy, Debug, PartialEq, Eq)]
enum Why {
    First,
    Up,
    Lost,
    Half,
}

/// Sends the piece that is due, and answers its seq and why.
fn send(win: &mut SendWin, now: u64, cw: &Cwnd) -> Option<(u32, Why)>
    requires { now < 2 ^ 62 }
    ensures { piece_slots win.new ≡ piece_slots win.old }
{
    match win.next(now, 1000, cw) {
        Some(piece) => {
            if piece.up {
                win.time_up();
            }
            win.sent(piece.seq, now);
            Some((piece.seq, reason(piece.again, piece.up, piece.half)))
        }
        None => None,
    }
}

fn reason(again: bool, up: bool, half: bool) -> Why {
    if up {
        Why::Up
    } else if half {
        Why::Half
    } else if again {
        Why::Lost
    } else {
        Why::First
    }
}

/// The next four of these.
fn send_four(win: &mut SendWin, now: u64, cw: &Cwnd) -> [Option<(u32, Why)>; 4]
    requires { now < 2 ^ 62 }
    ensures { piece_slots win.new ≡ piece_slots win.old }
{
    let first = send(win, now, cw);
    let second = send(win, now, cw);
    let third = send(win, now, cw);
    [first, second, third, send(win, now, cw)]
}

/// Sends pieces up to one that isn't sent for the first time, at most 32, and answers how many are.
fn send_new(win: &mut SendWin, now: u64, cw: &Cwnd) -> u32
    requires { now < 2 ^ 62 }
    ensures { piece_slots win.new ≡ piece_slots win.old }
{
    for count in 0..32 {
        match send(win, now, cw) {
            Some((_, Why::First)) => {}
            _ => return count,
        }
    }
    32
}

/// Takes an ACK in that tells no window, and answers how many pieces it newly acknowledges.
fn ack(win: &mut SendWin, pool: &mut Pool, now: u64, first: u32, marks: &[bool]) -> u32
    requires { Holds pool.old (piece_slots win.old) }
    ensures { Holds pool.new (piece_slots win.new) }
{
    if !win.valid(first, marks) {
        return 0;
    }
    win.on_ack(pool, now, first, marks, None).count
}

/// The window of a prompt node that lets so many pieces be in flight.
fn prompt(window: u32) -> Cwnd {
    let mut cw = Cwnd::new(32, true);
    cw.acked(window.saturating_sub(2));
    cw
}

/// Says a stream, and sends what the window of congestion lets go of it at moment 0: how many pieces.
fn filled(win: &mut SendWin, pool: &mut Pool, bytes: &[u8], cw: &Cwnd) -> u32
    requires unshut { win.old.shut ≡ false }
    requires holds { Holds pool.old (piece_slots win.old) }
    ensures { Holds pool.new (piece_slots win.new) }
{
    say(win, pool, bytes);
    send_new(win, 0, cw)
}

#[test]
fn three_losses_in_one_window_are_sent_again_at_once(rt: HostRuntime) -> Result<(), Fail> {
    let cw = prompt(32);
    let mut pool = Pool::make(rt.alloc(), 11)?;
    let mut win = SendWin::make(rt.alloc(), 32)?;
    assert_eq!(rt; filled(&mut win, &mut pool, &[7; 14_120], &cw), 10);
    let marks = [false, true, false, true, false, true, true, true, true];
    assert_eq!(rt; ack(&mut win, &mut pool, 100, 2, &marks), 7);
    assert_eq!(rt; win.due(1000, &cw), Some(0));
    assert_eq!(rt; win.due(1000, &Cwnd::new(32, false)), Some(1000));
    assert_eq!(rt;
        send_four(&mut win, 100, &cw),
        [
            Some((2, Why::Half)),
            Some((4, Why::Lost)),
            Some((6, Why::Lost)),
            None
        ]
    );
    assert_eq!(rt; win.due(1000, &cw), Some(1100));
    assert_eq!(rt; send(&mut win, 1099, &cw), None);
    assert_eq!(rt; send(&mut win, 1100, &cw), Some((2, Why::Up)));
    Ok(())
}

#[test]
fn a_lost_recovery_is_sent_again_behind_three_that_came(rt: HostRuntime) -> Result<(), Fail> {
    let cw = prompt(5);
    let mut pool = Pool::make(rt.alloc(), 9)?;
    let mut win = SendWin::make(rt.alloc(), 32)?;
    assert_eq!(rt; filled(&mut win, &mut pool, &[7; 11_296], &cw), 5);
    let marks = [false, true, true, true, true, true, true];
    assert_eq!(rt; ack(&mut win, &mut pool, 100, 2, &marks[..4]), 4);
    assert_eq!(rt;
        send_four(&mut win, 100, &cw),
        [
            Some((2, Why::Half)),
            Some((6, Why::First)),
            Some((7, Why::First)),
            Some((8, Why::First))
        ]
    );
    assert_eq!(rt; ack(&mut win, &mut pool, 200, 2, &marks[..5]), 1);
    assert_eq!(rt; send(&mut win, 200, &cw), None);
    assert_eq!(rt; ack(&mut win, &mut pool, 200, 2, &marks[..6]), 1);
    assert_eq!(rt; send(&mut win, 200, &cw), None);
    assert_eq!(rt; ack(&mut win, &mut pool, 200, 2, &marks), 1);
    assert_eq!(rt; send(&mut win, 200, &cw), Some((2, Why::Lost)));
    assert_eq!(rt; send(&mut win, 200, &cw), None);
    assert!(rt; !win.all_known());
    assert_eq!(rt; ack(&mut win, &mut pool, 300, 2, &[true; 7]), 1);
    assert!(rt; win.all_known() && !win.all_acked());
    Ok(())
}

#[test]
fn pieces_that_two_others_passed_are_waited_for(rt: HostRuntime) -> Result<(), Fail> {
    let cw = prompt(32);
    let mut pool = Pool::make(rt.alloc(), 5)?;
    let mut win = SendWin::make(rt.alloc(), 32)?;
    assert_eq!(rt; filled(&mut win, &mut pool, &[7; 5648], &cw), 4);
    assert_eq!(rt; ack(&mut win, &mut pool, 100, 1, &[false, true]), 1);
    assert_eq!(rt; send(&mut win, 100, &cw), None);
    assert_eq!(rt; ack(&mut win, &mut pool, 101, 1, &[false, true, true]), 1);
    assert_eq!(rt; send(&mut win, 101, &cw), None);
    assert_eq!(rt; ack(&mut win, &mut pool, 102, 4, &[]), 1);
    assert_eq!(rt; send(&mut win, 102, &cw), None);
    assert_eq!(rt; win.due(1000, &cw), Some(1100));
    Ok(())
}

#[test]
fn the_last_piece_goes_again_as_its_time_is_up(rt: HostRuntime) -> Result<(), Fail> {
    let cw = prompt(32);
    let mut pool = Pool::make(rt.alloc(), 6)?;
    let mut win = SendWin::make(rt.alloc(), 32)?;
    assert_eq!(rt; filled(&mut win, &mut pool, &[7; 7060], &cw), 5);
    assert_eq!(rt; ack(&mut win, &mut pool, 100, 5, &[]), 4);
    assert_eq!(rt; win.due(1000, &cw), Some(1100));
    assert_eq!(rt; win.due(1000, &Cwnd::new(32, false)), Some(1000));
    assert_eq!(rt; send(&mut win, 1099, &cw), None);
    assert_eq!(rt; send(&mut win, 1100, &cw), Some((5, Why::Up)));
    assert_eq!(rt; send(&mut win, 1100, &cw), None);
    assert_eq!(rt; win.due(1000, &cw), Some(2100));
    Ok(())
}

#[test]
fn behind_a_time_out_all_go_again_as_the_window_opens(rt: HostRuntime) -> Result<(), Fail> {
    let mut cw = prompt(32);
    let mut pool = Pool::make(rt.alloc(), 7)?;
    let mut win = SendWin::make(rt.alloc(), 32)?;
    assert_eq!(rt; filled(&mut win, &mut pool, &[7; 8472], &cw), 6);
    assert_eq!(rt; send(&mut win, 1100, &cw), Some((1, Why::Up)));
    cw.timed_out();
    assert_eq!(rt; send(&mut win, 1100, &cw), None);
    assert_eq!(rt; win.due(1000, &cw), Some(2100));
    assert_eq!(rt; ack(&mut win, &mut pool, 1200, 2, &[]), 1);
    cw.acked(1);
    assert_eq!(rt;
        send_four(&mut win, 1200, &cw),
        [Some((2, Why::Lost)), Some((3, Why::Lost)), None, None]
    );
    assert_eq!(rt; ack(&mut win, &mut pool, 1300, 4, &[]), 2);
    cw.acked(2);
    assert_eq!(rt;
        send_four(&mut win, 1300, &cw),
        [
            Some((4, Why::Lost)),
            Some((5, Why::Lost)),
            Some((6, Why::Lost)),
            None
        ]
    );
    Ok(())
}
