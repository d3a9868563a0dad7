ghost use Rattle.std.specs.Prelude.{◌≤◌, ◌+◌, length};
ghost use Rattle.rx_pool.specs.Held.{Holds, Keeps};
ghost use Rattle.rx_recvwin.specs.Window.{packet_slots};

use crate::{RecvWin, Spare};
use rx_model::{CallRead, Took};
use rx_pool::Pool;
use std::process::Abort;
use std::test::*;

/// A packet comes to a call that holds no lead, where all free slots but one are left for any packet.
fn keep(win: &mut RecvWin, pool: &mut Pool, seq: u32, bytes: &[u8], last: bool) -> Took
    requires size { length bytes.now ≤ 1444 }
    requires holds { Holds pool.old (packet_slots win.old) }
    ensures { Keeps pool.old pool.new (packet_slots win.old) (packet_slots win.new) }
{
    let free = pool.free();
    let lead = free > 0;
    let common = if lead { free - 1 } else { 0 };
    win.keep(pool, seq, bytes, last, Spare { lead, common })
}

#[test]
fn out_of_order_packets_are_read_in_order(rt: HostRuntime) -> Result<(), Fail> {
    let mut pool = Pool::make(rt.alloc(), 3)?;
    let mut win = RecvWin::make(rt.alloc(), 32)?;
    let mut to = [0; 2000];
    assert_eq!(rt; keep(&mut win, &mut pool, 2, b"k", true), Took::Kept);
    assert!(rt; win.front() == 0 && !win.lead() && win.held() == 1 && win.has_hole());
    let view = win.ack_view();
    assert!(rt; view.first == 1 && view.previous == 2);
    assert_eq!(rt; view.marks.as_slice(), [false, true].as_slice());
    assert_eq!(rt; win.read(&mut pool, &mut to), CallRead::NotYet);
    assert_eq!(rt;
        keep(&mut win, &mut pool, 1, &[0x5a; 1412], false),
        Took::Kept
    );
    assert!(rt; win.front() == 2 && win.lead() && !win.has_hole());
    assert_eq!(rt; win.read(&mut pool, &mut to), CallRead::Got(1413));
    assert!(rt; to[0] == 0x5a && to[1411] == 0x5a && to[1412] == b'k' && to[1413] == 0);
    assert!(rt; win.held() == 1 && pool.free() == 2 && !win.all_read());
    assert_eq!(rt; win.read(&mut pool, &mut to), CallRead::End);
    assert!(rt; win.all_read() && win.held() == 0 && pool.free() == 3);
    Ok(())
}

#[test]
fn each_row_answers_its_packet(rt: HostRuntime) -> Result<(), Fail> {
    let mut pool = Pool::make(rt.alloc(), 9)?;
    let mut win = RecvWin::make(rt.alloc(), 32)?;
    for (seq, last, took) in [
        (0, false, Took::Strange),
        (4_294_967_295, false, Took::Strange),
        (4_294_967_294, false, Took::Beyond),
        (33, false, Took::Beyond),
        (32, false, Took::Kept),
        (31, true, Took::Clash),
        (1, false, Took::Kept),
        (1, false, Took::Repeat),
        (32, true, Took::Repeat),
    ] {
        assert_eq!(rt; keep(&mut win, &mut pool, seq, b"x", last), took);
    }
    assert_eq!(rt; win.read(&mut pool, &mut [0; 4]), CallRead::Got(1));
    for (seq, last, took) in [
        (1, false, Took::Repeat),
        (34, false, Took::Beyond),
        (33, true, Took::Kept),
        (34, false, Took::Beyond),
    ] {
        assert_eq!(rt; keep(&mut win, &mut pool, seq, b"x", last), took);
    }
    assert_eq!(rt; win.ack_view().previous, 34);
    Ok(())
}

#[test]
fn the_widest_window_takes_255_packets(rt: HostRuntime) -> Result<(), Fail> {
    let mut pool = Pool::make(rt.alloc(), 3)?;
    let mut win = RecvWin::make(rt.alloc(), 255)?;
    assert_eq!(rt; keep(&mut win, &mut pool, 256, b"", false), Took::Beyond);
    assert_eq!(rt; keep(&mut win, &mut pool, 255, b"", false), Took::Kept);
    assert_eq!(rt; win.ack_view().marks.len(), 255);
    win.drop_all(&mut pool);
    assert!(rt; pool.free() == 3 && win.held() == 0);
    assert_eq!(rt; win.ack_view().marks.len(), 0);
    Ok(())
}

#[test]
fn slots_are_for_the_next_packet_before_others(rt: HostRuntime) -> Result<(), Fail> {
    let mut pool = Pool::make(rt.alloc(), 2)?;
    let mut win = RecvWin::make(rt.alloc(), 32)?;
    for (seq, took) in [
        (3, Took::Kept),
        (2, Took::NoSlot),
        (1, Took::Kept),
        (2, Took::NoSlot),
    ] {
        assert_eq!(rt; keep(&mut win, &mut pool, seq, b"x", false), took);
    }
    assert!(rt; win.front() == 1 && pool.free() == 0);
    assert_eq!(rt;
        win.ack_view().marks.as_slice(),
        [true, false, true].as_slice()
    );
    Ok(())
}

#[test]
fn an_empty_last_packet_is_used_at_the_end(rt: HostRuntime) -> Result<(), Fail> {
    let mut pool = Pool::make(rt.alloc(), 4)?;
    let mut win = RecvWin::make(rt.alloc(), 32)?;
    for (seq, last, took) in [
        (1, false, Took::Kept),
        (2, true, Took::Kept),
        (3, false, Took::Clash),
    ] {
        assert_eq!(rt; keep(&mut win, &mut pool, seq, b"", last), took);
    }
    assert!(rt; win.held() == 1 && win.lead());
    assert_eq!(rt; win.read(&mut pool, &mut [0; 4]), CallRead::End);
    assert!(rt; win.held() == 0 && pool.free() == 4);
    for (seq, took) in [(2, Took::Repeat), (3, Took::Clash)] {
        assert_eq!(rt; keep(&mut win, &mut pool, seq, b"", false), took);
    }
    assert_eq!(rt; win.ack_view().first, 3);
    Ok(())
}
