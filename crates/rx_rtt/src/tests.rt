use crate::{Cwnd, Rtt};
use std::process::Abort;
use std::test::*;

#[test]
fn round_trips_give_the_time_to_wait(rt: HostRuntime) -> Result<(), Fail> {
    let mut rtt = Rtt::new(false);
    assert_eq!(rt; rtt.rto(), 1000);
    for (ms, rto) in [(100, 350), (180, 350), (900, 1171)] {
        rtt.sample(ms);
        assert_eq!(rt; rtt.rto(), rto);
    }
    Ok(())
}

#[test]
fn a_first_round_trip_counts_three_times(rt: HostRuntime) -> Result<(), Fail> {
    for (ms, rto) in [
        (0, 350),
        (116, 350),
        (117, 351),
        (1333, 3999),
        (1334, 4000),
        (60_001, 4000),
        (u64::MAX, 4000),
    ] {
        let mut rtt = Rtt::new(false);
        rtt.sample(ms);
        assert_eq!(rt; rtt.rto(), rto);
    }
    Ok(())
}

#[test]
fn a_prompt_node_waits_less_for_a_short_round_trip(rt: HostRuntime) -> Result<(), Fail> {
    for (ms, rto) in [
        (0, 50),
        (25, 75),
        (26, 78),
        (117, 351),
        (1334, 4000),
        (u64::MAX, 4000),
    ] {
        let mut rtt = Rtt::new(true);
        assert_eq!(rt; rtt.rto(), 1000);
        rtt.sample(ms);
        assert_eq!(rt; rtt.rto(), rto);
    }
    Ok(())
}

#[test]
fn each_resend_doubles_the_time_to_wait(rt: HostRuntime) -> Result<(), Fail> {
    let mut rtt = Rtt::new(false);
    for rto in [2000, 4000, 4000] {
        rtt.backoff();
        assert_eq!(rt; rtt.rto(), rto);
    }
    Ok(())
}

/// The window is so wide: one piece more fits where one less is in flight.
fn is_wide(cwnd: &Cwnd, window: u32) -> bool {
    cwnd.room(window.saturating_sub(1)) && !cwnd.room(window)
}

#[test]
fn round_trips_widen_the_window_and_a_resend_closes_it(rt: HostRuntime) -> Result<(), Fail> {
    let mut cwnd = Cwnd::new(32, false);
    assert!(rt; is_wide(&cwnd, 2));
    for (n, window) in [(2, 4), (4, 8)] {
        cwnd.acked(n);
        assert!(rt; is_wide(&cwnd, window));
    }
    cwnd.timed_out();
    assert!(rt; is_wide(&cwnd, 1));
    for (n, window) in [(0, 1), (1, 2), (2, 4), (4, 5)] {
        cwnd.acked(n);
        assert!(rt; is_wide(&cwnd, window));
    }
    Ok(())
}

#[test]
fn a_lost_piece_halves_the_window_and_never_below_two(rt: HostRuntime) -> Result<(), Fail> {
    let mut cwnd = Cwnd::new(32, true);
    cwnd.acked(19);
    assert!(rt; is_wide(&cwnd, 21));
    for window in [10, 5, 2, 2] {
        cwnd.lost();
        assert!(rt; is_wide(&cwnd, window));
    }
    for (n, window) in [(2, 3), (3, 4)] {
        cwnd.acked(n);
        assert!(rt; is_wide(&cwnd, window));
    }
    cwnd.timed_out();
    cwnd.lost();
    assert!(rt; is_wide(&cwnd, 2));
    Ok(())
}

#[test]
fn a_prompt_node_alone_recovers(rt: HostRuntime) -> Result<(), Fail> {
    for prompt in [false, true] {
        assert_eq!(rt; Cwnd::new(32, prompt).recovers(), prompt);
    }
    Ok(())
}

#[test]
fn the_window_ends_at_the_nodes_own(rt: HostRuntime) -> Result<(), Fail> {
    for most in [32, 255] {
        let mut cwnd = Cwnd::new(most, false);
        cwnd.acked(most);
        assert!(rt; is_wide(&cwnd, most));
        cwnd.acked(u32::MAX);
        assert!(rt; is_wide(&cwnd, most));
    }
    Ok(())
}

#[test]
fn a_prompt_node_asks_behind_each_half_of_its_window(rt: HostRuntime) -> Result<(), Fail> {
    for (seq, asks) in [
        (1, false),
        (14, false),
        (15, true),
        (16, false),
        (30, true),
        (u32::MAX, true),
    ] {
        assert_eq!(rt; Cwnd::new(32, true).prompts(seq), asks);
        assert!(rt; !Cwnd::new(32, false).prompts(seq));
    }
    for (seq, asks) in [(126, false), (127, true), (254, true), (255, false)] {
        assert_eq!(rt; Cwnd::new(255, true).prompts(seq), asks);
        assert!(rt; !Cwnd::new(255, false).prompts(seq));
    }
    Ok(())
}
