ghost use Rattle.std.specs.Prelude.{◌<◌, length};

use super::*;
use crate::seat::Seat;
use std::process::Abort;
use std::test::*;

const PEER: Host = Host {
    addr: 0x0a00_0002,
    port: 7001,
};

/// Enters the connection of a cid, which isn't there, and answers its place.
fn enter(rt: &impl Abort, table: &mut Table, cid: u32, now: u64) -> u32
    ensures { result < length table.new.conns }
{
    assert!(rt; table.find(PEER, 1, cid) == None);
    match table.enter(PEER, 1, cid, 77, now) {
        Ok(place) => place,
        Err(Full) => panic!(rt; "full"),
    }
}

/// The place of the connection of a cid, which is there.
fn place(rt: &impl Abort, table: &Table, cid: u32) -> u32
    ensures { result < length table.now.conns }
{
    table.find(PEER, 1, cid).expect(rt, "not there")
}

/// Enters the connection of a cid, which isn't there, in the place that is idle the longest.
fn replace(rt: &impl Abort, table: &mut Table, cid: u32, now: u64) -> u32 {
    assert!(rt; table.find(PEER, 1, cid) == None);
    let place = table.idle_now(now).expect(rt, "none is idle");
    table.replace(place, PEER, 1, cid, 78, now);
    place
}

/// This is the latest serial of a connection.
fn set_serial(table: &mut Table, place: u32, serial: u32)
    requires { place < length table.old.conns }
{
    table.conns[place as usize].serial = serial;
}

#[test]
fn a_fourth_connection_finds_a_table_of_three_full(rt: HostRuntime) -> Result<(), Fail> {
    let mut table = Table::make(rt.alloc(), 3)?;
    assert_eq!(&rt; enter(&rt, &mut table, 4, 0), 0);
    assert_eq!(&rt; enter(&rt, &mut table, 8, 0), 1);
    assert_eq!(&rt; enter(&rt, &mut table, 12, 0), 2);
    assert_eq!(&rt; place(&rt, &table, 4), 0);
    assert_eq!(&rt; place(&rt, &table, 12), 2);
    assert_eq!(&rt; table.index.place(&Key::of(PEER, 1, 12)), Some(2));
    assert_eq!(&rt; table.find(PEER, 2, 4), None);
    assert_eq!(&rt; table.find(PEER, 1, 16), None);
    assert!(&rt; table.enter(PEER, 1, 16, 0, 0) == Err(Full));
    Ok(())
}

#[test]
fn the_connection_that_is_idle_the_longest_is_replaced(rt: HostRuntime) -> Result<(), Fail> {
    let mut table = Table::make(rt.alloc(), 3)?;
    let first = enter(&rt, &mut table, 4, 0);
    table.touch_now(first, 20);
    enter(&rt, &mut table, 8, 10);
    enter(&rt, &mut table, 12, 10);
    assert_eq!(&rt; table.idle_now(600_009), None);
    assert_eq!(&rt; table.idle_now(600_010), Some(1));
    assert_eq!(&rt; table.idle_now(600_020), Some(1));
    let old = place(&rt, &table, 8);
    table.prove(old);
    assert_eq!(&rt; replace(&rt, &mut table, 16, 600_020), 1);
    assert_eq!(&rt; table.find(PEER, 1, 8), None);
    let new = place(&rt, &table, 16);
    assert_eq!(&rt; new, 1);
    assert!(&rt; table.named(new) == (PEER, 1, 16));
    assert_eq!(&rt; table.nonce(new), 78);
    assert!(&rt; !table.proved(new));
    assert_eq!(&rt; table.idle_now(600_020), Some(2));
    Ok(())
}

#[test]
fn a_connection_with_a_live_call_is_never_idle(rt: HostRuntime) -> Result<(), Fail> {
    let mut table = Table::make(rt.alloc(), 3)?;
    enter(&rt, &mut table, 4, 0);
    enter(&rt, &mut table, 8, 0);
    assert_eq!(&rt; place(&rt, &table, 8), 1);
    table.seat_mut(3).live = Some(9);
    assert_eq!(&rt; table.idle_now(600_000), Some(1));
    Ok(())
}

#[test]
fn a_seat_changes_alone_and_is_fresh_in_a_new_connection(rt: HostRuntime) -> Result<(), Fail> {
    let mut table = Table::make(rt.alloc(), 3)?;
    enter(&rt, &mut table, 4, 0);
    enter(&rt, &mut table, 8, 0);
    assert_eq!(&rt; place(&rt, &table, 8), 1);
    table.seat_mut(2).number = 5;
    assert_eq!(&rt; place(&rt, &table, 8), 1);
    assert!(&rt; *table.seat(1) == Seat::fresh(0));
    assert!(&rt; *table.seat(2) == Seat::fresh(5));
    assert!(&rt; *table.seat(6) == Seat::fresh(0));
    assert_eq!(&rt; replace(&rt, &mut table, 12, 600_000), 0);
    assert_eq!(&rt; place(&rt, &table, 12), 0);
    assert!(&rt; *table.seat(2) == Seat::fresh(0));
    Ok(())
}

#[test]
fn serials_begin_at_1_and_0_follows_the_greatest(rt: HostRuntime) -> Result<(), Fail> {
    let mut table = Table::make(rt.alloc(), 1)?;
    let first = enter(&rt, &mut table, 4, 0);
    assert_eq!(&rt; table.serial(first), 1);
    let greatest = place(&rt, &table, 4);
    set_serial(&mut table, greatest, 4_294_967_294);
    let again = place(&rt, &table, 4);
    assert_eq!(&rt; table.serial(again), 4_294_967_295);
    let once_more = place(&rt, &table, 4);
    assert_eq!(&rt; table.serial(once_more), 0);
    Ok(())
}

#[test]
fn a_connection_whose_key_the_index_refused_is_found(rt: HostRuntime) -> Result<(), Fail> {
    let mut table = Table {
        conns: Vec::with_capacity(rt.alloc(), 3)?,
        seats: Vec::with_capacity(rt.alloc(), 12)?,
        index: Index::make(rt.alloc(), 2)?,
        complete: true,
        uses: Uses::make(rt.alloc(), 3)?,
        latest: 0,
        room: 3,
    };
    enter(&rt, &mut table, 4, 0);
    enter(&rt, &mut table, 8, 1);
    enter(&rt, &mut table, 12, 2);
    assert_eq!(&rt; table.index.place(&Key::of(PEER, 1, 12)), None);
    assert_eq!(&rt; place(&rt, &table, 8), 1);
    assert_eq!(&rt; place(&rt, &table, 12), 2);
    assert_eq!(&rt; table.find(PEER, 1, 16), None);
    assert_eq!(&rt; replace(&rt, &mut table, 16, 700_000), 0);
    assert_eq!(&rt; table.index.place(&Key::of(PEER, 1, 4)), None);
    assert_eq!(&rt; table.find(PEER, 1, 4), None);
    assert_eq!(&rt; place(&rt, &table, 16), 0);
    assert_eq!(&rt; place(&rt, &table, 12), 2);
    Ok(())
}
