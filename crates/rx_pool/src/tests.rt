ghost use Rattle.std.specs.Prelude.{◌≡◌, ◌<◌, ◌≤◌, length};
ghost use Rattle.rx_pool.specs.Pool.{IsSlotOf};

use crate::{Pool, Slot};
use std::process::Abort;
use std::test::*;

/// The byte of a slot at a place.
fn byte_at(pool: &Pool, slot: &Slot, at: usize) -> u8
    requires of { IsSlotOf pool.now slot.now }
    requires within { at < 1444 }
{
    pool.bytes(slot)[at]
}

#[test]
fn a_slot_is_handed_out_until_it_is_given_back(rt: HostRuntime) -> Result<(), Fail> {
    let mut pool = Pool::make(rt.alloc(), 1)?;
    assert_eq!(rt; pool.free(), 1);
    if let Some(slot) = pool.get() {
        assert_eq!(rt; pool.free(), 0);
        pool.give(slot);
    }
    assert_eq!(rt; pool.free(), 1);
    let held = pool.get();
    assert!(rt; held.is_some());
    assert!(rt; pool.get().is_none());
    Ok(())
}

#[test]
fn a_write_changes_these_bytes_of_its_slot_alone(rt: HostRuntime) -> Result<(), Fail> {
    let mut pool = Pool::make(rt.alloc(), 2)?;
    if let Some(one) = pool.get() {
        pool.put(&one, 1440, b"seen");
        if let Some(other) = pool.get() {
            pool.put(&other, 1440, b"last");
            pool.put(&other, 1444, b"");
            assert_eq!(rt; byte_at(&pool, &other, 1439), 0);
            assert_eq!(rt; byte_at(&pool, &other, 1443), b't');
            assert_eq!(rt; byte_at(&pool, &one, 1443), b'n');
        }
    }
    Ok(())
}
