ghost use Rattle.std.specs.Prelude.{IfSome};
ghost use Rattle.rx_pool.specs.Held.{Holds};
ghost use Rattle.rx_call.specs.Standing.{HasSpare, slots_of};

use super::{of_window, poll, shut};
use rx_call::{Call, Giving, Side};
use rx_pool::Pool;
use std::process::Abort;
use std::test::*;

/// How many slots a node of this call alone has left for any call; none where its next piece has none.
pub fn left(call: &Call, pool: &Pool) -> Option<u32>
    ensures { IfSome result (λ left. HasSpare pool.now call.now left) }
{
    if call.lead() {
        return Some(pool.free());
    }
    pool.free().checked_sub(1)
}

/// Says as much as fits; nothing where the stream is shut.
pub fn say(call: &mut Call, pool: &mut Pool, bytes: &[u8]) -> usize
    requires { Holds pool.old (slots_of call.old) }
    ensures { Holds pool.new (slots_of call.new) }
{
    if call.is_shut() {
        return 0;
    }
    match left(call, pool) {
        Some(left) => call.write(pool, left, bytes),
        None => 0,
    }
}

pub fn piece(seq: u32, asks: bool, last: bool) -> Option<Giving> {
    Some(Giving::Piece { seq, asks, last })
}

#[test]
fn piece_sizes(rt: HostRuntime) -> Result<(), Fail> {
    let said = [0x5a; 1413];
    let one = [piece(1, true, true), None];
    for (size, before, after) in [
        (0, [None, None], one),
        (1, [None, None], one),
        (1412, [None, None], one),
        (
            1413,
            [piece(1, false, false), None],
            [piece(2, true, true), None],
        ),
    ] {
        let mut pool = Pool::make(rt.alloc(), 3)?;
        let mut call = Call::make(rt.alloc(), of_window(32))?;
        call.start(Side::Server, 0);
        let (bytes, _rest) = said.split_at(size);
        assert_eq!(rt; say(&mut call, &mut pool, bytes), size);
        for giving in before {
            assert_eq!(rt; poll(&mut call, 0), giving);
        }
        shut(&mut call, &mut pool);
        for giving in after {
            assert_eq!(rt; poll(&mut call, 0), giving);
        }
    }
    Ok(())
}

#[test]
fn full_window(rt: HostRuntime) -> Result<(), Fail> {
    let said = [0x5a; 46_596];
    for (window, slots, first, more) in [
        (32, 34, 45_184, 0),
        (33, 34, 46_596, 0),
        (255, 34, 46_596, 1),
        (32, 3, 4236, 0),
        (32, 1, 1412, 0),
    ] {
        let mut pool = Pool::make(rt.alloc(), slots)?;
        let mut call = Call::make(rt.alloc(), of_window(window))?;
        call.start(Side::Server, 0);
        assert_eq!(rt; say(&mut call, &mut pool, &said), first);
        assert_eq!(rt; say(&mut call, &mut pool, &[0]), more);
    }
    Ok(())
}
