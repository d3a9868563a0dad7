ghost use Rattle.std.specs.Prelude.{◌≡◌, ◌++◌};
ghost use Rattle.rx_pool.specs.Held.{Holds};
ghost use Rattle.rx_call.specs.Standing.{slots_of};

use super::{head, of_window, poll, take};
use rx_call::{Call, Giving, Side};
use rx_model::{CallRead, Took};
use rx_packet::Body;
use rx_pool::Pool;
use std::process::Abort;
use std::test::*;

/// The reason of an ACK that is given at a moment; none where none is.
pub fn reason_at(call: &mut Call, moment: u32) -> Option<u8>
    ensures { slots_of call.new ≡ slots_of call.old }
{
    match poll(call, moment) {
        Some(Giving::Ack { reason, .. }) => Some(reason),
        Some(Giving::Piece { .. }) => None,
        None => None,
    }
}

#[test]
fn each_packet_is_acknowledged_by_its_row(rt: HostRuntime) -> Result<(), Fail> {
    let mut pool = Pool::make(rt.alloc(), 6)?;
    let mut call = Call::make(rt.alloc(), of_window(32))?;
    call.start(Side::Server, 0);
    for (seq, flags, took, reason) in [
        (0, 3, Took::Strange, None),
        (4_294_967_295, 3, Took::Strange, None),
        (4_294_967_294, 3, Took::Beyond, Some(4)),
        (33, 3, Took::Beyond, Some(4)),
        (32, 3, Took::Kept, Some(3)),
        (2, 7, Took::Clash, None),
        (1, 3, Took::Kept, Some(1)),
        (1, 3, Took::Repeat, Some(2)),
        (2, 1, Took::Kept, None),
    ] {
        assert_eq!(rt;
            take(&mut call, &mut pool, 5, &head(seq, 9, flags), b"x"),
            took
        );
        assert_eq!(rt; reason_at(&mut call, 5), reason);
    }
    assert_eq!(rt; reason_at(&mut call, 104), None);
    assert_eq!(rt; reason_at(&mut call, 105), Some(8));
    assert_eq!(rt; call.read(&mut pool, 200, &mut [0]), CallRead::Got(1));
    assert_eq!(rt; call.due(), Some(300));
    for (seq, flags, took, reason) in [
        (1, 3, Took::Repeat, Some(2)),
        (34, 3, Took::Beyond, Some(4)),
        (33, 7, Took::Kept, Some(3)),
        (34, 3, Took::Beyond, Some(4)),
    ] {
        assert_eq!(rt;
            take(&mut call, &mut pool, 200, &head(seq, 9, flags), b"x"),
            took
        );
        assert_eq!(rt; reason_at(&mut call, 200), reason);
    }
    assert_eq!(rt; call.ack_view().first, 2);
    Ok(())
}

/// A packet comes to one of two calls over the same pool, where so many slots are left for any call.
fn take_of_two(
    first: &mut Call,
    second: &mut Call,
    pool: &mut Pool,
    to_first: bool,
    common: u32,
    seq: u32,
) -> Took
    requires { Holds pool.old (slots_of first.old ++ slots_of second.old) }
    ensures { Holds pool.new (slots_of first.new ++ slots_of second.new) }
{
    if pool.free() <= common {
        return Took::Full;
    }
    let body = Body::Chunk(b"x");
    if to_first {
        first.take(pool, common, 5, &head(seq, 9, 1), &body)
    } else {
        second.take(pool, common, 5, &head(seq, 9, 1), &body)
    }
}

#[test]
fn slots(rt: HostRuntime) -> Result<(), Fail> {
    let mut pool = Pool::make(rt.alloc(), 3)?;
    let mut first = Call::make(rt.alloc(), of_window(32))?;
    let mut second = Call::make(rt.alloc(), of_window(32))?;
    first.start(Side::Server, 0);
    second.start(Side::Server, 0);
    for (to_first, common, seq, took) in [
        (true, 1, 2, Took::Kept),
        (false, 0, 2, Took::NoSlot),
        (false, 0, 1, Took::Kept),
        (true, 0, 1, Took::Kept),
    ] {
        assert_eq!(rt;
            take_of_two(&mut first, &mut second, &mut pool, to_first, common, seq),
            took
        );
    }
    assert!(rt; pool.free() == 0 && first.held() == 2 && second.held() == 1);
    assert_eq!(rt; reason_at(&mut first, 5), Some(3));
    assert_eq!(rt; reason_at(&mut second, 5), Some(5));
    Ok(())
}
