ghost use Rattle.std.specs.Prelude.{◌≡◌, ◌<◌, IfSome};
ghost use Rattle.rx_call_ends.specs.Ends.{IsIdleAt, IsThere};

use super::*;
use std::test::*;

/// A call starts.
fn start(ends: &mut Ends) -> Option<usize>
    ensures { IfSome result (IsThere ends.new) }
{
    ends.start(0)
}

/// A data packet of two bytes comes for the call of a key: its answer, how many slots calls hold then beside their own,
/// and how many are left.
fn data(ends: &mut Ends, key: usize, seq: u32) -> (Took, u32, u32)
    requires { IsThere ends.old key }
    ensures there { IsThere ends.new key }
{
    let head = Head {
        epoch: 1,
        cid: 4,
        number: 1,
        seq,
        serial: seq,
        flags: 1,
        status: 0,
        index: 0,
        spare: 0,
        service: 1,
    };
    let took = ends.take(key, 5, &head, &Body::Chunk(b"ab"));
    (took, ends.common, ends.left())
}

/// Two bytes are read from the call of a key; what it answers, and the same numbers.
fn read(ends: &mut Ends, key: usize) -> (CallRead, u32, u32)
    requires { IsThere ends.old key }
    ensures there { IsThere ends.new key }
{
    let mut to = [0; 2];
    let got = ends.read(key, 6, &mut to);
    (got, ends.common, ends.left())
}

/// The call of a key is cleared.
fn clear(ends: &mut Ends, key: usize)
    requires { IsThere ends.old key }
    ensures { IsIdleAt ends.new key }
{
    clear_counted::<Brand>(ends, key, Blank::new(1));
}

/// The same, over a new counter of steps.
fn clear_counted<L: Ledger>(ends: &mut Ends, key: usize, blank: Blank)
    requires there { IsThere ends.old key }
    requires name { blank.name ≡ L.name }
    requires parts { blank.parts ≡ L.parts }
    requires counts { 0 < blank.parts }
    ensures { IsIdleAt ends.new key }
{
    let mut steps = Steps::<L>::new(blank);
    ends.clear(key, &mut steps);
}

#[test]
fn what_calls_hold_beside_their_own_slots_is_counted(rt: HostRuntime) -> Result<(), Fail> {
    let limits = Limits {
        conns: 1,
        calls: 2,
        slots: 4,
        window: 32,
    };
    let mut ends = Ends::make(rt.alloc(), Side::Server, &limits, false)?;
    let first = start(&mut ends).expect(&rt, "room for a first call");
    assert_eq!(rt; data(&mut ends, first, 1), (Took::Kept, 0, 2));
    assert_eq!(rt; data(&mut ends, first, 2), (Took::Kept, 1, 1));
    assert_eq!(rt; data(&mut ends, first, 4), (Took::Kept, 2, 0));
    assert_eq!(rt; data(&mut ends, first, 5), (Took::NoSlot, 2, 0));
    assert_eq!(rt; read(&mut ends, first), (CallRead::Got(2), 1, 1));
    let second = start(&mut ends).expect(&rt, "room for a second call");
    assert_eq!(rt; data(&mut ends, second, 1), (Took::Kept, 1, 1));
    assert_eq!(rt; data(&mut ends, second, 2), (Took::Kept, 2, 0));
    clear(&mut ends, second);
    assert_eq!(rt; (ends.common, ends.left()), (1, 1));
    ends.leave(second);
    assert_eq!(rt; (ends.common, ends.left()), (1, 1));
    Ok(())
}
