ghost use Rattle.std.specs.Prelude.{◌≡◌, ◌≤◌, ◌<◌, ◌+◌, ◌^◌, ℕ, length, Some, None, IsSome, IfSome, IsSomeAnd};
ghost use Rattle.std.specs.Option.{ForSome};
ghost use Rattle.rx_packet.specs.Seen.{message_of, body_of};
ghost use Rattle.rx_rules.specs.CallLooks.{CallLooks, call_row, after_taken};
ghost use Rattle.rx_pool.specs.Pool.{Slots};
ghost use Rattle.rx_pool.specs.Held.{Holds};
ghost use Rattle.rx_call.specs.Standing.{EndOfCall, StandsCall, HasSpare, FitsSlot, view_of};
ghost use Rattle.rx_call.specs.Kept.{call_under, slots_of_all, HasTheirPace, ChangesOne};

use super::{head, of_window};
use rx_call::{Calls, Side};
use rx_due::Steps;
use rx_model::Took;
use rx_packet::{Body, Head};
use rx_pool::Pool;
use std::alloc::{AllocError, Global};
use std::marker::Brand;
use std::process::Abort;
use std::sync::ledger::{Blank, Ledger};
use std::test::*;

// What a node does with its calls: it starts one, takes a message for it, and ends it. The contracts say that every
// other key's call stands for what it stood for.

/// A server's call starts under a new key; none where no more fit.
fn start<L: Ledger>(calls: &mut Calls, steps: &mut Steps<L>) -> Option<usize>
    ensures fresh { IfSome result (λ key. call_under calls.old key ≡ None) }
    ensures there { IfSome result (λ key. IsSome (call_under calls.new key)) }
    ensures still { (q : ℕ) → IsSome (call_under calls.old q) → IsSome (call_under calls.new q) }
    ensures windows { HasTheirPace calls.old → HasTheirPace calls.new }
    ensures holds { (pool : Slots) → Holds pool (slots_of_all calls.old) → Holds pool (slots_of_all calls.new) }
{
    let key = calls.enter()?;
    let call = calls.at_mut(key, steps);
    call.start(Side::Server, 0);
    Some(key)
}

/// A message comes for the call of a key.
fn take<L: Ledger>(
    calls: &mut Calls,
    pool: &mut Pool,
    key: usize,
    common: u32,
    now: u64,
    head: &Head,
    body: &Body<'_>,
    steps: &mut Steps<L>,
) -> Took
    requires there { IsSome (call_under calls.old key) }
    requires size { FitsSlot (body_of body.now) }
    requires now { now < 2 ^ 62 }
    requires holds { Holds pool.old (slots_of_all calls.old) }
    requires spare { ForSome (call_under calls.old key) (λ c. HasSpare pool.old c common) }
    ensures answered { (c : EndOfCall) (k : CallLooks) → call_under calls.old key ≡ Some c →
        StandsCall pool.old c k →
        result ≡ call_row (view_of c common now) (message_of head.now body.now) (body_of body.now) k }
    ensures stands { (c : EndOfCall) (k : CallLooks) → call_under calls.old key ≡ Some c →
        StandsCall pool.old c k → IsSomeAnd (call_under calls.new key) (λ d. StandsCall pool.new d
        (after_taken (view_of c common now) result (message_of head.now body.now) k)) }
    ensures one { ChangesOne pool.old pool.new calls.old calls.new key }
    ensures still { (q : ℕ) → IsSome (call_under calls.old q) → IsSome (call_under calls.new q) }
    ensures windows { HasTheirPace calls.old → HasTheirPace calls.new }
    ensures steps { steps.new ≡ steps.old + 1 }
{
    let call = calls.at_mut(key, steps);
    call.take(pool, common, now, head, body)
}

/// The call of a key ends: its slots are given back, and its key.
fn end<L: Ledger>(calls: &mut Calls, pool: &mut Pool, key: usize, steps: &mut Steps<L>)
    requires there { IsSome (call_under calls.old key) }
    requires windows { HasTheirPace calls.old }
    requires holds { Holds pool.old (slots_of_all calls.old) }
    ensures one { ChangesOne pool.old pool.new calls.old calls.new key }
    ensures absent { call_under calls.new key ≡ None }
    ensures windows { HasTheirPace calls.new }
{
    let call = calls.at_mut(key, steps);
    call.clear(pool);
    calls.leave(key);
}

/// A data packet comes, where all free slots but one are left for any packet; `Full` where none is free.
fn data<L: Ledger>(
    calls: &mut Calls,
    pool: &mut Pool,
    key: usize,
    seq: u32,
    payload: &[u8],
    steps: &mut Steps<L>,
) -> Took
    requires there { IsSome (call_under calls.old key) }
    requires size { length payload.now ≤ 1444 }
    requires holds { Holds pool.old (slots_of_all calls.old) }
    ensures holds { Holds pool.new (slots_of_all calls.new) }
    ensures still { (q : ℕ) → IsSome (call_under calls.old q) → IsSome (call_under calls.new q) }
    ensures windows { HasTheirPace calls.old → HasTheirPace calls.new }
{
    let free = pool.free();
    if free == 0 {
        return Took::Full;
    }
    take(
        calls,
        pool,
        key,
        free - 1,
        5,
        &head(seq, 1, 1),
        &Body::Chunk(payload),
        steps,
    )
}

/// How many slots are free, and how many the call of a key holds.
fn held<L: Ledger>(calls: &Calls, pool: &Pool, key: usize, steps: &mut Steps<L>) -> (u32, u32)
    requires { IsSome (call_under calls.now key) }
{
    (pool.free(), calls.at(key, steps).held())
}

/// Two calls of a pool of 4 slots, of which one ends.
fn two_calls<L: Ledger>(rt: &impl Abort, alloc: Global, blank: Blank) -> Result<(), AllocError>
    requires name { blank.name ≡ L.name }
    requires parts { blank.parts ≡ L.parts }
    requires some { 0 < blank.parts }
{
    let mut steps = Steps::<L>::new(blank);
    let mut pool = Pool::make(alloc, 4)?;
    let mut calls = Calls::make(alloc, 2, of_window(32))?;
    let first = start(&mut calls, &mut steps).expect(rt, "room for a first call");
    let second = start(&mut calls, &mut steps).expect(rt, "room for a second call");
    assert!(rt; first != second);
    assert_eq!(rt; start(&mut calls, &mut steps), None);
    assert_eq!(rt;
        data(&mut calls, &mut pool, first, 1, b"ab", &mut steps),
        Took::Kept
    );
    assert_eq!(rt;
        data(&mut calls, &mut pool, second, 1, b"cd", &mut steps),
        Took::Kept
    );
    assert_eq!(rt;
        data(&mut calls, &mut pool, second, 3, b"ef", &mut steps),
        Took::Kept
    );
    assert_eq!(rt; held(&calls, &pool, first, &mut steps), (1, 1));
    assert_eq!(rt; held(&calls, &pool, second, &mut steps), (1, 2));
    end(&mut calls, &mut pool, first, &mut steps);
    let third = start(&mut calls, &mut steps).expect(rt, "room for a third call");
    assert_eq!(rt; held(&calls, &pool, third, &mut steps), (2, 0));
    Ok(())
}

#[test]
fn a_key_is_given_again_when_its_call_ended(rt: HostRuntime) -> Result<(), Fail> {
    two_calls::<Brand>(&rt, rt.alloc(), Blank::new(1))?;
    Ok(())
}
