ghost use Rattle.std.specs.Prelude.{◌≡◌, ◌≤◌, ◌<◌, if◌then◌else◌, length, drop, replicate, [], ◌∷◌, ◌++◌, Some, None};
ghost use Rattle.std.specs.VecDeque.{deque_len, deque_capacity};
ghost use Rattle.rx_pool.specs.Held.{Holds, Keeps};
ghost use Rattle.rx_recvwin.specs.Places.{count_in, leading, slots_in};

use crate::packet::KeptPacket;
use rx_pool::Pool;
use std::collections::VecDeque;

/// How many places from the first one on are taken, where at least `from` are.
pub fn leading_from(places: &VecDeque<Option<KeptPacket>>, from: usize) -> usize
    requires { from ≤ leading places.now.items }
    ensures { result ≡ leading places.now.items }
{
    let mut n = from;
    while n < places.len() && places[n].is_some() {
        n += 1;
    }
    n
}

/// The first place is freed and goes to the end.
pub fn turn(places: &mut VecDeque<Option<KeptPacket>>, pool: &mut Pool)
    requires some { 0 < deque_len places.old }
    requires holds { Holds pool.old (slots_in places.old.items) }
    ensures turned { places.new.items ≡ drop 1 places.old.items ++ None ∷ [] }
    ensures len { deque_len places.new ≡ deque_len places.old }
    ensures capacity { deque_capacity places.new ≡ deque_capacity places.old }
    ensures bytes { pool.new.bytes ≡ pool.old.bytes }
    ensures keeps { Keeps pool.old pool.new (slots_in places.old.items) (slots_in places.new.items) }
{
    let first = places.pop_front().unwrap();
    places.push_back_reserved(None);
    if let Some(held) = first {
        pool.give(held.slot);
    }
}

/// Every place is freed, of which so many are taken.
pub fn free_all(places: &mut VecDeque<Option<KeptPacket>>, held: u32, pool: &mut Pool)
    requires holds { Holds pool.old (slots_in places.old.items) }
    requires held { held ≡ count_in places.old.items }
    ensures freed { places.new.items ≡ replicate (deque_len places.old) None }
    ensures len { deque_len places.new ≡ deque_len places.old }
    ensures capacity { deque_capacity places.new ≡ deque_capacity places.old }
    ensures bytes { pool.new.bytes ≡ pool.old.bytes }
    ensures keeps { Keeps pool.old pool.new (slots_in places.old.items) (slots_in places.new.items) }
{
    if held == 0 {
        return;
    }
    for _ in 0..places.len() {
        turn(places, pool);
    }
}

/// The seq of the last packet, where another packet comes.
pub fn last_with(before: Option<u32>, seq: u32, last: bool) -> Option<u32>
    ensures { result ≡ (if last then Some seq else before) }
{
    if last {
        return Some(seq);
    }
    before
}
