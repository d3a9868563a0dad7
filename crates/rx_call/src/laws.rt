ghost use Rattle.std.specs.Prelude.{◌≡◌, ◌≤◌, ◌+◌, ◌-◌, ℕ, length, Some};
ghost use Rattle.rx_pool.specs.Pool.{Slots};
ghost use Rattle.rx_pool.specs.Held.{Holds, Keeps};
ghost use Rattle.rx_call.specs.Standing.{EndOfCall, HasSpare, slots_of};
ghost use Rattle.rx_call.specs.Kept.{KeptCalls, ChangesOne, call_under, with_call_under, live_count, slots_of_all};
ghost use Rattle.rx_call.specs.Kept.{beside_of_all};

/// What the call of one key does to the pool, all calls do: each slot has one holder still, and every other call stands
/// for what it stood for.
pub fn one_call_changes()
    ensures { (pool after : Slots) (calls : KeptCalls) (key : ℕ) (c d : EndOfCall) → call_under calls key ≡ Some c →
        Holds pool (slots_of_all calls) → Keeps pool after (slots_of c) (slots_of d) →
        ChangesOne pool after calls (with_call_under calls key d) key }
{}

/// Where the pool has a slot for each call and some more, and the calls hold no more than these beside their leads,
/// each call has room for its lead and for what is left of these.
pub fn leads_have_slots()
    ensures { (pool : Slots) (calls : KeptCalls) (key : ℕ) (c : EndOfCall) (more : ℕ) → call_under calls key ≡ Some c →
        length pool.free + length (slots_of_all calls) ≡ calls.room + more → live_count calls ≤ calls.room →
        beside_of_all calls ≤ more → HasSpare pool c (more - beside_of_all calls) }
{}
