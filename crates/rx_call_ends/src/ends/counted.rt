//! What changes a call, each with a counter of its own for its look at the call: its contract is that of the method
//! that calls it.

ghost use Rattle.std.specs.Prelude.{◌≡◌, ◌≤◌, ◌<◌, ◌+◌, ◌-◌, ◌^◌, ◌↔◌, length, take, drop, min, Some, None};
ghost use Rattle.std.specs.Prelude.{IfSome, IsNone, IfNone};
ghost use Rattle.rx_model.specs.declared.answers.CallRead.TheVariants as reads;
ghost use Rattle.rx_packet.specs.Seen.{message_of, body_of};
ghost use Rattle.rx_rules.specs.CallLooks.{CallLooks, after_read, after_shut, after_taken, after_write, call_row};
ghost use Rattle.rx_rules.specs.CallLooks.{fresh_call, has_lead, lead};
ghost use Rattle.rx_rules.specs.Received.{read_of};
ghost use Rattle.rx_rules.specs.Sent.{room_of};
ghost use Rattle.rx_recvwin.specs.Window.{given_count, tells_end};
ghost use Rattle.rx_pool.specs.Pool.{Slots};
ghost use Rattle.rx_call.specs.Kept.{beside_of, call_under, live_count};
ghost use Rattle.rx_call.specs.Standing.{FitsSlot, StandsCall, holds_lead};
ghost use Rattle.rx_call_ends.specs.Ends.{IsThere, IsUnshut, StandsEnd, KeepsEnds, StepsEnd, beside_looks};
ghost use Rattle.rx_call_ends.specs.Ends.{HasShutSlot, view_at};

use crate::ends::Ends;
use rx_call::Call;
use rx_due::Steps;
use rx_model::{CallRead, Took};
use rx_packet::{Body, Head};
use std::sync::ledger::{Blank, Ledger};

impl Ends {
    /// A call starts.
    pub(crate) fn start_counted<L: Ledger>(&mut self, now: u64, blank: Blank) -> Option<usize>
        requires now { now < 2 ^ 62 }
        requires name { blank.name ≡ L.name }
        requires parts { blank.parts ≡ L.parts }
        requires counts { 0 < blank.parts }
        ensures full { IsNone result ↔ (live_count self.old.calls ≡ self.old.calls.room) }
        ensures none { IfNone result (self.new ≡ self.old) }
        ensures absent { IfSome result (λ key. call_under self.old.calls key ≡ None) }
        ensures stands { let pace = self.old.calls.pace in
            IfSome result (λ key. StandsEnd self.new key (fresh_call pace now)) }
        ensures keeps { IfSome result (KeepsEnds self.old self.new) }
        ensures live { IfSome result (λ key. live_count self.new.calls ≡ live_count self.old.calls + 1) }
        ensures common { self.new.common ≡ self.old.common }
    {
        let key = self.calls.enter()?;
        let mut steps = Steps::<L>::new(blank);
        let call = self.calls.at_mut(key, &mut steps);
        call.start(self.side, now);
        Some(key)
    }

    /// A message comes for a call.
    pub(crate) fn take_counted<L: Ledger>(
        &mut self,
        key: usize,
        now: u64,
        head: &Head,
        body: &Body<'_>,
        blank: Blank,
    ) -> Took
        requires there { IsThere self.old key }
        requires size { FitsSlot (body_of body.now) }
        requires now { now < 2 ^ 62 }
        requires name { blank.name ≡ L.name }
        requires parts { blank.parts ≡ L.parts }
        requires counts { 0 < blank.parts }
        ensures answered { (k : CallLooks) → StandsEnd self.old key k →
            result ≡ call_row (view_at self.old now) (message_of head.now body.now) (body_of body.now) k }
        ensures steps { StepsEnd self.old self.new key
            (after_taken (view_at self.old now) result (message_of head.now body.now)) }
        ensures live { live_count self.new.calls ≡ live_count self.old.calls }
    {
        let left = self.left();
        let mut steps = Steps::<L>::new(blank);
        let call = self.calls.at_mut(key, &mut steps);
        let before = beside(call);
        let took = call.take(&mut self.pool, left, now, head, body);
        self.common = self.common - before + beside(call);
        took
    }

    /// Bytes are said on a call.
    pub(crate) fn write_counted<L: Ledger>(
        &mut self,
        key: usize,
        bytes: &[u8],
        blank: Blank,
    ) -> usize
        requires unshut { IsUnshut self.old key }
        requires name { blank.name ≡ L.name }
        requires parts { blank.parts ≡ L.parts }
        requires counts { 0 < blank.parts }
        ensures answered { (k : CallLooks) → StandsEnd self.old key k → result ≡ min (length bytes.now)
            (room_of self.old.calls.pace.window ((self.old.shared - self.old.common) + 1 - lead k) k.sent) }
        ensures steps { StepsEnd self.old self.new key (after_write (take result bytes.now)) }
        ensures within { result ≤ length bytes.now }
        ensures live { live_count self.new.calls ≡ live_count self.old.calls }
    {
        let left = self.left();
        let mut steps = Steps::<L>::new(blank);
        let call = self.calls.at_mut(key, &mut steps);
        let before = beside(call);
        let count = call.write(&mut self.pool, left, bytes);
        self.common = self.common - before + beside(call);
        count
    }

    /// The own stream of a call ends.
    pub(crate) fn shut_counted<L: Ledger>(&mut self, key: usize, blank: Blank)
        requires unshut { IsUnshut self.old key }
        requires slot { HasShutSlot self.old key }
        requires name { blank.name ≡ L.name }
        requires parts { blank.parts ≡ L.parts }
        requires counts { 0 < blank.parts }
        ensures steps { StepsEnd self.old self.new key after_shut }
        ensures live { live_count self.new.calls ≡ live_count self.old.calls }
    {
        let mut steps = Steps::<L>::new(blank);
        let call = self.calls.at_mut(key, &mut steps);
        let before = beside(call);
        call.shut(&mut self.pool);
        self.common = self.common - before + beside(call);
    }

    /// Bytes of a call are read.
    pub(crate) fn read_counted<L: Ledger>(
        &mut self,
        key: usize,
        now: u64,
        to: &mut [u8],
        blank: Blank,
    ) -> CallRead
        requires there { IsThere self.old key }
        requires some { 0 < length to.old }
        requires now { now < 2 ^ 62 }
        requires name { blank.name ≡ L.name }
        requires parts { blank.parts ≡ L.parts }
        requires counts { 0 < blank.parts }
        ensures answered { (k : CallLooks) → StandsEnd self.old key k →
            (result, take (given_count result) to.new) ≡ read_of k.received (length to.old) }
        ensures steps { StepsEnd self.old self.new key
            (after_read now (tells_end result) (take (given_count result) to.new)) }
        ensures rest { drop (given_count result) to.new ≡ drop (given_count result) to.old }
        ensures none { result ≡ reads.NotYet → call_under self.new.calls key ≡ call_under self.old.calls key }
        ensures live { live_count self.new.calls ≡ live_count self.old.calls }
    {
        let mut steps = Steps::<L>::new(blank);
        let call = self.calls.at_mut(key, &mut steps);
        let before = beside(call);
        let got = call.read(&mut self.pool, now, to);
        self.common = self.common - before + beside(call);
        got
    }
}

/// How many slots a call holds beside its own.
pub(crate) fn beside(call: &Call) -> u32
    ensures value { result ≡ beside_of call.now }
    ensures answered { (pool : Slots) (k : CallLooks) → StandsCall pool call.now k → result ≡ beside_looks k }
    ensures lead { (pool : Slots) (k : CallLooks) → StandsCall pool call.now k → holds_lead call.now ≡ has_lead k }
{
    let held = call.held();
    if call.lead() {
        return held - 1;
    }
    held
}
