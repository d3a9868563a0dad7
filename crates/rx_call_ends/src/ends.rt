ghost use Rattle.std.specs.Prelude.{◌≡◌, ◌≤◌, ◌<◌, ◌+◌, ◌-◌, ◌^◌, ◌↔◌, ℕ, length, take, drop, min, Some, None};
ghost use Rattle.std.specs.Prelude.{IfOk, IfSome, IsNone, IfNone, IsSomeAnd, false};
ghost use Rattle.rx_model.specs.declared.answers.CallRead.TheVariants as reads;
ghost use Rattle.rx_packet.specs.Seen.{message_of, body_of};
ghost use Rattle.rx_rules.specs.CallItems.{call_due, next_sending};
ghost use Rattle.rx_rules.specs.CallLooks.{CallLooks, after_read, after_shut, after_taken, after_write, call_row};
ghost use Rattle.rx_rules.specs.CallLooks.{fresh_call, is_delivered, lead};
ghost use Rattle.rx_rules.specs.Received.{read_of, used_of, marks_of};
ghost use Rattle.rx_rules.specs.Sent.{piece_at, room_of};
ghost use Rattle.rx_recvwin.specs.Window.{given_count, tells_end};
ghost use Rattle.rx_call.specs.Kept.{call_under, live_count};
ghost use Rattle.rx_call.specs.Standing.{FitsSlot, after_given, giving_of, is_client};
ghost use Rattle.rx_call_ends.specs.Ends.{EndsState, IsThere, IsIdleAt, IsUnshut, StandsEnd, KeepsEnds, StepsEnd};
ghost use Rattle.rx_call_ends.specs.Ends.{beside_looks};
ghost use Rattle.rx_call_ends.specs.Ends.{GivesAt, HasShutSlot, HoldsAt, IsDueOf, view_at};

use crate::counters::call;
use crate::ends::counted::beside;
use rx_call::{AckView, Calls, Giving, Side};
use rx_due::Steps;
use rx_model::{CallRead, Limits, Pace, Took};
use rx_packet::{Body, Head};
use rx_pool::Pool;
use std::alloc::{AllocError, Global};
use std::marker::{Brand, Model};
use std::sync::ledger::{Blank, Ledger};

mod counted;
#[cfg(test)]
mod tests;

/// The ends of the calls that live at a node, by key, over the packet slots that they share.
///
/// Each call has one slot of its own, for the packet or the piece without which it can't go on (its lead). The others
/// are shared: `common` counts those that are held.
#[derive(Debug, Drop)]
pub struct Ends {
    side: Side,
    calls: Calls,
    pool: Pool,
    shared: u32,
    common: u32,
}

impl Model for Ends {
    ghost use Rattle.rx_call.specs.Standing.{is_client};
    ghost use Rattle.rx_call_ends.specs.Ends.{EndsState, KeepsSlots};

    ghost Value = { EndsState };

    ghost view = { λ e. record {
      client = is_client e.side;
      calls = e.calls;
      pool = e.pool;
      shared = e.shared;
      common = e.common;
    } };

    ghost invariant = { λ e. KeepsSlots (record {
      client = is_client e.side;
      calls = e.calls;
      pool = e.pool;
      shared = e.shared;
      common = e.common;
    }) };
}

impl Ends {
    ghost use Rattle.rx_model.specs.declared.wire.TheConstants.{MIN_WINDOW, MAX_WINDOW, SILENCE_MS};

    /// Room for as many calls, slots and packets of a window as the limits say, at a node that is prompt or isn't; no
    /// key is there.
    pub fn make(
        alloc: Global,
        side: Side,
        limits: &Limits,
        prompt: bool,
    ) -> Result<Ends, AllocError>
        requires least { MIN_WINDOW ≤ limits.now.window }
        requires most { limits.now.window ≤ MAX_WINDOW }
        requires slots { limits.now.calls < limits.now.slots }
        requires few { limits.now.slots ≤ 65536 }
        ensures empty { IfOk result (λ e. (key : ℕ) → call_under e.calls key ≡ None) }
        ensures live { IfOk result (λ e. live_count e.calls ≡ 0) }
        ensures room { IfOk result (λ e. e.calls.room ≡ limits.now.calls) }
        ensures pace { IfOk result (λ e. e.calls.pace ≡ record { window = limits.now.window; prompt = prompt }) }
        ensures client { IfOk result (λ e. e.client ≡ is_client side) }
        ensures shared { IfOk result (λ e. e.shared ≡ limits.now.slots - limits.now.calls) }
        ensures common { IfOk result (λ e. e.common ≡ 0) }
    {
        let pace = Pace {
            window: limits.window,
            prompt,
        };
        let calls = Calls::make(alloc, limits.calls, pace)?;
        let pool = Pool::make(alloc, limits.slots)?;
        Ok(Ends {
            side,
            calls,
            pool,
            shared: limits.slots - limits.calls,
            common: 0,
        })
    }

    /// How many further slots calls may hold beside their own.
    fn left(&self) -> u32
        ensures { result ≡ self.now.shared - self.now.common }
    {
        self.shared - self.common
    }

    /// A call starts at this moment under a key that wasn't there; none exactly where as many are there as may be.
    pub fn start(&mut self, now: u64) -> Option<usize>
        requires { now < 2 ^ 62 }
        ensures full { IsNone result ↔ (live_count self.old.calls ≡ self.old.calls.room) }
        ensures none { IfNone result (self.new ≡ self.old) }
        ensures absent { IfSome result (λ key. call_under self.old.calls key ≡ None) }
        ensures stands { let pace = self.old.calls.pace in
            IfSome result (λ key. StandsEnd self.new key (fresh_call pace now)) }
        ensures keeps { IfSome result (KeepsEnds self.old self.new) }
        ensures live { IfSome result (λ key. live_count self.new.calls ≡ live_count self.old.calls + 1) }
        ensures common { self.new.common ≡ self.old.common }
    {
        self.start_counted::<Brand>(now, Blank::new(1))
    }

    /// Gives the slots of a call back; it is idle, and its key is still there.
    pub fn clear<L: Ledger>(&mut self, key: usize, steps: &mut Steps<L>)
        requires { IsThere self.old key }
        ensures idle { IsIdleAt self.new key }
        ensures common { (k : CallLooks) → StandsEnd self.old key k →
            self.new.common + beside_looks k ≡ self.old.common }
        ensures again { IsIdleAt self.old key → self.new.common ≡ self.old.common }
        ensures keeps { KeepsEnds self.old self.new key }
        ensures live { live_count self.new.calls ≡ live_count self.old.calls }
        ensures steps { steps.new ≡ steps.old + 1 }
    {
        let call = self.calls.at_mut(key, steps);
        self.common -= beside(call);
        call.clear(&mut self.pool);
    }

    /// The key of a call that is idle is there no longer.
    pub fn leave(&mut self, key: usize)
        requires { IsIdleAt self.old key }
        ensures absent { call_under self.new.calls key ≡ None }
        ensures keeps { KeepsEnds self.old self.new key }
        ensures live { live_count self.new.calls + 1 ≡ live_count self.old.calls }
        ensures common { self.new.common ≡ self.old.common }
    {
        self.calls.leave(key);
    }

    /// A message comes for a call: what its end answers.
    pub fn take(&mut self, key: usize, now: u64, head: &Head, body: &Body<'_>) -> Took
        requires there { IsThere self.old key }
        requires size { FitsSlot (body_of body.now) }
        requires now { now < 2 ^ 62 }
        ensures answered { (k : CallLooks) → StandsEnd self.old key k →
            result ≡ call_row (view_at self.old now) (message_of head.now body.now) (body_of body.now) k }
        ensures steps { StepsEnd self.old self.new key
            (after_taken (view_at self.old now) result (message_of head.now body.now)) }
        ensures live { live_count self.new.calls ≡ live_count self.old.calls }
    {
        self.take_counted::<Brand>(key, now, head, body, Blank::new(1))
    }

    /// Accepts as many bytes as fit, and answers how many.
    pub fn write(&mut self, key: usize, bytes: &[u8]) -> usize
        requires { IsUnshut self.old key }
        ensures answered { (k : CallLooks) → StandsEnd self.old key k → result ≡ min (length bytes.now)
            (room_of self.old.calls.pace.window ((self.old.shared - self.old.common) + 1 - lead k) k.sent) }
        ensures steps { StepsEnd self.old self.new key (after_write (take result bytes.now)) }
        ensures within { result ≤ length bytes.now }
        ensures live { live_count self.new.calls ≡ live_count self.old.calls }
    {
        self.write_counted::<Brand>(key, bytes, Blank::new(1))
    }

    /// The own stream of a call ends.
    pub fn shut(&mut self, key: usize)
        requires unshut { IsUnshut self.old key }
        requires slot { HasShutSlot self.old key }
        ensures steps { StepsEnd self.old self.new key after_shut }
        ensures live { live_count self.new.calls ≡ live_count self.old.calls }
    {
        self.shut_counted::<Brand>(key, Blank::new(1));
    }

    /// Gives the next bytes of the other side's stream, as many as fit.
    pub fn read(&mut self, key: usize, now: u64, to: &mut [u8]) -> CallRead
        requires there { IsThere self.old key }
        requires some { 0 < length to.old }
        requires now { now < 2 ^ 62 }
        ensures answered { (k : CallLooks) → StandsEnd self.old key k →
            (result, take (given_count result) to.new) ≡ read_of k.received (length to.old) }
        ensures steps { StepsEnd self.old self.new key
            (after_read now (tells_end result) (take (given_count result) to.new)) }
        ensures rest { drop (given_count result) to.new ≡ drop (given_count result) to.old }
        ensures none { result ≡ reads.NotYet → call_under self.new.calls key ≡ call_under self.old.calls key }
        ensures live { live_count self.new.calls ≡ live_count self.old.calls }
    {
        self.read_counted::<Brand>(key, now, to, Blank::new(1))
    }

    /// Whether the own stream of a call is shut.
    pub fn is_shut(&self, key: usize) -> bool
        requires { IsThere self.now key }
        ensures unshut { result ≡ false → IsUnshut self.now key }
        ensures answered { (k : CallLooks) → StandsEnd self.now key k → result ≡ k.sent.shut }
    {
        call(&self.calls, key).is_shut()
    }

    /// Whether the other side's stream was read to its end.
    pub fn all_read(&self, key: usize) -> bool
        requires { IsThere self.now key }
        ensures { (k : CallLooks) → StandsEnd self.now key k → result ≡ k.received.ended }
    {
        call(&self.calls, key).all_read()
    }

    /// Whether the other end has all that a call said: its stream is shut, and each piece of it hard acknowledged, or
    /// at a prompt node soft acknowledged.
    pub fn is_delivered(&self, key: usize) -> bool
        requires { IsThere self.now key }
        ensures { (k : CallLooks) → StandsEnd self.now key k → result ≡ is_delivered k }
    {
        call(&self.calls, key).is_delivered()
    }

    /// The moment at which a call's silence is too long.
    pub fn dies<L: Ledger>(&self, key: usize, steps: &mut Steps<L>) -> u64
        requires { IsThere self.now key }
        ensures value { (k : CallLooks) → StandsEnd self.now key k → result ≡ k.heard + SILENCE_MS }
        ensures heard { IsSomeAnd (call_under self.now.calls key) (λ c. result ≡ c.heard + SILENCE_MS) }
        ensures steps { steps.new ≡ steps.old + 1 }
    {
        self.calls.at(key, steps).dies()
    }

    /// From which moment on a call has something to give.
    pub fn due<L: Ledger>(&self, key: usize, steps: &mut Steps<L>) -> Option<u64>
        requires { IsThere self.now key }
        ensures answered { (k : CallLooks) → StandsEnd self.now key k → result ≡ call_due self.now.client k }
        ensures rank { IsSomeAnd (call_under self.now.calls key) (λ c. IsDueOf c result) }
        ensures steps { steps.new ≡ steps.old + 1 }
    {
        self.calls.at(key, steps).due()
    }

    /// What a call gives at this moment.
    pub fn poll<L: Ledger>(&mut self, key: usize, now: u64, steps: &mut Steps<L>) -> Option<Giving>
        requires there { IsThere self.old key }
        requires now { now < 2 ^ 62 }
        ensures answered { (k : CallLooks) → StandsEnd self.old key k →
            result ≡ giving_of k (next_sending (view_at self.old now) k) }
        ensures given { StepsEnd self.old self.new key
            (λ k. after_given now (next_sending (view_at self.old now) k) k) }
        ensures held { GivesAt self.new key result }
        ensures live { live_count self.new.calls ≡ live_count self.old.calls }
        ensures steps { steps.new ≡ steps.old + 1 }
    {
        self.calls.at_mut(key, steps).poll(now)
    }

    /// The payload of a piece that a call holds.
    pub fn payload<L: Ledger>(&self, key: usize, seq: u32, steps: &mut Steps<L>) -> &[u8]
        requires { HoldsAt self.now key seq }
        ensures payload { (k : CallLooks) → StandsEnd self.now key k → result.now ≡ (piece_at k.sent seq).payload }
        ensures steps { steps.new ≡ steps.old + 1 }
    {
        self.calls.at(key, steps).piece(&self.pool, seq).0
    }

    /// What an acknowledgement of a call says now.
    pub fn ack_view<L: Ledger>(&self, key: usize, steps: &mut Steps<L>) -> AckView
        requires { IsThere self.now key }
        ensures first { (k : CallLooks) → StandsEnd self.now key k → result.first ≡ used_of k.received + 1 }
        ensures previous { (k : CallLooks) → StandsEnd self.now key k → result.previous ≡ k.received.previous }
        ensures marks { (k : CallLooks) → StandsEnd self.now key k → result.marks.items ≡ marks_of k.received }
        ensures steps { steps.new ≡ steps.old + 1 }
    {
        self.calls.at(key, steps).ack_view()
    }
}
