ghost use Rattle.std.specs.Prelude.{◌≡◌, ◌≤◌, ◌<◌, ◌+◌, ◌↔◌, [], ℕ, Some, None, IsSome, IsNone, IfNone, OnSome};
ghost use Rattle.std.specs.Prelude.{IsSomeAnd};
ghost use Rattle.std.specs.Prelude.{IfOk, IfSome};
ghost use Rattle.std.specs.Option.{ForSome};
ghost use Rattle.std.specs.Borrow.{sem};
ghost use Rattle.rx_call.specs.Kept.{call_under, live_count, slots_of_all, IsIdleOf, OthersStay};
ghost use Rattle.rx_call.specs.Standing.{IsIdle};
ghost use Rattle.rx_call.specs.Lending.{LendsCall};

use crate::call::Call;
use rx_due::Steps;
use rx_model::Pace;
use slab::Slab;
use std::alloc::{AllocError, Global};
use std::marker::Model;
use std::sync::ledger::Ledger;

/// The calls of a node, each under its key. All are made at once and stay; which keys are there is kept beside them.
#[derive(Debug, Drop)]
pub struct Calls {
    entries: Slab<Call>,
    /// The keys that aren't there, in room for all. The one that left last is the next.
    free: Vec<usize>,
    /// That of each call.
    pace: Pace,
}

impl Model for Calls {
    ghost use Rattle.std.specs.Prelude.{vec_capacity};
    ghost use Rattle.slab.specs.Slab.{slab_len};
    ghost use Rattle.rx_call.specs.Kept.{KeptCalls};
    ghost use Rattle.rx_call.specs.Keys.{there_from, HasSoundKeys};

    ghost Value = { KeptCalls };

    ghost view = { λ c. record {
      room = slab_len c.entries;
      pace = c.pace;
      by_key = there_from c.free.items 0 c.entries.slots;
    } };

    ghost invariant = { λ c. HasSoundKeys c.entries.slots c.free.items c.pace (vec_capacity c.free) };
}

impl Calls {
    ghost use Rattle.rx_model.specs.declared.wire.TheConstants.{MIN_WINDOW, MAX_WINDOW};

    /// So many idle calls of this pace, with all the memory that they will need. No key is there.
    pub fn make(alloc: Global, calls: u32, pace: Pace) -> Result<Calls, AllocError>
        requires least { MIN_WINDOW ≤ pace.window }
        requires most { pace.window ≤ MAX_WINDOW }
        ensures empty { IfOk result (λ made. (key : ℕ) → call_under made key ≡ None) }
        ensures room { IfOk result (λ made. made.room ≡ calls) }
        ensures pace { IfOk result (λ made. made.pace ≡ pace) }
        ensures live { IfOk result (λ made. live_count made ≡ 0) }
        ensures slots { IfOk result (λ made. slots_of_all made ≡ []) }
    {
        let mut entries = Slab::with_capacity(alloc, calls as usize)?;
        let mut free = Vec::with_capacity(alloc, calls as usize)?;
        for _ in 0..calls {
            let call = Call::make(alloc, pace)?;
            free.push_reserved(entries.insert_reserved(call));
        }
        Ok(Calls {
            entries,
            free,
            pace,
        })
    }

    /// A key that wasn't there, and now is there with an idle call; none exactly where as many are there as were made.
    pub fn enter(&mut self) -> Option<usize>
        ensures full { IsNone result ↔ (live_count self.old ≡ self.old.room) }
        ensures room { IsSome result → live_count self.old < self.old.room }
        ensures absent { IfSome result (λ key. call_under self.old key ≡ None) }
        ensures idle { IfSome result (λ key. IsSomeAnd (call_under self.new key) (IsIdleOf self.old.pace)) }
        ensures others { IfSome result (OthersStay self.old self.new) }
        ensures live { OnSome result (live_count self.new ≡ live_count self.old + 1) }
        ensures slots { slots_of_all self.new ≡ slots_of_all self.old }
        ensures none { IfNone result (self.new ≡ self.old) }
    {
        self.free.pop()
    }

    /// A key is there no longer; its call stays idle, for another key to be entered.
    pub fn leave(&mut self, key: usize)
        requires idle { IsSomeAnd (call_under self.old key) IsIdle }
        requires pace { ForSome (call_under self.old key) (λ c. c.pace ≡ self.old.pace) }
        ensures absent { call_under self.new key ≡ None }
        ensures others { OthersStay self.old self.new key }
        ensures live { live_count self.new + 1 ≡ live_count self.old }
        ensures slots { slots_of_all self.new ≡ slots_of_all self.old }
    {
        self.free.push_reserved(key);
    }

    /// The call of a key, which is one step.
    pub fn at<L: Ledger>(&self, key: usize, steps: &mut Steps<L>) -> &Call
        requires { IsSome (call_under self.now key) }
        ensures call { call_under self.now key ≡ Some result.now }
        ensures steps { steps.new ≡ steps.old + 1 }
    {
        steps.tick();
        &self.entries[key]
    }

    /// The call of a key, to change it, which is one step.
    pub fn at_mut<L: Ledger>(&mut self, key: usize, steps: &mut Steps<L>) -> &mut Call
        requires { IsSome (call_under self.old key) }
        ensures* writes_back { sem 𝓛 (LendsCall self.entry key result) }
        ensures call { call_under self.old key ≡ Some result.now }
        ensures steps { steps.new ≡ steps.old + 1 }
    {
        steps.tick();
        &mut self.entries[key]
    }
}
