//! A wire in memory, for tests.
ghost use Rattle.std.specs.Prelude.{◌≡◌, ◌⊎◌, ◌<◌, ◌≤◌, ◌^◌, ◌↔◌, ◌∷◌, ◌++◌, [], List, Option, Some, None};
ghost use Rattle.std.specs.Prelude.{map, length, max, All, IfOk, IfSome, IfNone, OnOk, OnErr, IsErr, IsTrue};
ghost use Rattle.std.specs.Option.{option_map};
ghost use Rattle.rx_base.specs.Count.{one_more};
ghost use Rattle.rx_base.specs.Sink.{HasRisen};
ghost use Rattle.rx_wire.specs.Wire.{Logged, TookUntil, GaveTo, HasBound, HasLogged, came_in, logged};
ghost use Rattle.rx_wire.specs.MemWire.{MemWireState, IsPlanned, Takes, after_bind, after_fault, after_give};
ghost use Rattle.rx_wire.specs.MemWire.{after_take};
ghost use Rattle.rx_wire.specs.MemWire.{behind, came_by, came_bytes, coming_of, cut_to, first_by, left_by, moment_by};

use crate::wire::{LastBind, Wire};
use crate::wire_log::{Kept, LogEntries, WireLog};
use rx_base::Failed;
use rx_model::Host;
use std::alloc::{AllocError, Global};
use std::collections::VecDeque;
use std::marker::Model;

/// A datagram that comes in: at which moment at the earliest, in milliseconds, and from which host.
#[derive(Debug, Drop)]
pub struct Arrival {
    pub at: u64,
    pub from: Host,
    pub bytes: Vec<u8>,
}

/// A wire in memory, on which given arrivals come in their order. It tells all that it does.
#[derive(Debug, Drop)]
pub struct MemWire {
    arrivals: VecDeque<Arrival>,
    log: WireLog,
    bound: Option<LastBind>,
    moment: u64,
    failing: Vec<u64>,
    calls: u64,
    faults: u64,
}

impl Model for MemWire {
    ghost Value = { MemWireState };

    ghost view = { λ s. record {
      arrivals = map coming_of s.arrivals.items;
      room = s.log.room;
      failing = s.failing.items;
      calls = s.calls;
      faults = s.faults;
      moment = s.moment;
      traffic = record { bound = s.bound; log = s.log.entries };
    } };

    ghost invariant = { λ s. All (λ a. a.at < 2 ^ 62) s.arrivals.items × (s.moment < 2 ^ 62) };
}

impl MemWire {
    /// A wire on which these datagrams come, the first one first: each as soon as a take waits for its moment. Its log
    /// has room for `room` entries, and for so many bytes in them, which is taken here. The binds, takes and gives
    /// whose numbers, from 1 and all together, are in `failing` fail, and so does what passes the room.
    pub fn make(
        alloc: Global,
        arrivals: Vec<Arrival>,
        room: usize,
        failing: Vec<u64>,
    ) -> Result<MemWire, AllocError>
        requires { All (λ a. a.at < 2 ^ 62) arrivals.items }
        ensures empty { IfOk result (λ s. s ≡ record {
          arrivals = map coming_of arrivals.items;
          room = room;
          failing = failing.items;
          calls = 0;
          faults = 0;
          moment = 0;
          traffic = record { bound = None; log = [] };
        }) }
    {
        let log = WireLog::make(alloc, room)?;
        Ok(MemWire {
            arrivals: VecDeque::from(arrivals),
            log,
            bound: None,
            moment: 0,
            failing,
            calls: 0,
            faults: 0,
        })
    }

    /// The last bind that answered, if there was one.
    pub fn bound(&self) -> Option<LastBind>
        ensures { result ≡ self.now.traffic.bound }
    {
        self.bound
    }

    /// The takes and gives that answered, the first one first.
    pub fn log(&self) -> LogEntries<'_>
        ensures { result ≡ self.now.traffic.log }
    {
        self.log.entries()
    }

    // Counts a call, and answers whether it is to fail.
    fn begin(&mut self) -> bool
        ensures after { self.new ≡ record self.old { calls = one_more self.old.calls } }
        ensures planned { IsTrue result ↔ IsPlanned self.old }
    {
        self.calls = self.calls.saturating_add(1);
        self.failing.contains(&self.calls)
    }

    // Counts a fault.
    fn fault(&mut self) -> Failed
        ensures { self.new ≡ record self.old { faults = one_more self.old.faults } }
    {
        self.faults = self.faults.saturating_add(1);
        Failed
    }

    // How many bytes come up to this moment, where so many fit.
    fn count_by(&self, until: u64, fitting: usize) -> usize
        ensures { result ≡ came_bytes (came_by self.now until fitting) }
    {
        match self.arrivals.front() {
            Some(next) if next.at <= until => next.bytes.len().min(fitting),
            _ => 0,
        }
    }

    // Takes out the next arrival, where it comes up to this moment.
    fn next_by(&mut self, until: u64) -> Option<Arrival>
        ensures next { option_map coming_of result ≡ first_by self.old.arrivals until }
        ensures within { IfSome result (λ a. a.at < 2 ^ 62) }
        ensures after { self.new
            ≡ record self.old { arrivals = left_by self.old.arrivals until } }
    {
        if self.arrivals.front()?.at > until {
            return None;
        }
        self.arrivals.pop_front()
    }

    // Waits, up to this moment, for what would have come into a buffer of so many bytes.
    fn wait(&mut self, room: usize, until: u64)
        requires until { until < 2 ^ 62 }
        requires room { Takes self.old 0 }
        ensures { self.new ≡ record self.old {
          moment = max self.old.moment until;
          traffic = logged self.old.traffic (TookUntil room until None (max self.old.moment until));
        } }
    {
        self.moment = self.moment.max(until);
        let moment = self.moment;
        self.log.push(
            Kept::Waited {
                room,
                until,
                moment,
            },
            &[],
        );
    }

    // Puts what comes at the front of the buffer.
    fn receive(&mut self, until: u64, arrival: &Arrival, to: &mut [u8]) -> (Host, usize)
        requires at { arrival.now.at < 2 ^ 62 }
        requires room { Takes self.old (length (cut_to (length to.old) (coming_of arrival.now)).bytes) }
        ensures after { self.new ≡ record self.old {
          moment = max self.old.moment arrival.now.at;
          traffic = logged self.old.traffic (TookUntil (length to.old) until
              (Some (cut_to (length to.old) (coming_of arrival.now)))
              (max self.old.moment arrival.now.at));
        } }
        ensures came { came_in (Some result) to.new
            ≡ Some (cut_to (length to.old) (coming_of arrival.now)) }
        ensures within { result.1 ≤ length to.new }
        ensures rest { behind (Some result) to.new ≡ behind (Some result) to.old }
    {
        let from = arrival.from;
        let count = arrival.bytes.len().min(to.len());
        let bytes = &arrival.bytes[..count];
        to[..count].copy_from_slice(bytes);
        self.moment = self.moment.max(arrival.at);
        let moment = self.moment;
        self.log.push(
            Kept::Came {
                room: to.len(),
                until,
                from,
                count,
                moment,
            },
            bytes,
        );
        (from, count)
    }

    // A take that has room in the log.
    fn take_next(&mut self, until: u64, to: &mut [u8]) -> Option<(Host, usize)>
        requires until { until < 2 ^ 62 }
        requires room { Takes self.old (came_bytes (came_by self.old until (length to.old))) }
        ensures after { self.new ≡ record self.old {
          arrivals = left_by self.old.arrivals until;
          moment = moment_by self.old until;
          traffic = logged self.old.traffic
              (TookUntil (length to.old) until (came_by self.old until (length to.old))
              (moment_by self.old until));
        } }
        ensures came { came_in result to.new ≡ came_by self.old until (length to.old) }
        ensures within { IfSome result (λ one. one.1 ≤ length to.new) }
        ensures reached { IfNone result (until ≤ self.new.moment) }
        ensures rest { behind result to.new ≡ behind result to.old }
    {
        match self.next_by(until) {
            Some(arrival) => Some(self.receive(until, &arrival, to)),
            None => {
                self.wait(to.len(), until);
                None
            }
        }
    }
}

impl Wire for MemWire {
    ghost told = { λ w. Some w.traffic };

    ghost moment = { λ w. w.moment };

    ghost faults = { λ w. w.faults };

    fn bind(&mut self, at: Host) -> Result<Host, Failed>
        ensures ok { IfOk result (λ host. HasBound (Some self.old.traffic) (Some self.new.traffic) at host) }
        ensures same { OnOk result (self.new.faults ≡ self.old.faults) }
        ensures err { OnErr result (Some self.new.traffic ≡ Some self.old.traffic) }
        ensures counted { OnErr result (HasRisen self.old.faults self.new.faults) }
        ensures same_moment { self.new.moment ≡ self.old.moment }

        // What this wire adds to the trait's clauses.
        ensures planned { IsErr result ↔ IsPlanned self.old }
        ensures asked { IfOk result (λ host. host ≡ at) }
        ensures bound { OnOk result (self.new ≡ after_bind self.old at) }
        ensures failed { OnErr result (self.new ≡ after_fault self.old) }
    {
        if self.begin() {
            return Err(self.fault());
        }
        self.bound = Some(LastBind {
            asked: at,
            answered: at,
            log_length: self.log.len(),
        });
        Ok(at)
    }

    fn now(&self) -> u64 {
        self.moment
    }

    fn take(&mut self, until: u64, to: &mut [u8]) -> Result<Option<(Host, usize)>, Failed>
        requires { until < 2 ^ 62 }
        ensures ok { IfOk result (λ came. HasLogged (Some self.old.traffic) (Some self.new.traffic)
            (TookUntil (length to.old) until (came_in came to.new) self.new.moment)) }
        ensures same_room { length to.new ≡ length to.old }
        ensures within { IfOk result (λ came. IfSome came (λ one. one.1 ≤ length to.new)) }
        ensures reached { IfOk result (λ came. IfNone came (until ≤ self.new.moment)) }
        ensures same { OnOk result (self.new.faults ≡ self.old.faults) }
        ensures err { OnErr result (Some self.new.traffic ≡ Some self.old.traffic) }
        ensures counted { OnErr result (HasRisen self.old.faults self.new.faults) }
        ensures no_earlier { self.old.moment ≤ self.new.moment }

        // What this wire adds to the trait's clauses.
        ensures cause { IsErr result ↔ (IsPlanned self.old
            ⊎ ¬ Takes self.old (came_bytes (came_by self.old until (length to.old)))) }
        ensures came { IfOk result (λ came.
            came_in came to.new ≡ came_by self.old until (length to.old)) }
        ensures rest { IfOk result (λ came. behind came to.new ≡ behind came to.old) }
        ensures took { OnOk result (self.new ≡ after_take self.old until (length to.old)) }
        ensures failed { OnErr result (self.new ≡ after_fault self.old) }
        ensures same_buffer { OnErr result (to.new ≡ to.old) }
    {
        let is_planned = self.begin();
        let count = self.count_by(until, to.len());
        if is_planned || !self.log.has_room(count) {
            return Err(self.fault());
        }
        Ok(self.take_next(until, to))
    }

    fn give(&mut self, to: Host, bytes: &[u8]) -> Result<(), Failed>
        ensures ok { OnOk result (HasLogged (Some self.old.traffic) (Some self.new.traffic) (GaveTo to bytes.now)) }
        ensures same { OnOk result (self.new.faults ≡ self.old.faults) }
        ensures err { OnErr result (Some self.new.traffic ≡ Some self.old.traffic) }
        ensures counted { OnErr result (HasRisen self.old.faults self.new.faults) }
        ensures same_moment { self.new.moment ≡ self.old.moment }

        // What this wire adds to the trait's clauses.
        ensures cause { IsErr result ↔ (IsPlanned self.old ⊎ ¬ Takes self.old (length bytes.now)) }
        ensures given { OnOk result (self.new ≡ after_give self.old to bytes.now) }
        ensures failed { OnErr result (self.new ≡ after_fault self.old) }
    {
        let is_planned = self.begin();
        if is_planned || !self.log.has_room(bytes.len()) {
            return Err(self.fault());
        }
        self.log.push(
            Kept::Given {
                to,
                count: bytes.len(),
            },
            bytes,
        );
        Ok(())
    }
}
