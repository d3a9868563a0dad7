//! A sink in memory, for tests.
ghost use Rattle.std.specs.Prelude.{◌≡◌, ◌⊎◌, ◌<◌, ◌≤◌, ◌+◌, ◌-◌, ℕ, List, [], ◌++◌, Some, Contains, IfOk};
ghost use Rattle.std.specs.Prelude.{IsErr, OnErr, OnOk, false, length, min, take, vec_len, vec_capacity};
ghost use Rattle.rx_base.specs.Count.{one_more};
ghost use Rattle.rx_base.specs.MemSink.{MemSinkState};
ghost use Rattle.rx_base.specs.Sink.{Gained, GainedSome, HasRisen};

use crate::sink::{Failed, Sink};
use std::alloc::{AllocError, Global};
use std::marker::Model;

/// A sink in memory, with room for a fixed number of bytes. It tells the bytes put.
#[derive(Debug, Drop)]
pub struct MemSink {
    bytes: Vec<u8>,
    room: usize,
    failing: Vec<u64>,
    puts: u64,
    faults: u64,
}

impl Model for MemSink {
    ghost Value = { MemSinkState };

    ghost view = { λ s. record {
      bytes = s.bytes.items;
      room = s.room;
      failing = s.failing.items;
      puts = s.puts;
      faults = s.faults;
    } };

    ghost invariant = { λ s. (s.room ≤ vec_capacity s.bytes) × (vec_len s.bytes ≤ s.room) };
}

impl MemSink {
    /// An empty sink with room for `room` bytes, which is taken here. The puts whose numbers, from
    /// 1, are in `failing` put nothing and fail. A put that passes the room puts what fits and
    /// fails.
    pub fn make(alloc: Global, room: usize, failing: Vec<u64>) -> Result<MemSink, AllocError>
        ensures empty { IfOk result (λ s. s ≡ record {
          bytes = [];
          room = room;
          failing = failing.items;
          puts = 0;
          faults = 0;
        }) }
    {
        Ok(MemSink {
            bytes: Vec::with_capacity(alloc, room)?,
            room,
            failing,
            puts: 0,
            faults: 0,
        })
    }

    /// The bytes put.
    pub fn as_slice(&self) -> &[u8]
        ensures { result.now ≡ self.now.bytes }
    {
        self.bytes.as_slice()
    }

    // Puts what fits, and answers how many bytes that is.
    fn fill(&mut self, bytes: &[u8]) -> usize
        ensures after { self.new
            ≡ record self.old { bytes = self.old.bytes ++ take result bytes.now } }
        ensures fitting { result ≡ min (length bytes.now) (self.old.room - length self.old.bytes) }
        ensures within { length self.old.bytes ≤ self.old.room }
    {
        let fitting = bytes.len().min(self.room - self.bytes.len());
        self.bytes.extend_from_slice(&bytes[..fitting]).unwrap();
        fitting
    }
}

impl Sink for MemSink {
    ghost told = { λ s. Some s.bytes };

    ghost faults = { λ s. s.faults };

    fn put(&mut self, bytes: &[u8]) -> Result<(), Failed>
        ensures ok { OnOk result (Gained (Some self.old.bytes) (Some self.new.bytes) bytes.now) }
        ensures same { OnOk result (self.new.faults ≡ self.old.faults) }
        ensures err { OnErr result
            (GainedSome (Some self.old.bytes) (Some self.new.bytes) bytes.now) }
        ensures counted { OnErr result (HasRisen self.old.faults self.new.faults) }

        // What this sink adds to the trait's clauses.
        ensures numbered { self.new.puts ≡ one_more self.old.puts }
        ensures same_plan { self.new.failing ≡ self.old.failing }
        ensures same_room { self.new.room ≡ self.old.room }
        ensures planned { Contains self.old.failing self.new.puts → IsErr result }
        ensures untouched { Contains self.old.failing self.new.puts
            → self.new.bytes ≡ self.old.bytes }
        ensures fitting { Contains self.old.failing self.new.puts
            ⊎ (self.new.bytes ≡ take self.old.room (self.old.bytes ++ bytes.now)) }
        ensures cause { OnErr result (Contains self.old.failing self.new.puts
            ⊎ (self.old.room < length self.old.bytes + length bytes.now)) }
    {
        self.puts = self.puts.saturating_add(1);
        let is_planned = self.failing.contains(&self.puts);
        if !is_planned && self.fill(bytes) == bytes.len() {
            return Ok(());
        }
        self.faults = self.faults.saturating_add(1);
        Err(Failed)
    }

    fn discards(&self) -> bool
        ensures { result ≡ false }
    {
        false
    }
}
