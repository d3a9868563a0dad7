//! The log of a wire in memory. It takes all its memory as it is made.
ghost use Rattle.std.specs.Prelude.{◌≡◌, ◌≤◌, ◌↔◌, ◌++◌, ◌∷◌, [], List, IfOk, IsTrue, length, vec_len, vec_capacity};
ghost use Rattle.std.specs.Iterator.{YieldsFirstBy, item_count};
ghost use Rattle.rx_wire.specs.Wire.{Logged};
ghost use Rattle.rx_wire.specs.WireLog.{LogState, HasRoom, kept_count, kept_with, kept_bytes, logged_of, said_by};

use rx_model::Host;
use std::alloc::{AllocError, Global};
use std::marker::Model;

/// An entry of a log: a take into a buffer of `room` bytes, up to a moment, with the moment after it, that answered
/// with a datagram or with none; or a datagram given. Moments are in milliseconds.
#[derive(Clone, Copy, Debug, PartialEq, Eq)]
pub enum LogEntry<'a> {
    Came {
        room: usize,
        until: u64,
        from: Host,
        bytes: &'a [u8],
        moment: u64,
    },
    Waited {
        room: usize,
        until: u64,
        moment: u64,
    },
    Given {
        to: Host,
        bytes: &'a [u8],
    },
}

/// An entry as it is kept: its bytes stand with those of all others.
#[derive(Clone, Copy, Debug)]
pub enum Kept {
    Came {
        room: usize,
        until: u64,
        from: Host,
        count: usize,
        moment: u64,
    },
    Waited {
        room: usize,
        until: u64,
        moment: u64,
    },
    Given {
        to: Host,
        count: usize,
    },
}

impl Kept {
    /// How many bytes it has.
    pub fn count(&self) -> usize
        ensures { result ≡ kept_count self.now }
    {
        match self {
            Kept::Came { count, .. } | Kept::Given { count, .. } => *count,
            Kept::Waited { .. } => 0,
        }
    }

    fn with<'a>(&self, bytes: &'a [u8]) -> LogEntry<'a>
        ensures { said_by result ≡ kept_with self.now bytes.now }
    {
        match *self {
            Kept::Came {
                room,
                until,
                from,
                moment,
                ..
            } => LogEntry::Came {
                room,
                until,
                from,
                bytes,
                moment,
            },
            Kept::Waited {
                room,
                until,
                moment,
            } => LogEntry::Waited {
                room,
                until,
                moment,
            },
            Kept::Given { to, .. } => LogEntry::Given { to, bytes },
        }
    }
}

/// A log in memory, with room for so many entries and for so many bytes in them.
#[derive(Debug, Drop)]
pub struct WireLog {
    kept: Vec<Kept>,
    bytes: Vec<u8>,
    room: usize,
}

impl Model for WireLog {
    ghost Value = { LogState };

    ghost view = { λ s. record { entries = logged_of s.kept.items s.bytes.items; room = s.room } };

    ghost invariant = { λ s. (kept_bytes s.kept.items ≡ vec_len s.bytes) × (vec_len s.kept ≤ s.room)
        × (vec_len s.bytes ≤ s.room) × (s.room ≤ vec_capacity s.kept) × (s.room ≤ vec_capacity s.bytes) };
}

impl WireLog {
    /// A log without an entry, with room for so many entries and for so many bytes of them all.
    pub fn make(alloc: Global, room: usize) -> Result<WireLog, AllocError>
        ensures empty { IfOk result (λ s. s ≡ record { entries = []; room = room }) }
    {
        Ok(WireLog {
            kept: Vec::with_capacity(alloc, room)?,
            bytes: Vec::with_capacity(alloc, room)?,
            room,
        })
    }

    /// How many entries it has.
    pub fn len(&self) -> usize
        ensures { result ≡ length self.now.entries }
    {
        self.kept.len()
    }

    /// Whether there is room for one more entry with so many bytes.
    pub fn has_room(&self, count: usize) -> bool
        ensures { IsTrue result ↔ HasRoom self.now.entries self.now.room count }
    {
        self.kept.len() < self.room && count <= self.room - self.bytes.len()
    }

    /// Adds an entry with its bytes.
    pub fn push(&mut self, one: Kept, bytes: &[u8])
        requires count { length bytes.now ≡ kept_count one }
        requires room { HasRoom self.old.entries self.old.room (length bytes.now) }
        ensures { self.new ≡ record self.old {
          entries = self.old.entries ++ kept_with one bytes.now ∷ [];
        } }
    {
        self.kept.push(one).unwrap();
        self.bytes.extend_from_slice(bytes).unwrap();
    }

    /// The entries, the first one first.
    pub fn entries(&self) -> LogEntries<'_>
        ensures { result ≡ self.now.entries }
    {
        LogEntries {
            kept: self.kept.as_slice(),
            bytes: self.bytes.as_slice(),
        }
    }
}

/// The entries of a log that are left, the first one first.
#[derive(Debug, Drop)]
pub struct LogEntries<'a> {
    kept: &'a [Kept],
    bytes: &'a [u8],
}

impl<'a> Model for LogEntries<'a> {
    ghost Value = { List Logged };

    ghost view = { λ s. logged_of s.kept.now s.bytes.now };
}

impl<'a> Iterator for LogEntries<'a> {
    type Item = LogEntry<'a>;

    ghost next_gives = { YieldsFirstBy said_by (λ s. s) };

    ghost remaining = { item_count (λ s. s) };

    fn next(&mut self) -> Option<LogEntry<'a>> {
        let (one, kept) = self.kept.split_first()?;
        let count = one.count().min(self.bytes.len());
        let (bytes, rest) = self.bytes.split_at(count);
        self.kept = kept;
        self.bytes = rest;
        Some(one.with(bytes))
    }
}
