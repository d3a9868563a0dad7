//! Joining datagrams that were given one after another (`rx_packet.h`, `struct rx_jumboHeader`).

ghost use Rattle.std.specs.Prelude.{◌≡◌, ◌==◌, ◌<◌, ◌≤◌, ◌++◌, ◌∷◌, ◌↔◌, [], ℕ, false, true, length, nat_lt, take};
ghost use Rattle.std.specs.Prelude.{drop, slice_index, IfOk, IfSome, IfNone, IsNone, IsTrue};
ghost use Rattle.rx_model.specs.Names.{same_host};
ghost use Rattle.rx_jumbo.specs.JoinerState.{continues, follows, has_full_piece, last_datagram, spare_place, takes};
ghost use Rattle.rx_jumbo.specs.Parts.{is_jumbo, parts_of};

use crate::fields::part_place;
use crate::sizes::{JUMBO_BYTES, JUMBO_PARTS};
use crate::text::{extend, goes_on};
use crate::write::put;
use rx_model::Host;
use rx_model::wire::{DATAGRAM_BYTES, PIECE_BYTES};
use std::alloc::{AllocError, Global};
use std::marker::Model;

/// Datagrams for one host that are to be given as one. They stand in its buffer as the text that is given.
#[derive(Debug, Drop)]
pub struct Joiner {
    most: u32,
    host: Host,
    count: u32,
    len: usize,
    bytes: Vec<u8>,
}

impl Model for Joiner {
    ghost use Rattle.std.specs.Prelude.{take};
    ghost use Rattle.rx_jumbo.specs.JoinerState.{JoinerState};
    ghost use Rattle.rx_jumbo.specs.Text.{IsJoinerBuffer, datagrams_in};

    ghost Value = { JoinerState };

    ghost view = { λ j. record {
      most = j.most;
      host = j.host;
      datagrams = datagrams_in j.count (take j.len j.bytes.items);
    } };

    ghost invariant = { λ j. IsJoinerBuffer j.most j.count j.len j.bytes.items };
}

impl Joiner {
    /// A joiner of at most so many datagrams, from 1 to 16, with the memory for them. It holds none.
    pub fn make(alloc: Global, most: u32) -> Result<Joiner, AllocError>
        requires some { 1 ≤ most }
        requires few { most ≤ JUMBO_PARTS }
        ensures most { IfOk result (λ j. j.most ≡ most) }
        ensures empty { IfOk result (λ j. j.datagrams ≡ []) }
    {
        Ok(Joiner {
            most,
            host: Host { addr: 0, port: 0 },
            count: 0,
            len: 0,
            bytes: vec![in alloc; 0u8; JUMBO_BYTES]?,
        })
    }

    /// Takes a datagram for a host where none is held, or where it follows the last one held: DATA of the same call
    /// with the next seq and serial, behind a full piece, while fewer than the most are held. Answers whether it was
    /// taken; where it wasn't, nothing changes, and the caller takes `out` first.
    pub fn push(&mut self, to: Host, bytes: &[u8]) -> bool
        requires size { length bytes.now ≤ DATAGRAM_BYTES }
        requires single { is_jumbo bytes.now ≡ false }
        ensures takes { result ≡ takes self.old to bytes.now }
        ensures taken { IsTrue result → self.new ≡ record self.old {
          host = to;
          datagrams = self.old.datagrams ++ bytes.now ∷ [];
        } }
        ensures same { result ≡ false → self.new ≡ self.old }
    {
        if self.is_empty() {
            self.begin(to, bytes);
            return true;
        }
        if !(self.has_room()
            && (self.is_for(to) && (self.is_full() && self.is_continued_by(bytes))))
        {
            return false;
        }
        self.add(bytes);
        true
    }

    /// Writes what is held as one datagram to the front of `to`, and answers its host and its length in bytes. Then
    /// none is held. None where none was.
    pub fn out(&mut self, to: &mut [u8]) -> Option<(Host, usize)>
        requires { JUMBO_BYTES ≤ length to.old }
        ensures none { IsNone result ↔ (self.old.datagrams ≡ []) }
        ensures unwritten { IfNone result (to.new ≡ to.old) }
        ensures host { IfSome result (λ r. r.0 ≡ self.old.host) }
        ensures within { IfSome result (λ r. r.1 ≤ JUMBO_BYTES) }

        // Its parts are the datagrams that were pushed, and the spare byte before each part is 0.
        ensures parts { IfSome result (λ r. parts_of (take r.1 to.new) ≡ self.old.datagrams) }
        ensures spares { IfSome result (λ r. (k : ℕ) → 0 < k → k < length self.old.datagrams →
            slice_index to.new (spare_place k) ≡ 0) }
        ensures rest { IfSome result (λ r. drop r.1 to.new ≡ drop r.1 to.old) }
        ensures emptied { self.new ≡ record self.old { datagrams = [] } }
    {
        if self.count == 0 {
            return None;
        }
        let end = put(to, 0, &self.bytes[..self.len]);
        self.count = 0;
        Some((self.host, end))
    }

    fn is_empty(&self) -> bool
        ensures { result ≡ (length self.now.datagrams == 0) }
    {
        self.count == 0
    }

    fn has_room(&self) -> bool
        ensures { result ≡ nat_lt (length self.now.datagrams) self.now.most }
    {
        self.count < self.most
    }

    fn is_for(&self, to: Host) -> bool
        ensures { result ≡ same_host self.now.host to }
    {
        self.host == to
    }

    /// Whether the last datagram held has a full piece.
    fn is_full(&self) -> bool
        ensures { result ≡ has_full_piece (last_datagram self.now.datagrams) }
    {
        self.count > 0 && self.len == part_place(self.count - 1) + PIECE_BYTES
    }

    /// Whether a datagram continues the last one held.
    fn is_continued_by(&self, bytes: &[u8]) -> bool
        ensures { result ≡ continues (last_datagram self.now.datagrams) bytes.now }
    {
        self.count > 0 && goes_on(&self.bytes[..self.len], self.count - 1, bytes)
    }

    /// Holds this datagram alone.
    fn begin(&mut self, to: Host, bytes: &[u8])
        requires size { length bytes.now ≤ DATAGRAM_BYTES }
        requires single { is_jumbo bytes.now ≡ false }
        ensures { self.new ≡ record self.old { host = to; datagrams = bytes.now ∷ [] } }
    {
        self.len = put(&mut self.bytes, 0, bytes);
        self.count = 1;
        self.host = to;
    }

    /// Holds a datagram that follows the last one too.
    fn add(&mut self, bytes: &[u8])
        requires size { length bytes.now ≤ DATAGRAM_BYTES }
        requires single { is_jumbo bytes.now ≡ false }
        requires room { length self.old.datagrams < self.old.most }
        requires next { follows (last_datagram self.old.datagrams) bytes.now ≡ true }
        ensures { self.new ≡ record self.old { datagrams = self.old.datagrams ++ bytes.now ∷ [] } }
    {
        let last = self.count - 1;
        self.len = extend(&mut self.bytes, self.len, last, bytes);
        self.count += 1;
    }
}
