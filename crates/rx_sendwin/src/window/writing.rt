ghost use Rattle.std.specs.Prelude.{◌≡◌, ◌≤◌, ◌<◌, ◌+◌, ◌-◌, ◌*◌, ◌/◌, ◌%◌, ◌==◌, min, length, take, [], true, false};
ghost use Rattle.rx_rules.specs.Sent.{Sent, opened, room_by, room_of, after_write, after_shut};
ghost use Rattle.rx_pool.specs.Held.{Holds, Keeps};
ghost use Rattle.rx_sendwin.specs.Window.{piece_slots, StandsSent, SameButBytes};

use crate::pieces::{fill_piece, push_piece};
use crate::window::{PIECE, SendWin};
use rx_model::wire::{LAST_SEQ, PIECE_BYTES};
use rx_pool::Pool;

impl SendWin {
    ghost use Rattle.rx_model.specs.declared.wire.TheConstants.{LAST_SEQ, PIECE_BYTES};

    /// How many bytes a write may accept, where at most so many pieces may be opened.
    fn room(&self, more: u32) -> u64
        requires unshut { self.now.shut ≡ false }
        ensures room { result ≡ room_by self.now.width more self.now.total self.now.acked }
        ensures fits { self.now.total + result ≤ PIECE_BYTES * (self.now.acked + self.now.width) }
        ensures most { self.now.total + result ≤ PIECE_BYTES * LAST_SEQ }
        ensures opens { opened (self.now.total + result) ≤ opened self.now.total + more }
        ensures held { self.now.acked + length (piece_slots self.now) ≡ opened self.now.total }
    {
        let opened = (self.total + (PIECE - 1)) / PIECE;
        let held = opened - self.acked as u64;
        let new = (self.width as u64 - held)
            .min(more as u64)
            .min(LAST_SEQ as u64 - opened);
        PIECE * (opened + new) - self.total
    }

    /// Bytes that fit into the filling piece, or into a new one where that is full, come to the end.
    fn append(&mut self, pool: &mut Pool, chunk: &[u8])
        requires unshut { self.old.shut ≡ false }
        requires some { 0 < length chunk.now }
        requires piece { length chunk.now ≤ PIECE_BYTES - self.old.total % PIECE_BYTES }
        requires fits { self.old.total + length chunk.now ≤ PIECE_BYTES * (self.old.acked + self.old.width) }
        requires most { self.old.total + length chunk.now ≤ PIECE_BYTES * LAST_SEQ }
        requires free { self.old.total % PIECE_BYTES ≡ 0 → 0 < length pool.old.free }
        requires holds { Holds pool.old (piece_slots self.old) }
        ensures stands { (s : Sent) → StandsSent pool.old self.old s →
            StandsSent pool.new self.new (after_write chunk.now s) }
        ensures keeps { Keeps pool.old pool.new (piece_slots self.old) (piece_slots self.new) }
        ensures held { self.new.acked + length (piece_slots self.new) ≡ opened self.new.total }
        ensures total { self.new.total ≡ self.old.total + length chunk.now }
        ensures same { SameButBytes self.old self.new }
    {
        let at = (self.total % PIECE) as u32;
        if at == 0 {
            push_piece(&mut self.pieces, pool, chunk);
            self.total += chunk.len() as u64;
        } else {
            fill_piece(&mut self.pieces, pool, at, chunk);
            self.total += chunk.len() as u64;
        }
    }

    /// Accepts as many bytes as fit, where at most `more` new pieces may be opened, and answers how many.
    pub fn write(&mut self, pool: &mut Pool, bytes: &[u8], more: u32) -> usize
        requires unshut { self.old.shut ≡ false }
        requires more { more ≤ length pool.old.free }
        requires holds { Holds pool.old (piece_slots self.old) }
        ensures count { (s : Sent) → StandsSent pool.old self.old s →
            result ≡ min (length bytes.now) (room_of self.old.width more s) }
        ensures within { result ≤ length bytes.now }
        ensures stands { (s : Sent) → StandsSent pool.old self.old s →
            StandsSent pool.new self.new (after_write (take result bytes.now) s) }
        ensures keeps { Keeps pool.old pool.new (piece_slots self.old) (piece_slots self.new) }
        ensures same { SameButBytes self.old self.new }
        ensures unshut { self.new.shut ≡ false }
    {
        let room = self.room(more);
        let count = (bytes.len() as u64).min(room) as usize;
        let mut at = 0;
        while at < count {
            let (_done, rest) = bytes.split_at(at);
            let n = (PIECE_BYTES - (self.total % PIECE) as usize).min(count - at);
            let (chunk, _later) = rest.split_at(n);
            self.append(pool, chunk);
            at += n;
        }
        count
    }

    /// The stream ends; where nothing was accepted, with one empty piece.
    pub fn shut(&mut self, pool: &mut Pool)
        requires unshut { self.old.shut ≡ false }
        requires free { self.old.total ≡ 0 → 0 < length pool.old.free }
        requires holds { Holds pool.old (piece_slots self.old) }
        ensures stands { (s : Sent) → StandsSent pool.old self.old s → StandsSent pool.new self.new (after_shut s) }
        ensures keeps { Keeps pool.old pool.new (piece_slots self.old) (piece_slots self.new) }
        ensures shut { self.new.shut ≡ true }
        ensures width { self.new.width ≡ self.old.width }
    {
        if self.total == 0 {
            push_piece(&mut self.pieces, pool, &[]);
            self.shut = true;
        } else {
            self.shut = true;
        }
    }
}
