ghost use Rattle.std.specs.Prelude.{not, ◌≡◌, ◌≤◌, ◌<◌, ◌-◌, ◌&&◌, drop, [], Option, Some, None, true};
ghost use Rattle.rx_rules.specs.Sent.{Sent, pieces_by, is_strange_ack, newly_of, after_ack, after_all};
ghost use Rattle.rx_pool.specs.Pool.{Slots};
ghost use Rattle.rx_pool.specs.Held.{Holds, Keeps};
ghost use Rattle.rx_sendwin.specs.Marks.{is_acked_by, newly_by, highest_by, trip_at, is_valid_ack};
ghost use Rattle.rx_sendwin.specs.Window.{piece_slots, StandsSent, as_newly};

use crate::lost::{Lost, lost_behind};
use crate::marks::{
    count_in_flight, count_newly, has_mark_past, highest_newly, leading, peer_window, set_marks,
    trip,
};
use crate::newly::Newly;
use crate::pieces::free_front;
use crate::window::SendWin;
use rx_pool::Pool;

impl SendWin {
    /// Whether an ACK makes sense: it speaks of no piece that was never sent.
    pub fn valid(&self, first: u32, marks: &[bool]) -> bool
        ensures value { result ≡ is_valid_ack self.now.given first marks.now }
        ensures answered { (pool : Slots) (s : Sent) → StandsSent pool self.now s →
            result ≡ not (is_strange_ack first marks.now s) }
    {
        let past = has_mark_past(marks, first, self.given);
        first != 0 && first - 1 <= self.given && !past
    }

    /// What an ACK that isn't stale newly acknowledges.
    fn newly(&self, now: u64, first: u32, marks: &[bool]) -> Newly
        requires fresh { self.now.acked ≤ first - 1 }
        requires first { (0 < first) × (first - 1 ≤ self.now.given) }
        ensures count { result.count
            ≡ newly_by (is_acked_by self.now.acked self.now.soft) (is_acked_by (first - 1) marks.now) self.now.given }
        ensures sample { (pool : Slots) (s : Sent) → StandsSent pool self.now s →
            result.sample ≡ trip_at now s.givings
            (highest_by (is_acked_by self.now.acked self.now.soft) (is_acked_by (first - 1) marks.now) self.now.given) }
    {
        let soft = self.soft.as_slice();
        let count = count_newly(self.acked, soft, first - 1, marks, self.given);
        let sample = match highest_newly(self.acked, soft, first - 1, marks, self.given) {
            Some(seq) => trip(now, self.pieces[(seq - self.acked - 1) as usize].given),
            None => None,
        };
        Newly { count, sample }
    }

    /// An ACK comes that makes sense: the slots of the pieces that it hard acknowledges are given back, and its marks
    /// and its window are in force. One below what is hard acknowledged changes nothing. It answers what is newly
    /// acknowledged.
    pub fn on_ack(
        &mut self,
        pool: &mut Pool,
        now: u64,
        first: u32,
        marks: &[bool],
        window: Option<u32>,
    ) -> Newly
        requires valid { is_valid_ack self.old.given first marks.now ≡ true }
        requires holds { Holds pool.old (piece_slots self.old) }
        ensures newly { (s : Sent) → StandsSent pool.old self.old s → as_newly result ≡ newly_of now first marks.now s }
        ensures stands { (s : Sent) → StandsSent pool.old self.old s →
            StandsSent pool.new self.new (after_ack first marks.now window s) }
        ensures keeps { Keeps pool.old pool.new (piece_slots self.old) (piece_slots self.new) }
        ensures slots { piece_slots self.new ≡ drop (self.new.acked - self.old.acked) (piece_slots self.old) }
        ensures width { self.new.width ≡ self.old.width }
        ensures shut { self.new.shut ≡ self.old.shut }
    {
        if first - 1 < self.acked {
            return Newly {
                count: 0,
                sample: None,
            };
        }
        let newly = self.newly(now, first, marks);
        let plain = self.lost.under_way == self.given - self.acked;
        free_front(&mut self.pieces, pool, (first - 1 - self.acked) as usize);
        self.acked = first - 1;
        set_marks(&mut self.soft, marks);
        self.low = leading(self.soft.as_slice()) as u32;
        self.flight = count_in_flight(self.acked, marks, self.given);
        self.peer_window = peer_window(self.peer_window, window);
        self.lost = lost_behind(
            plain && self.flight == self.given - self.acked,
            self.acked,
            self.given,
            self.since,
            self.soft.as_slice(),
            &self.pieces,
        );
        newly
    }

    /// All pieces are hard acknowledged, and their slots are given back.
    pub fn ack_all(&mut self, pool: &mut Pool)
        requires shut { self.old.shut ≡ true }
        requires sent { self.old.given ≡ pieces_by self.old.total self.old.shut }
        requires holds { Holds pool.old (piece_slots self.old) }
        ensures stands { (s : Sent) → StandsSent pool.old self.old s → StandsSent pool.new self.new (after_all s) }
        ensures slots { piece_slots self.new ≡ [] }
        ensures keeps { Keeps pool.old pool.new (piece_slots self.old) (piece_slots self.new) }
        ensures width { self.new.width ≡ self.old.width }
        ensures shut { self.new.shut ≡ true }
    {
        let held = self.pieces.len();
        free_front(&mut self.pieces, pool, held);
        self.acked = self.given;
        self.soft.clear();
        self.low = 0;
        self.flight = 0;
        self.lost = Lost::none();
    }
}
