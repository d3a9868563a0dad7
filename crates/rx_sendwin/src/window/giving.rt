ghost use Rattle.std.specs.Prelude.{◌≡◌, ◌≤◌, ◌<◌, ◌+◌, ◌-◌, ◌^◌, ◌==◌, ℕ, length, suc, Option, Some, None, true};
ghost use Rattle.std.specs.Prelude.{false, IfSome};
ghost use Rattle.rx_rules.specs.CallItems.{can_give, asks, resend_after};
ghost use Rattle.rx_rules.specs.Lost.{lost_of, halves, is_once};
ghost use Rattle.rx_rules.specs.Sent.{Sent, piece_at, given_of, lowest_of, last_giving, after_giving, after_time};
ghost use Rattle.rx_pool.specs.Pool.{Slots};
ghost use Rattle.rx_pool.specs.Held.{Holds};
ghost use Rattle.rx_sendwin.specs.Pieces.{as_giving};
ghost use Rattle.rx_sendwin.specs.Window.{piece_slots, StandsSent, CanBeSent};
ghost use Rattle.rx_sendwin.specs.Next.{next_piece, least_rank, again_of};

use crate::lost::lost_among;
use crate::marks::{asks, goes};
use crate::next::NextPiece;
use crate::piece::LastGiving;
use crate::window::SendWin;
use rx_model::wire::ACK_DELAY_MS;
use rx_pool::Pool;
use rx_rtt::Cwnd;

/// The greatest count of givings that another follows; it stands still there.
const LAST_ORDER: u64 = u64::MAX - 1;

impl SendWin {
    ghost use Rattle.rx_model.specs.declared.wire.TheConstants.{LAST_SEQ};

    /// The payload of a held piece, and whether it has the last mark.
    pub fn piece<'a>(&self, pool: &'a Pool, seq: u32) -> (&'a [u8], bool)
        requires above { self.now.acked < seq }
        requires held { seq ≤ self.now.acked + length self.now.pieces }
        requires holds { Holds pool.now (piece_slots self.now) }
        ensures payload { (s : Sent) → StandsSent pool.now self.now s → result.0.now ≡ (piece_at s seq).payload }
        ensures last { (s : Sent) → StandsSent pool.now self.now s → result.1 ≡ (piece_at s seq).last }
    {
        let held = &self.pieces[(seq - self.acked - 1) as usize];
        (held.payload(pool), self.is_last(seq))
    }

    /// A piece is sent at this moment, for the first time or again.
    pub fn sent(&mut self, seq: u32, now: u64)
        requires piece { CanBeSent self.old seq }
        requires now { now < 2 ^ 62 }
        ensures stands { (pool : Slots) (s : Sent) → StandsSent pool self.old s →
            StandsSent pool self.new (after_giving now seq s) }
        ensures slots { piece_slots self.new ≡ piece_slots self.old }
        ensures width { self.new.width ≡ self.old.width }
        ensures shut { self.new.shut ≡ self.old.shut }
    {
        let place = (seq - self.acked - 1) as usize;
        let again = self.pieces[place].given.is_some();
        let order = self.orders + 1;
        self.pieces[place].given = Some(LastGiving {
            moment: now,
            again,
            order,
        });
        self.orders = order.min(LAST_ORDER);
        if self.given < seq {
            self.given = seq;
            self.flight += 1;
            self.lost.under_way += 1;
        } else {
            self.lost = lost_among(
                self.acked,
                self.given,
                self.since,
                self.soft.as_slice(),
                &self.pieces,
            );
        }
    }

    /// The time of the piece that is sent next is up: what was sent before is late.
    pub fn time_up(&mut self)
        ensures stands { (pool : Slots) (s : Sent) → StandsSent pool self.old s →
            StandsSent pool self.new (after_time true s) }
        ensures slots { piece_slots self.new ≡ piece_slots self.old }
        ensures width { self.new.width ≡ self.old.width }
        ensures shut { self.new.shut ≡ self.old.shut }
        ensures piece { (seq : ℕ) → CanBeSent self.old seq → CanBeSent self.new seq }
    {
        self.since = self.orders;
        self.lost = lost_among(
            self.acked,
            self.given,
            self.since,
            self.soft.as_slice(),
            &self.pieces,
        );
    }

    /// Whether the lowest piece that was never given is due.
    fn can_give(&self, cw: &Cwnd) -> bool
        ensures answered { (pool : Slots) (s : Sent) → StandsSent pool self.now s → result ≡ can_give cw.now s }
        ensures most { result ≡ true → self.now.given < LAST_SEQ }
        ensures piece { result ≡ true → CanBeSent self.now (self.now.given + 1) }
    {
        let counts = (self.given as u64) < self.counting();
        let fits = cw.room(self.flight);
        let lets = self.given as u64 + 1 <= self.acked as u64 + self.peer_window as u64;
        goes(counts, fits, lets)
    }

    /// Whether that piece asks for an acknowledgement.
    fn asks(&self, cw: &Cwnd) -> bool
        requires { self.now.given < LAST_SEQ }
        ensures { (pool : Slots) (s : Sent) → StandsSent pool self.now s →
            result ≡ asks cw.now s (suc (given_of s)) false }
    {
        let seq = self.given + 1;
        let last = self.is_last(seq);
        let fits = cw.room(self.flight + 1);
        let fills = seq as u64 == self.acked as u64 + self.peer_window as u64;
        asks(last, fits, fills, cw.prompts(seq))
    }

    /// The lowest piece that isn't acknowledged, with its last giving; none where it was never given.
    fn lowest(&self) -> Option<(u32, LastGiving)>
        ensures piece { IfSome result (λ p. CanBeSent self.now p.0) }
        ensures timed { IfSome result (λ p. p.1.moment < 2 ^ 62) }
        ensures seq { (pool : Slots) (s : Sent) → StandsSent pool self.now s → IfSome result (λ p. p.0 ≡ lowest_of s) }
        ensures some { (pool : Slots) (s : Sent) → StandsSent pool self.now s →
            IfSome result (λ p. again_of s ≡ as_giving (Some p.1)) }
        ensures none { (pool : Slots) (s : Sent) → StandsSent pool self.now s → result ≡ None → again_of s ≡ None }
    {
        let before = self.acked + self.low;
        if before >= self.given {
            return None;
        }
        match self.pieces[self.low as usize].given {
            Some(giving) => Some((before + 1, giving)),
            None => None,
        }
    }

    /// The piece that is taken for lost; none where none is.
    fn lost_piece(&self, cw: &Cwnd) -> Option<u32>
        ensures piece { IfSome result (λ k. CanBeSent self.now k) }
        ensures answered { (pool : Slots) (s : Sent) → StandsSent pool self.now s → result ≡ lost_of cw.now s }
    {
        if !cw.recovers() {
            return None;
        }
        match self.lost.overtaken {
            Some(seq) => Some(seq),
            None => {
                if cw.room(self.lost.under_way) {
                    self.lost.late
                } else {
                    None
                }
            }
        }
    }

    /// Whether a held piece was given once.
    fn is_once(&self, seq: u32) -> bool
        requires { CanBeSent self.now seq }
        ensures { (pool : Slots) (s : Sent) → StandsSent pool self.now s →
            result ≡ is_once (last_giving s.givings seq) }
    {
        match self.pieces[(seq - self.acked - 1) as usize].given {
            Some(giving) => !giving.again,
            None => false,
        }
    }

    /// Whether giving the piece that is taken for lost closes the window by half.
    fn halves(&self, seq: u32, cw: &Cwnd) -> bool
        requires { CanBeSent self.now seq }
        ensures { (pool : Slots) (s : Sent) → StandsSent pool self.now s → lost_of cw.now s ≡ Some seq →
            result ≡ halves cw.now s seq }
    {
        match self.lost.overtaken {
            Some(_) => seq - self.acked - 1 == self.low && self.is_once(seq),
            None => false,
        }
    }

    /// The piece that is due at this moment, where RTO is so many milliseconds; none where none is.
    pub fn next(&self, now: u64, rto: u32, cw: &Cwnd) -> Option<NextPiece>
        ensures piece { IfSome result (λ p. CanBeSent self.now p.seq) }
        ensures answered { (pool : Slots) (s : Sent) → StandsSent pool self.now s →
            result ≡ next_piece now rto cw.now s }
    {
        if let Some(seq) = self.lost_piece(cw) {
            return Some(NextPiece {
                seq,
                again: true,
                asks: true,
                up: false,
                half: self.halves(seq, cw),
            });
        }
        if self.can_give(cw) {
            return Some(NextPiece {
                seq: self.given + 1,
                again: false,
                asks: self.asks(cw),
                up: false,
                half: false,
            });
        }
        match self.lowest() {
            Some((seq, giving)) => {
                if giving.moment + resend_after(rto, giving, cw) <= now {
                    return Some(NextPiece {
                        seq,
                        again: true,
                        asks: true,
                        up: true,
                        half: false,
                    });
                }
                None
            }
            None => None,
        }
    }

    /// From which moment on a piece is due, in milliseconds; 0 where one is due at once, none where none is before the
    /// window changes.
    pub fn due(&self, rto: u32, cw: &Cwnd) -> Option<u64>
        ensures answered { (pool : Slots) (s : Sent) → StandsSent pool self.now s → result ≡ least_rank rto cw.now s }
    {
        if self.lost_piece(cw).is_some() {
            return Some(0);
        }
        if self.can_give(cw) {
            return Some(0);
        }
        match self.lowest() {
            Some((_seq, giving)) => Some(giving.moment + resend_after(rto, giving, cw)),
            None => None,
        }
    }
}

/// How long a piece waits for its acknowledgement behind its last giving, in milliseconds: one RTO; where it was given
/// once, a prompt node waits longer by what a peer may delay one that wasn't asked for (RFC 9002, section 6.2.1).
fn resend_after(rto: u32, giving: LastGiving, cw: &Cwnd) -> u64
    ensures value { result ≡ resend_after rto cw.now.prompt (as_giving (Some giving)) }
    ensures most { result ≤ rto + 100 }
{
    if cw.recovers() && !giving.again {
        return rto as u64 + ACK_DELAY_MS;
    }
    rto as u64
}
