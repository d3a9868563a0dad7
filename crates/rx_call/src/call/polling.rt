ghost use Rattle.std.specs.Prelude.{◌≡◌, ◌≤◌, ◌<◌, ◌+◌, ◌^◌, nat_le, if◌then◌else◌, true, ℕ, Option, Some, None};
ghost use Rattle.rx_rules.specs.CallItems.{call_due, next_sending};
ghost use Rattle.rx_rules.specs.CallItems as items;
ghost use Rattle.rx_rules.specs.CallLooks.{CallLooks, after_piece, is_timed_out, slowed, tells_hole};
ghost use Rattle.rx_rules.specs.Lost.{halves};
ghost use Rattle.rx_rules.specs.Sent.{piece_at, after_time};
ghost use Rattle.rx_pool.specs.Pool.{Slots};
ghost use Rattle.rx_sendwin.specs.Window.{CanBeSent};
ghost use Rattle.rx_sendwin.specs.declared.next.NextPiece.{NextPiece};
ghost use Rattle.rx_call.specs.Standing.{StandsCall, IsSameEnd, HoldsPiece, HoldsGiven, slots_of, view_of, giving_of};
ghost use Rattle.rx_call.specs.Standing.{after_given, owed_of};
ghost use Rattle.rx_call.specs.Choosing.{least_piece, piece_sending, first_ack, chosen_by};
ghost use Rattle.rx_call.specs.declared.giving.Giving.TheVariants as givings;

use crate::call::Call;
use crate::giving::Giving;
use crate::owing::{OwedAck, owe_for_given};
use crate::side::Side;
use rx_model::wire::{ACK_PING, PING_MS};
use rx_sendwin::NextPiece;

impl Call {
    /// The acknowledgement that is due first: the one that is owed, or a client's ping.
    fn first_ack(&self) -> Option<OwedAck>
        ensures { owed_of result ≡ first_ack self.now.client self.now.spoke self.now.owed }
    {
        match self.side {
            Side::Client => {
                let ping = OwedAck {
                    reason: ACK_PING,
                    serial: 0,
                    rank: self.spoke + PING_MS,
                };
                match self.owed {
                    Some(owed) => Some(earlier_ack(owed, ping)),
                    None => Some(ping),
                }
            }
            Side::Server => self.owed,
        }
    }

    /// From which moment on a piece is due; none where none is before the window changes.
    fn piece_due(&self) -> Option<u64>
        ensures { (pool : Slots) (k : CallLooks) → StandsCall pool self.now k → result ≡ least_piece k }
    {
        self.sent.due(self.rtt.rto(), &self.cwnd)
    }

    /// From which moment on it has something to give, in milliseconds: 0 for at once, and none where there is nothing.
    /// A message, a write, a read and what it gives may change it.
    pub fn due(&self) -> Option<u64>
        ensures { (pool : Slots) (k : CallLooks) → StandsCall pool self.now k → result ≡ call_due self.now.client k }
    {
        match self.first_ack() {
            Some(ack) => match self.piece_due() {
                Some(rank) => Some(rank.min(ack.rank)),
                None => Some(ack.rank),
            },
            None => self.piece_due(),
        }
    }

    /// The acknowledgement that is given at this moment, before any piece.
    fn next_ack(&self, now: u64) -> Option<OwedAck>
        ensures { (pool : Slots) (k : CallLooks) (left : ℕ) → StandsCall pool self.now k →
            next_sending (view_of self.now left now) k ≡ chosen_by (owed_of result) (piece_sending now k) }
    {
        let ack = self.first_ack()?;
        if ack.rank > now {
            return None;
        }
        match self.piece_due() {
            Some(rank) => {
                if rank <= ack.rank {
                    return None;
                }
                Some(ack)
            }
            None => Some(ack),
        }
    }

    /// A piece whose time is up waits longer for its next time, and the window closes; one that was taken for lost may
    /// close it by half.
    fn slow(&mut self, up: bool, half: bool)
        ensures stands { (pool : Slots) (k : CallLooks) → StandsCall pool self.old k →
            StandsCall pool self.new (slowed up half k) }
        ensures sent { self.new.sent ≡ self.old.sent }
        ensures slots { slots_of self.new ≡ slots_of self.old }
        ensures same { IsSameEnd self.old self.new }
    {
        if up {
            self.rtt.backoff();
            self.cwnd.timed_out();
        } else if half {
            self.cwnd.lost();
        }
    }

    /// Where the time of the piece that is given next is up, what was given before it is late.
    fn mark_late(&mut self, up: bool)
        ensures stands { (pool : Slots) (k : CallLooks) → StandsCall pool self.old k →
            StandsCall pool self.new (record k { sent = after_time up k.sent }) }
        ensures piece { (seq : ℕ) → CanBeSent self.old.sent seq → CanBeSent self.new.sent seq }
        ensures slots { slots_of self.new ≡ slots_of self.old }
        ensures same { IsSameEnd self.old self.new }
    {
        if up {
            self.sent.time_up();
        }
    }

    /// A piece is given.
    fn give_piece(&mut self, now: u64, piece: NextPiece) -> Giving
        requires piece { CanBeSent self.old.sent piece.seq }
        requires now { now < 2 ^ 62 }
        ensures result { (pool : Slots) (k : CallLooks) → StandsCall pool self.old k →
            result ≡ givings.Piece piece.seq piece.asks (piece_at k.sent piece.seq).last }
        ensures stands { (pool : Slots) (k : CallLooks) → StandsCall pool self.old k →
            piece.up ≡ is_timed_out k piece.seq → piece.half ≡ halves k.cwnd k.sent piece.seq →
            StandsCall pool self.new (after_piece now piece.seq k) }
        ensures held { (pool : Slots) (k : CallLooks) → StandsCall pool self.old k → HoldsPiece self.new piece.seq }
        ensures slots { slots_of self.new ≡ slots_of self.old }
        ensures same { IsSameEnd self.old self.new }
    {
        let last = self.sent.is_last(piece.seq);
        self.slow(piece.up, piece.half);
        self.mark_late(piece.up);
        self.sent.sent(piece.seq, now);
        self.spoke = now;
        Giving::Piece {
            seq: piece.seq,
            asks: piece.asks,
            last,
        }
    }

    /// Whether it tells again of a packet above a hole: a prompt node's does once it keeps packet 1 too.
    fn tells_hole(&self) -> bool
        ensures { (pool : Slots) (k : CallLooks) → StandsCall pool self.now k → result ≡ tells_hole k }
    {
        self.cwnd.recovers() && self.received.has_hole() && self.received.front() > 0
    }

    /// What it gives at this moment; none where nothing is due.
    pub fn poll(&mut self, now: u64) -> Option<Giving>
        requires { now < 2 ^ 62 }
        ensures answered { (pool : Slots) (k : CallLooks) (left : ℕ) → StandsCall pool self.old k →
            result ≡ giving_of k (next_sending (view_of self.old left now) k) }
        ensures stands { (pool : Slots) (k : CallLooks) (left : ℕ) → StandsCall pool self.old k →
            StandsCall pool self.new (after_given now (next_sending (view_of self.old left now) k) k) }
        ensures held { (pool : Slots) (k : CallLooks) → StandsCall pool self.old k → HoldsGiven self.new result }
        ensures slots { slots_of self.new ≡ slots_of self.old }
        ensures same { IsSameEnd self.old self.new }
    {
        if let Some(ack) = self.next_ack(now) {
            let silent = now.saturating_sub(self.heard);
            self.owed = owe_for_given(now, self.tells_hole(), silent);
            self.spoke = now;
            return Some(Giving::Ack {
                reason: ack.reason,
                serial: ack.serial,
            });
        }
        let piece = self.sent.next(now, self.rtt.rto(), &self.cwnd)?;
        Some(self.give_piece(now, piece))
    }
}

/// The one of less rank, the first where they are equal.
fn earlier_ack(owed: OwedAck, ping: OwedAck) -> OwedAck
    ensures { result ≡ (if nat_le owed.rank ping.rank then owed else ping) }
{
    if owed.rank <= ping.rank {
        return owed;
    }
    ping
}
