ghost use Rattle.std.specs.Prelude.{◌≡◌, ◌≤◌, ◌<◌, ◌+◌, ◌-◌, ◌^◌, length, [], false, IfOk};
ghost use Rattle.rx_rules.specs.CallLooks.{CallLooks, fresh_call, held, lead, has_lead, is_delivered};
ghost use Rattle.rx_rules.specs.Received.{used_of, marks_of};
ghost use Rattle.rx_rules.specs.Sent.{piece_at};
ghost use Rattle.rx_pool.specs.Pool.{Slots};
ghost use Rattle.rx_pool.specs.Held.{Holds, Keeps};
ghost use Rattle.rx_call.specs.Standing.{EndOfCall, StandsCall, IsIdle, IsSameEnd, HoldsPiece, slots_of, holds_lead};
ghost use Rattle.rx_call.specs.Standing.{is_client, leadless};

use crate::owing::OwedAck;
use crate::side::Side;
use rx_model::Pace;
use rx_model::wire::SILENCE_MS;
use rx_pool::Pool;
use rx_recvwin::{AckView, RecvWin};
use rx_rtt::{Cwnd, Rtt};
use rx_sendwin::SendWin;
use std::alloc::{AllocError, Global};
use std::marker::Model;

mod polling;
mod saying;
mod taking;

/// One end of one call, with its slots in the pool of its node.
#[derive(Debug, Drop)]
pub struct Call {
    side: Side,
    /// That of its node.
    pace: Pace,
    received: RecvWin,
    sent: SendWin,
    rtt: Rtt,
    cwnd: Cwnd,
    owed: Option<OwedAck>,
    /// When it was last heard, in milliseconds.
    heard: u64,
    /// When it last gave a DATA or an ACK, in milliseconds.
    spoke: u64,
}

impl Model for Call {
    ghost use Rattle.std.specs.Prelude.{◌≡◌, ◌≤◌, ◌<◌, ◌^◌};
    ghost use Rattle.rx_call.specs.Standing.{EndOfCall, is_client, owed_of};
    ghost use Rattle.rx_model.specs.declared.wire.TheConstants.{MIN_WINDOW, MAX_WINDOW};

    ghost Value = { EndOfCall };

    ghost view = { λ c. record {
      client = is_client c.side;
      pace = c.pace;
      received = c.received;
      sent = c.sent;
      rtt = c.rtt;
      cwnd = c.cwnd;
      owed = owed_of c.owed;
      heard = c.heard;
      spoke = c.spoke;
    } };

    ghost invariant = { λ c. (MIN_WINDOW ≤ c.pace.window) × (c.pace.window ≤ MAX_WINDOW)
        × (c.received.width ≡ c.pace.window) × (c.sent.width ≡ c.pace.window)
        × (c.heard < 2 ^ 62) × (c.spoke < 2 ^ 62) };
}

impl Call {
    ghost use Rattle.rx_model.specs.declared.wire.TheConstants.{MIN_WINDOW, MAX_WINDOW, SILENCE_MS};

    /// An idle end of a call at a node of this pace, with all the memory that it will need.
    pub fn make(alloc: Global, pace: Pace) -> Result<Call, AllocError>
        requires least { MIN_WINDOW ≤ pace.window }
        requires most { pace.window ≤ MAX_WINDOW }
        ensures idle { IfOk result IsIdle }
        ensures slots { IfOk result (λ c. slots_of c ≡ []) }
        ensures pace { IfOk result (λ c. c.pace ≡ pace) }
    {
        let received = RecvWin::make(alloc, pace.window)?;
        let sent = SendWin::make(alloc, pace.window)?;
        Ok(Call {
            side: Side::Server,
            pace,
            received,
            sent,
            rtt: Rtt::new(pace.prompt),
            cwnd: Cwnd::new(pace.window, pace.prompt),
            owed: None,
            heard: 0,
            spoke: 0,
        })
    }

    /// How many slots it holds.
    pub fn held(&self) -> u32
        ensures count { result ≡ length (slots_of self.now) }
        ensures answered { (pool : Slots) (k : CallLooks) → StandsCall pool self.now k → result ≡ held k }
    {
        self.received.held() + self.sent.held()
    }

    /// Whether it holds a packet that stands without a gap, or a piece.
    pub fn lead(&self) -> bool
        ensures value { result ≡ holds_lead self.now }
        ensures answered { (pool : Slots) (k : CallLooks) → StandsCall pool self.now k → result ≡ has_lead k }
    {
        let unread = self.received.lead();
        unread || self.sent.held() > 0
    }

    /// Whether its own stream is shut.
    pub fn is_shut(&self) -> bool
        ensures value { result ≡ self.now.sent.shut }
        ensures answered { (pool : Slots) (k : CallLooks) → StandsCall pool self.now k → result ≡ k.sent.shut }
    {
        self.sent.is_shut()
    }

    /// Whether the other side's stream was read to its end.
    pub fn all_read(&self) -> bool
        ensures answered { (pool : Slots) (k : CallLooks) → StandsCall pool self.now k → result ≡ k.received.ended }
    {
        self.received.all_read()
    }

    /// Whether the other end has its whole stream, which is shut: each piece is hard acknowledged, and of a prompt node
    /// soft acknowledgements count too.
    pub fn is_delivered(&self) -> bool
        ensures answered { (pool : Slots) (k : CallLooks) → StandsCall pool self.now k → result ≡ is_delivered k }
    {
        self.sent.all_acked() || (self.cwnd.recovers() && self.sent.all_known())
    }

    /// The moment at which its silence reaches 12,000 milliseconds.
    pub fn dies(&self) -> u64
        ensures value { result ≡ self.now.heard + SILENCE_MS }
        ensures answered { (pool : Slots) (k : CallLooks) → StandsCall pool self.now k → result ≡ k.heard + SILENCE_MS }
    {
        self.heard + SILENCE_MS
    }

    /// What an acknowledgement says now of the packets that came.
    pub fn ack_view(&self) -> AckView
        ensures first { (pool : Slots) (k : CallLooks) → StandsCall pool self.now k →
            result.first ≡ used_of k.received + 1 }
        ensures previous { (pool : Slots) (k : CallLooks) → StandsCall pool self.now k →
            result.previous ≡ k.received.previous }
        ensures marks { (pool : Slots) (k : CallLooks) → StandsCall pool self.now k →
            result.marks.items ≡ marks_of k.received }
    {
        self.received.ack_view()
    }

    /// The payload of a piece that it holds, and whether it has the last mark.
    pub fn piece<'a>(&self, pool: &'a Pool, seq: u32) -> (&'a [u8], bool)
        requires held { HoldsPiece self.now seq }
        requires holds { Holds pool.now (slots_of self.now) }
        ensures payload { (k : CallLooks) → StandsCall pool.now self.now k →
            result.0.now ≡ (piece_at k.sent seq).payload }
        ensures last { (k : CallLooks) → StandsCall pool.now self.now k → result.1 ≡ (piece_at k.sent seq).last }
    {
        self.sent.piece(pool, seq)
    }

    /// A call starts at this moment.
    pub fn start(&mut self, side: Side, now: u64)
        requires idle { IsIdle self.old }
        requires now { now < 2 ^ 62 }
        ensures stands { let pace = self.old.pace in
            (pool : Slots) → StandsCall pool self.new (fresh_call pace now) }
        ensures client { self.new.client ≡ is_client side }
        ensures pace { self.new.pace ≡ self.old.pace }
        ensures slots { slots_of self.new ≡ [] }
        ensures unshut { self.new.sent.shut ≡ false }
    {
        self.side = side;
        self.rtt = Rtt::new(self.pace.prompt);
        self.cwnd = Cwnd::new(self.pace.window, self.pace.prompt);
        self.owed = None;
        self.heard = now;
        self.spoke = now;
    }

    /// Gives all its slots back; it is idle.
    pub fn clear(&mut self, pool: &mut Pool)
        requires { Holds pool.old (slots_of self.old) }
        ensures idle { IsIdle self.new }
        ensures slots { slots_of self.new ≡ [] }
        ensures bytes { pool.new.bytes ≡ pool.old.bytes }
        ensures keeps { Keeps pool.old pool.new (slots_of self.old) (slots_of self.new) }
        ensures same { IsSameEnd self.old self.new }
    {
        self.received.drop_all(pool);
        self.sent.drop_all(pool);
    }
}
