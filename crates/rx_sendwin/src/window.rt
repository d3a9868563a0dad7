ghost use Rattle.std.specs.Prelude.{◌≡◌, ◌≤◌, ◌+◌, ◌-◌, ◌/◌, ◌&&◌, ◌==◌, length, [], false, IfOk};
ghost use Rattle.rx_rules.specs.Sent.{Sent, nothing_sent, piece_at, pieces_by, counting_by, held_pieces};
ghost use Rattle.rx_rules.specs.Sent.{is_all_given, is_all_acked, is_all_known};
ghost use Rattle.rx_pool.specs.Pool.{Slots};
ghost use Rattle.rx_pool.specs.Held.{Holds, Keeps};
ghost use Rattle.rx_sendwin.specs.Window.{SendWindow, piece_slots, StandsSent};

use crate::lost::Lost;
use crate::piece::HeldPiece;
use crate::pieces::free_front;
use arrayvec::ArrayVec;
use rx_model::wire::{FIRST_PEER_WINDOW, PIECE_BYTES};
use rx_pool::Pool;
use std::alloc::{AllocError, Global};
use std::collections::VecDeque;
use std::marker::Model;

mod acks;
mod giving;
mod writing;

/// Bytes of a full piece.
pub(crate) const PIECE: u64 = PIECE_BYTES as u64;

/// The sending window of one stream: the pieces that aren't hard acknowledged, in slots of a pool.
#[derive(Debug, Drop)]
pub struct SendWin {
    width: u32,
    /// How many bytes were accepted.
    total: u64,
    shut: bool,
    /// How many pieces are hard acknowledged.
    acked: u32,
    /// How many pieces were given.
    given: u32,
    /// The marks in force, from the piece behind the acknowledged ones on.
    soft: ArrayVec<bool, 255>,
    /// How many of them from the first on are set.
    low: u32,
    /// How many pieces are in flight.
    flight: u32,
    peer_window: u32,
    /// The pieces behind the acknowledged ones, in order of their seqs.
    pieces: VecDeque<HeldPiece>,
    /// How many givings there were.
    orders: u64,
    /// How many of them before the latest that was made as a piece's time was up.
    since: u64,
    lost: Lost,
}

impl Model for SendWin {
    ghost use Rattle.std.specs.Prelude.{◌≡◌, ◌≤◌};
    ghost use Rattle.rx_sendwin.specs.Window.{SendWindow, IsTied};
    ghost use Rattle.rx_sendwin.specs.Lost.{AreLost, order_in};
    ghost use Rattle.std.specs.VecDeque.{deque_capacity};

    ghost Value = { SendWindow };

    ghost view = { λ w. record {
      width = w.width;
      total = w.total;
      shut = w.shut;
      acked = w.acked;
      given = w.given;
      soft = w.soft.items;
      peer_window = w.peer_window;
      pieces = w.pieces.items;
      orders = w.orders;
      since = w.since;
    } };

    ghost invariant = { λ w. (w.width ≤ deque_capacity w.pieces) × IsTied (record {
      width = w.width;
      total = w.total;
      shut = w.shut;
      acked = w.acked;
      given = w.given;
      soft = w.soft.items;
      peer_window = w.peer_window;
      pieces = w.pieces.items;
      orders = w.orders;
      since = w.since;
    }) w.low w.flight × AreLost w.acked w.given w.since w.soft.items (order_in w.pieces.items) w.lost };
}

impl SendWin {
    ghost use Rattle.rx_model.specs.declared.wire.TheConstants.{MIN_WINDOW, MAX_WINDOW, PIECE_BYTES};

    /// An empty window of so many pieces, with all the memory that it will need.
    pub fn make(alloc: Global, window: u32) -> Result<SendWin, AllocError>
        requires least { MIN_WINDOW ≤ window }
        requires most { window ≤ MAX_WINDOW }
        ensures empty { IfOk result (λ w. (pool : Slots) → StandsSent pool w nothing_sent) }
        ensures slots { IfOk result (λ w. piece_slots w ≡ []) }
        ensures width { IfOk result (λ w. w.width ≡ window) }
        ensures unshut { IfOk result (λ w. w.shut ≡ false) }
    {
        let pieces = VecDeque::with_capacity(alloc, window as usize)?;
        Ok(SendWin {
            width: window,
            total: 0,
            shut: false,
            acked: 0,
            given: 0,
            soft: ArrayVec::new(),
            low: 0,
            flight: 0,
            peer_window: FIRST_PEER_WINDOW,
            pieces,
            orders: 0,
            since: 0,
            lost: Lost::none(),
        })
    }

    /// How many pieces are held.
    pub fn held(&self) -> u32
        ensures count { result ≡ length (piece_slots self.now) }
        ensures most { result ≤ MAX_WINDOW }
        ensures answered { (pool : Slots) (s : Sent) → StandsSent pool self.now s → result ≡ held_pieces s }
    {
        self.pieces.len() as u32
    }

    /// Whether the stream is shut.
    pub fn is_shut(&self) -> bool
        ensures value { result ≡ self.now.shut }
        ensures answered { (pool : Slots) (s : Sent) → StandsSent pool self.now s → result ≡ s.shut }
    {
        self.shut
    }

    /// How many pieces there are.
    pub(crate) fn count(&self) -> u64
        ensures { result ≡ pieces_by self.now.total self.now.shut }
    {
        let opened = (self.total + (PIECE - 1)) / PIECE;
        if self.shut {
            return opened.max(1);
        }
        opened
    }

    /// How many of them count.
    pub(crate) fn counting(&self) -> u64
        ensures { result ≡ counting_by self.now.total self.now.shut }
    {
        if self.shut {
            return ((self.total + (PIECE - 1)) / PIECE).max(1);
        }
        self.total.saturating_sub(1) / PIECE
    }

    /// Whether the stream is shut and each piece was sent.
    pub fn all_sent(&self) -> bool
        ensures value { result ≡ (self.now.shut && (self.now.given == pieces_by self.now.total self.now.shut)) }
        ensures answered { (pool : Slots) (s : Sent) → StandsSent pool self.now s → result ≡ is_all_given s }
    {
        self.shut && self.given as u64 == self.count()
    }

    /// Whether the stream is shut and each piece is hard acknowledged.
    pub fn all_acked(&self) -> bool
        ensures value { result ≡ (self.now.shut && (self.now.acked == pieces_by self.now.total self.now.shut)) }
        ensures answered { (pool : Slots) (s : Sent) → StandsSent pool self.now s → result ≡ is_all_acked s }
    {
        self.shut && self.acked as u64 == self.count()
    }

    /// Whether the stream is shut, and each piece was sent and is acknowledged, hard or soft.
    pub fn all_known(&self) -> bool
        ensures answered { (pool : Slots) (s : Sent) → StandsSent pool self.now s → result ≡ is_all_known s }
    {
        self.all_sent() && self.flight == 0
    }

    /// Whether a piece has the last mark.
    pub fn is_last(&self, seq: u32) -> bool
        ensures { (pool : Slots) (s : Sent) → StandsSent pool self.now s → result ≡ (piece_at s seq).last }
    {
        self.shut && seq as u64 == self.count()
    }

    /// All slots are given back, and the window is as `make` gave it.
    pub fn drop_all(&mut self, pool: &mut Pool)
        requires { Holds pool.old (piece_slots self.old) }
        ensures empty { (any : Slots) → StandsSent any self.new nothing_sent }
        ensures slots { piece_slots self.new ≡ [] }
        ensures bytes { pool.new.bytes ≡ pool.old.bytes }
        ensures keeps { Keeps pool.old pool.new (piece_slots self.old) (piece_slots self.new) }
        ensures width { self.new.width ≡ self.old.width }
        ensures unshut { self.new.shut ≡ false }
    {
        let held = self.pieces.len();
        free_front(&mut self.pieces, pool, held);
        self.total = 0;
        self.shut = false;
        self.acked = 0;
        self.given = 0;
        self.soft.clear();
        self.low = 0;
        self.flight = 0;
        self.peer_window = FIRST_PEER_WINDOW;
        self.orders = 0;
        self.since = 0;
        self.lost = Lost::none();
    }
}
