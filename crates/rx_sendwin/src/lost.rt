ghost use Rattle.std.specs.Prelude.{ℕ, suc, ◌≡◌, ◌≤◌, ◌<◌, ◌+◌, ◌-◌, ◌^◌, if◌then◌else◌, Some, None, true};
ghost use Rattle.std.specs.VecDeque.{deque_len};
ghost use Rattle.rx_sendwin.specs.Marks.{is_acked_by, flight_by};
ghost use Rattle.rx_sendwin.specs.Lost.{AreLost, Counts, order_in};

use crate::marks::mark_at;
use crate::piece::HeldPiece;
use std::collections::VecDeque;

/// What a window keeps of its lost pieces: the lowest that enough others overtook, the lowest that is late, and how
/// many are on their way.
#[derive(Clone, Copy, Debug, PartialEq, Eq)]
pub struct Lost {
    pub overtaken: Option<u32>,
    pub late: Option<u32>,
    pub under_way: u32,
}

/// The orders of the three latest givings of marked pieces; 0 where there are fewer.
#[derive(Clone, Copy, Debug, PartialEq, Eq)]
struct Latest {
    first: u64,
    second: u64,
    third: u64,
}

impl Lost {
    /// Of a window that has no piece.
    pub fn none() -> Lost
        ensures { result ≡ record { overtaken = None; late = None; under_way = 0 } }
    {
        Lost {
            overtaken: None,
            late: None,
            under_way: 0,
        }
    }

    /// A piece below all others comes that isn't acknowledged.
    fn with(self, seq: u32, overtaken: bool, late: bool) -> Lost
        requires { self.under_way < 2 ^ 32 - 1 }
        ensures overtaken { result.overtaken ≡ (if overtaken then Some seq else self.overtaken) }
        ensures late { result.late ≡ (if late then Some seq else self.late) }
        ensures under_way { result.under_way ≡ (if late then self.under_way else self.under_way + 1) }
    {
        Lost {
            overtaken: if overtaken { Some(seq) } else { self.overtaken },
            late: if late { Some(seq) } else { self.late },
            under_way: if late {
                self.under_way
            } else {
                self.under_way + 1
            },
        }
    }
}

impl Latest {
    /// One giving more.
    fn with(self, order: u64) -> Latest
        ensures above { (o n : ℕ) → Counts self o n → o < order → Counts result o (suc n) }
        ensures below { (o n : ℕ) → Counts self o n → order ≤ o → Counts result o n }
    {
        if order > self.first {
            Latest {
                first: order,
                second: self.first,
                third: self.second,
            }
        } else if order > self.second {
            Latest {
                first: self.first,
                second: order,
                third: self.second,
            }
        } else if order > self.third {
            Latest {
                first: self.first,
                second: self.second,
                third: order,
            }
        } else {
            self
        }
    }
}

/// Looks through the pieces that were given, from the last one down.
pub fn lost_among(
    acked: u32,
    given: u32,
    since: u64,
    soft: &[bool],
    pieces: &VecDeque<HeldPiece>,
) -> Lost
    requires acked { acked ≤ given }
    requires held { given ≤ acked + deque_len pieces.now }
    ensures { AreLost acked given since soft.now (order_in pieces.now.items) result }
{
    let mut lost = Lost::none();
    let mut latest = Latest {
        first: 0,
        second: 0,
        third: 0,
    };
    let mut seq = given;
    while seq > acked {
        let place = (seq - acked - 1) as usize;
        let order = pieces[place].order();
        if mark_at(soft, place) {
            latest = latest.with(order);
        } else {
            lost = lost.with(seq, order < latest.third, order <= since);
        }
        seq -= 1;
    }
    lost
}

/// What `lost_among` answers, with no look through the pieces where none is acknowledged and each is known to be on
/// its way (`all`).
pub fn lost_behind(
    all: bool,
    acked: u32,
    given: u32,
    since: u64,
    soft: &[bool],
    pieces: &VecDeque<HeldPiece>,
) -> Lost
    requires acked { acked ≤ given }
    requires held { given ≤ acked + deque_len pieces.now }
    requires flight { all ≡ true → flight_by (is_acked_by acked soft.now) given ≡ given - acked }
    requires later { all ≡ true → (k : ℕ) → acked < k → k ≤ given →
        since < order_in pieces.now.items (k - suc acked) }
    ensures { AreLost acked given since soft.now (order_in pieces.now.items) result }
{
    if all {
        return Lost {
            overtaken: None,
            late: None,
            under_way: given - acked,
        };
    }
    lost_among(acked, given, since, soft, pieces)
}
