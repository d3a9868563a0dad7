ghost use Rattle.std.specs.Prelude.{ℕ, not, nat_lt, nat_le, ◌&&◌, ◌||◌, IfSome, ◌≡◌, ◌≤◌, ◌<◌, ◌+◌, ◌-◌, length, take};
ghost use Rattle.std.specs.Prelude.{min};
ghost use Rattle.std.specs.Prelude.{slice_index_or, Option, Some, None, false, option_and_then};
ghost use Rattle.rx_model.specs.declared.wire.TheConstants.{MAX_WINDOW};
ghost use Rattle.rx_rules.specs.Sent.{marks_past, with_window, round_trip};
ghost use Rattle.rx_sendwin.specs.Marks.{is_acked_by, flight_by, newly_by, highest_by, leading_marks};
ghost use Rattle.rx_sendwin.specs.Pieces.{as_giving};

use crate::piece::LastGiving;
use arrayvec::ArrayVec;
use rx_model::wire::{MAX_ROUND_TRIP_MS, MAX_WINDOW};

/// The mark at a place; none past the end.
pub fn mark_at(marks: &[bool], place: usize) -> bool
    ensures { result ≡ slice_index_or marks.now place false }
{
    if place < marks.len() {
        return marks[place];
    }
    false
}

/// How many marks from the first on are set.
pub fn leading(marks: &[bool]) -> usize
    ensures { result ≡ leading_marks marks.now }
{
    let mut n = 0;
    while n < marks.len() && marks[n] {
        n += 1;
    }
    n
}

/// Whether a piece is acknowledged: it is among the first ones, or marked.
pub fn is_acked(acked: u32, marks: &[bool], seq: u32) -> bool
    ensures { result ≡ is_acked_by acked marks.now seq }
{
    if seq <= acked {
        return true;
    }
    mark_at(marks, (seq - acked - 1) as usize)
}

/// The last of the pieces given that an acknowledgement speaks of: none behind it is acknowledged.
fn last_known(acked: u32, marks: &[bool], given: u32) -> u32
    requires { acked ≤ given }
    ensures least { acked ≤ result }
    ensures most { result ≤ given }
    ensures past { (k : ℕ) → result < k → k ≤ given → is_acked_by acked marks.now k ≡ false }
{
    (acked as u64 + marks.len() as u64).min(given as u64) as u32
}

/// How many of the pieces given are not acknowledged.
pub fn count_in_flight(acked: u32, marks: &[bool], given: u32) -> u32
    requires { acked ≤ given }
    ensures value { result ≡ flight_by (is_acked_by acked marks.now) given }
    ensures most { acked + result ≤ given }
{
    let known = last_known(acked, marks, given);
    let mut n = given - known;
    for i in 0..known - acked {
        if !is_acked(acked, marks, acked + i + 1) {
            n += 1;
        }
    }
    n
}

/// The peer's window, where an ACK may tell one: 0 is read as 1, and more than the greatest as the greatest.
pub fn peer_window(before: u32, told: Option<u32>) -> u32
    requires { before ≤ MAX_WINDOW }
    ensures value { result ≡ with_window told before }
    ensures most { result ≤ MAX_WINDOW }
{
    match told {
        Some(window) => window.min(MAX_WINDOW).max(1),
        None => before,
    }
}

/// The round trip of a piece that is acknowledged now; none where it was given more than once.
pub fn trip(now: u64, given: Option<LastGiving>) -> Option<u64>
    ensures { result ≡ option_and_then (round_trip now) (as_giving given) }
{
    match given {
        Some(giving) => {
            if giving.again {
                return None;
            }
            Some(now.saturating_sub(giving.moment).min(MAX_ROUND_TRIP_MS))
        }
        None => None,
    }
}

/// How many of the pieces given are newly acknowledged, where so many were hard acknowledged and others are now.
pub fn count_newly(acked: u32, soft: &[bool], now_acked: u32, marks: &[bool], given: u32) -> u32
    requires { (acked ≤ now_acked) × (now_acked ≤ given) }
    ensures { result ≡ newly_by (is_acked_by acked soft.now) (is_acked_by now_acked marks.now) given }
{
    let known = last_known(now_acked, marks, given);
    let mut n = 0;
    for i in 0..known - acked {
        let seq = acked + i + 1;
        let before = is_acked(acked, soft, seq);
        let after = is_acked(now_acked, marks, seq);
        if is_new(before, after) {
            n += 1;
        }
    }
    n
}

/// The highest of them.
pub fn highest_newly(
    acked: u32,
    soft: &[bool],
    now_acked: u32,
    marks: &[bool],
    given: u32,
) -> Option<u32>
    requires { (acked ≤ now_acked) × (now_acked ≤ given) }
    ensures value { result ≡ highest_by (is_acked_by acked soft.now) (is_acked_by now_acked marks.now) given }
    ensures above { IfSome result (λ k. acked < k) }
    ensures within { IfSome result (λ k. k ≤ given) }
{
    let mut seq = last_known(now_acked, marks, given);
    while seq > acked {
        let before = is_acked(acked, soft, seq);
        let after = is_acked(now_acked, marks, seq);
        if is_new(before, after) {
            return Some(seq);
        }
        seq -= 1;
    }
    None
}

/// Whether a mark stands for a piece that was never given.
pub fn has_mark_past(marks: &[bool], first: u32, given: u32) -> bool
    ensures { result ≡ marks_past marks.now first given }
{
    for i in 0..marks.len() {
        if is_past(marks[i], first as u64 + i as u64, given) {
            return true;
        }
    }
    false
}

fn is_past(mark: bool, seq: u64, given: u32) -> bool
    ensures { result ≡ (mark && nat_lt given seq) }
{
    mark && (given as u64) < seq
}

fn is_new(before: bool, after: bool) -> bool
    ensures { result ≡ (not before && after) }
{
    !before && after
}

/// Whether a piece that was never given goes: it counts, and both windows let it.
pub fn goes(counts: bool, fits: bool, lets: bool) -> bool
    ensures { result ≡ (counts && (fits && lets)) }
{
    counts && fits && lets
}

/// Whether a piece asks for an acknowledgement: it is the last, or fills the window of congestion or the peer's, or
/// ends half of a prompt node's own.
pub fn asks(last: bool, fits: bool, fills: bool, prompts: bool) -> bool
    ensures { result ≡ (last || ((not fits || fills) || prompts)) }
{
    last || !fits || fills || prompts
}

/// The marks become others; of more than a window's, those past it are cut.
pub fn set_marks(soft: &mut ArrayVec<bool, 255>, marks: &[bool])
    ensures { soft.new.items ≡ take (min (length marks.now) MAX_WINDOW) marks.now }
{
    let (first, _past) = marks.split_at(marks.len().min(MAX_WINDOW as usize));
    soft.clear();
    soft.try_extend_from_slice(first).unwrap();
}
