ghost use Rattle.std.specs.Prelude.{◌≡◌, ◌≤◌, ◌<◌, ◌+◌, ◌-◌, length, map, set, drop, slice_index_or, [], ◌∷◌, ◌++◌};
ghost use Rattle.std.specs.Prelude.{None};
ghost use Rattle.std.specs.VecDeque.{deque_len, deque_capacity};
ghost use Rattle.rx_model.specs.declared.wire.TheConstants.{PAYLOAD_BYTES};
ghost use Rattle.rx_pool.specs.Held.{Holds, Keeps};
ghost use Rattle.rx_sendwin.specs.Pieces.{slots_in, seen_at, giving_at, last_size, AllSized, AllTimed};

use crate::piece::HeldPiece;
use rx_pool::Pool;
use std::collections::VecDeque;

/// A new piece comes behind the others, with these bytes.
pub fn push_piece(pieces: &mut VecDeque<HeldPiece>, pool: &mut Pool, bytes: &[u8])
    requires room { deque_len pieces.old < deque_capacity pieces.old }
    requires size { length bytes.now ≤ PAYLOAD_BYTES }
    requires free { 0 < length pool.old.free }
    requires holds { Holds pool.old (slots_in pieces.old.items) }
    ensures seen { map (seen_at pool.new) pieces.new.items ≡ map (seen_at pool.old) pieces.old.items ++ bytes.now ∷ [] }
    ensures givings { map giving_at pieces.new.items ≡ map giving_at pieces.old.items ++ None ∷ [] }
    ensures filled { last_size pieces.new.items ≡ length bytes.now }
    ensures sized { AllSized pieces.old.items → AllSized pieces.new.items }
    ensures timed { AllTimed pieces.old.items → AllTimed pieces.new.items }
    ensures keeps { Keeps pool.old pool.new (slots_in pieces.old.items) (slots_in pieces.new.items) }
    ensures len { deque_len pieces.new ≡ deque_len pieces.old + 1 }
    ensures capacity { deque_capacity pieces.new ≡ deque_capacity pieces.old }
{
    let slot = pool.get().unwrap();
    pool.put(&slot, 0, bytes);
    pieces.push_back_reserved(HeldPiece {
        slot,
        size: bytes.len() as u32,
        given: None,
    });
}

/// Bytes come to the end of the last piece, which has `at` of them.
pub fn fill_piece(pieces: &mut VecDeque<HeldPiece>, pool: &mut Pool, at: u32, bytes: &[u8])
    requires some { 0 < deque_len pieces.old }
    requires last { last_size pieces.old.items ≡ at }
    requires size { at + length bytes.now ≤ PAYLOAD_BYTES }
    requires sized { AllSized pieces.old.items }
    requires holds { Holds pool.old (slots_in pieces.old.items) }
    ensures seen { let before = map (seen_at pool.old) pieces.old.items in
        let place = deque_len pieces.old - 1 in
        map (seen_at pool.new) pieces.new.items ≡ set before place (slice_index_or before place [] ++ bytes.now) }
    ensures givings { map giving_at pieces.new.items ≡ map giving_at pieces.old.items }
    ensures filled { last_size pieces.new.items ≡ at + length bytes.now }
    ensures sized { AllSized pieces.new.items }
    ensures timed { AllTimed pieces.old.items → AllTimed pieces.new.items }
    ensures keeps { Keeps pool.old pool.new (slots_in pieces.old.items) (slots_in pieces.new.items) }
    ensures len { deque_len pieces.new ≡ deque_len pieces.old }
    ensures capacity { deque_capacity pieces.new ≡ deque_capacity pieces.old }
{
    let place = pieces.len() - 1;
    pool.put(&pieces[place].slot, at, bytes);
    pieces[place].size = at + bytes.len() as u32;
}

/// The slots of the first pieces are given back.
pub fn free_front(pieces: &mut VecDeque<HeldPiece>, pool: &mut Pool, count: usize)
    requires count { count ≤ deque_len pieces.old }
    requires holds { Holds pool.old (slots_in pieces.old.items) }
    ensures rest { pieces.new.items ≡ drop count pieces.old.items }
    ensures bytes { pool.new.bytes ≡ pool.old.bytes }
    ensures keeps { Keeps pool.old pool.new (slots_in pieces.old.items) (slots_in pieces.new.items) }
    ensures len { deque_len pieces.new + count ≡ deque_len pieces.old }
    ensures capacity { deque_capacity pieces.new ≡ deque_capacity pieces.old }
{
    for _ in 0..count {
        let first = pieces.pop_front().unwrap();
        pool.give(first.slot);
    }
}
