//! Splitting a datagram into single ones (`rx_packet.h`, `RX_JUMBO_PACKET`, `struct rx_jumboHeader`).

ghost use Rattle.std.specs.Prelude.{◌≡◌, ◌<◌, ◌≤◌, ◌+◌, length, take, drop, slice_get, true, Some};
ghost use Rattle.rx_model.specs.Spelling.{header_bytes};
ghost use Rattle.rx_packet.specs.Puts.{Puts};
ghost use Rattle.rx_jumbo.specs.Parts.{parts_of, part_at, last_part, unfollowed, has_part, part_place, part_bytes};
ghost use Rattle.rx_jumbo.specs.Parts.{is_followed, part_head, own_flags, header_of, is_data_datagram};
ghost use Rattle.rx_jumbo.specs.Text.{part_header};

use crate::fields::{
    byte_at, checksum_place, flags_place, is_followed, is_jumbo, part_place, short_at, word_at,
};
use crate::sizes::JUMBO_PARTS;
use crate::write::{put, put_u16, put_u32};
use rx_model::wire::{DATA, HEADER_BYTES, JUMBO, PIECE_BYTES};

/// How many single datagrams a datagram is split into, from 1 to 16: the parts of DATA with the flag JUMBO, and 1 for
/// any other and for one that can't be split.
pub fn parts(bytes: &[u8]) -> u32
    ensures count { result ≡ length (parts_of bytes.now) }
    ensures some { 0 < result }
    ensures few { result ≤ JUMBO_PARTS }
{
    match last_part(bytes) {
        Some(last) => last + 1,
        None => 1,
    }
}

/// Writes a part, counted from 0, to the front of `to`, and answers its length in bytes. A part has the header with its
/// own seq, serial, flags and checksum, and its bytes; a datagram that isn't split is its own part 0.
pub fn part(bytes: &[u8], k: u32, to: &mut [u8]) -> usize
    requires below { k < length (parts_of bytes.now) }
    requires room { length bytes.now ≤ length to.old }
    ensures written { slice_get (parts_of bytes.now) k ≡ Some (take result to.new) }
    ensures within { result ≤ length bytes.now }
    ensures rest { drop result to.new ≡ drop result to.old }
{
    match last_part(bytes) {
        Some(_) => {
            let flags = byte_at(bytes, flags_place(k)) & !JUMBO;
            let checksum = short_at(bytes, checksum_place(k));
            let at = put_header(to, bytes, k, flags, checksum);
            put(to, at, part_bytes(bytes, k))
        }
        None => put(to, 0, bytes),
    }
}

/// The last part of a jumbo datagram that can be split.
fn last_part(bytes: &[u8]) -> Option<u32>
    ensures { result ≡ last_part bytes.now }
{
    if !is_jumbo(bytes) {
        return None;
    }
    let last = unfollowed(bytes)?;
    if has_part(bytes, last) {
        Some(last)
    } else {
        None
    }
}

/// The first part that no part follows.
fn unfollowed(bytes: &[u8]) -> Option<u32>
    ensures { result ≡ unfollowed bytes.now }
{
    (0..JUMBO_PARTS).find(|k| !is_followed(bytes, *k))
}

fn has_part(bytes: &[u8], k: u32) -> bool
    requires { 16 ≤ length bytes.now }
    ensures { result ≡ has_part bytes.now k }
{
    part_place(k) <= bytes.len() && word_at(bytes, 12).checked_add(k).is_some()
}

fn part_bytes(bytes: &[u8], k: u32) -> &[u8]
    requires begins { part_place k ≤ length bytes.now }
    requires whole { is_followed bytes.now k ≡ true → part_place k + PIECE_BYTES ≤ length bytes.now }
    ensures exact { result.now ≡ part_bytes bytes.now k }
    ensures size { part_place k + length result.now ≤ length bytes.now }
{
    let place = part_place(k);
    if is_followed(bytes, k) {
        &bytes[place..place + PIECE_BYTES]
    } else {
        &bytes[place..]
    }
}

/// Writes the header of a part with these flags and this checksum, and answers the place behind it.
fn put_header(to: &mut [u8], bytes: &[u8], k: u32, flags: u8, checksum: u16) -> usize
    requires room { HEADER_BYTES ≤ length to.old }
    requires header { HEADER_BYTES ≤ length bytes.now }
    ensures { Puts to.old to.new 0 result (part_header bytes.now k flags checksum) }
{
    let at = put_u32(to, 0, word_at(bytes, 0));
    let at = put_u32(to, at, word_at(bytes, 4));
    let at = put_u32(to, at, word_at(bytes, 8));
    let at = put_u32(to, at, word_at(bytes, 12).wrapping_add(k));
    let at = put_u32(to, at, word_at(bytes, 16).wrapping_add(k));
    let at = put(to, at, &[DATA, flags, bytes[22], bytes[23]]);
    let at = put_u16(to, at, checksum);
    put_u16(to, at, short_at(bytes, 26))
}
