//! Fields of datagrams and the places of parts.

ghost use Rattle.std.specs.Prelude.{◌≡◌, ◌+◌, ◌*◌, ◌<◌, ◌≤◌, length, slice_index};
ghost use Rattle.rx_model.specs.Reading.{number_at};
ghost use Rattle.rx_jumbo.specs.Parts.{is_data_datagram, is_followed, is_jumbo, flags_place, checksum_place};
ghost use Rattle.rx_jumbo.specs.Parts.{part_place};

use crate::sizes::{LINK_BYTES, PART_BYTES};
use byteorder::{BigEndian, ByteOrder};
use rx_model::wire::{DATA, HEADER_BYTES, JUMBO};

/// The number in the four bytes from a place.
pub fn word_at(bytes: &[u8], place: usize) -> u32
    requires { place + 4 ≤ length bytes.now }
    ensures { result ≡ number_at 4 place bytes.now }
{
    BigEndian::read_u32(&bytes[place..])
}

/// The number in the two bytes from a place.
pub fn short_at(bytes: &[u8], place: usize) -> u16
    requires { place + 2 ≤ length bytes.now }
    ensures { result ≡ number_at 2 place bytes.now }
{
    BigEndian::read_u16(&bytes[place..])
}

/// The byte at a place, or 0 behind the last.
pub fn byte_at(bytes: &[u8], place: usize) -> u8
    ensures { result ≡ slice_index bytes.now place }
{
    bytes.get(place).copied().unwrap_or(0)
}

/// Whether a datagram has a whole header, and that of DATA.
pub fn is_data_datagram(bytes: &[u8]) -> bool
    ensures { result ≡ is_data_datagram bytes.now }
{
    bytes.len() >= HEADER_BYTES && bytes[20] == DATA
}

/// Whether a datagram is DATA that says of its first packet that another follows in it (`rx.h`, `RX_JUMBO_PACKET`).
pub fn is_jumbo(bytes: &[u8]) -> bool
    ensures { result ≡ is_jumbo bytes.now }
{
    is_data_datagram(bytes) && is_followed(bytes, 0)
}

/// Where a part begins.
pub fn part_place(part: u32) -> usize
    ensures { result ≡ part_place part }
{
    HEADER_BYTES + PART_BYTES * part as usize
}

/// Where a part's flags stand.
pub fn flags_place(part: u32) -> usize
    ensures { result ≡ flags_place part }
{
    if part == 0 {
        21
    } else {
        part_place(part) - LINK_BYTES
    }
}

/// Where a part's checksum stands.
pub fn checksum_place(part: u32) -> usize
    ensures { result ≡ checksum_place part }
{
    if part == 0 { 24 } else { part_place(part) - 2 }
}

/// Whether another part follows.
pub fn is_followed(bytes: &[u8], part: u32) -> bool
    ensures { result ≡ is_followed bytes.now part }
{
    byte_at(bytes, flags_place(part)) & JUMBO != 0
}
