//! Writing to a buffer, from a place on.

ghost use Rattle.std.specs.Prelude.{◌≡◌, ◌≤◌, ◌+◌, length};
ghost use Rattle.byteorder.specs.Endian.{big_bytes};
ghost use Rattle.rx_model.specs.Message.{IsBytes};
ghost use Rattle.rx_packet.specs.Puts.{Puts};

use byteorder::{BigEndian, ByteOrder};

/// Writes bytes at a place, and answers the place behind them.
pub fn put(to: &mut [u8], at: usize, bytes: &[u8]) -> usize
    requires { at + length bytes.now ≤ length to.old }
    ensures puts { Puts to.old to.new at result bytes.now }
    ensures bytes { IsBytes to.new }
{
    let end = at + bytes.len();
    to[at..end].copy_from_slice(bytes);
    end
}

/// Writes a number in four bytes at a place, the highest byte first, and answers the place behind them.
pub fn put_u32(to: &mut [u8], at: usize, number: u32) -> usize
    requires { at + 4 ≤ length to.old }
    ensures { Puts to.old to.new at result (big_bytes 4 number) }
{
    let mut bytes = [0u8; 4];
    BigEndian::write_u32(&mut bytes, number);
    put(to, at, &bytes)
}

/// Writes a number in two bytes at a place, the highest byte first, and answers the place behind them.
pub fn put_u16(to: &mut [u8], at: usize, number: u16) -> usize
    requires { at + 2 ≤ length to.old }
    ensures { Puts to.old to.new at result (big_bytes 2 number) }
{
    let mut bytes = [0u8; 2];
    BigEndian::write_u16(&mut bytes, number);
    put(to, at, &bytes)
}
