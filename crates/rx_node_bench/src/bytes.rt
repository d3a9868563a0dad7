ghost use Rattle.std.specs.Prelude.{◌≤◌, ◌+◌, length};

use std::alloc::{AllocError, Global};

/// Bytes that are offered at a time, and that a read has room for.
pub const OFFER: usize = 4096;

/// The bytes of a stream count up to 250 and begin again.
const CYCLE: usize = 251;

/// How many bytes a stream goes through before it begins at the same place of the block.
const PERIOD: usize = 256 * CYCLE;

/// The bytes of a stream: those from each place of the period on lie together, as many as are offered at a time.
pub fn block(alloc: Global) -> Result<Vec<u8>, AllocError> {
    let mut bytes = Vec::with_capacity(alloc, PERIOD + OFFER)?;
    for place in 0..PERIOD + OFFER {
        bytes.push((place % CYCLE) as u8)?;
    }
    Ok(bytes)
}

/// The next bytes of a stream of so many, of which some were said.
pub fn next_bytes(block: &[u8], said: u64, bytes: u64) -> &[u8]
    requires { said ≤ bytes }
    ensures { said + length result.now ≤ bytes }
{
    let place = (said % PERIOD as u64) as usize;
    let (_before, rest) = block.split_at(place.min(block.len()));
    let count = (bytes - said).min(rest.len().min(OFFER) as u64) as usize;
    let (next, _later) = rest.split_at(count);
    next
}

/// The checksum with the first bytes of what was read, so many.
#[inline(never)]
pub fn fold(sum: u64, read: &[u8], count: usize) -> u64 {
    let (bytes, _rest) = read.split_at(count.min(read.len()));
    let mut total = sum;
    for byte in bytes {
        total = total.wrapping_mul(31).wrapping_add(u64::from(*byte));
    }
    total
}
