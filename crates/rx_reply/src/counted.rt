//! Counted streams: four bytes of length, then the bytes, without padding.

ghost use Rattle.std.specs.Prelude.{◌≡◌, ◌≤◌, ◌+◌, ◌++◌, drop, length, option_map, take};
ghost use Rattle.rx_script.specs.Served.{as_counted, counted};
ghost use Rattle.rx_reply.specs.Replies.{with_rest, counted_front, download_front};

/// Bytes of a counted stream at most, without those of its length.
pub const MAX_COUNTED_BYTES: u32 = 16_777_216;

// So many bytes and those behind them, unless they are too many or not all there.
fn counted(count: u32, bytes: &[u8]) -> Option<(&[u8], &[u8])>
    ensures { option_map (λ x. (x.0.now, x.1.now)) result
        ≡ with_rest bytes.now (counted count bytes.now) }
{
    if count > MAX_COUNTED_BYTES || count as usize > bytes.len() {
        return None;
    }
    Some(bytes.split_at(count as usize))
}

// The bytes of a counted stream and those behind it.
fn counted_front(bytes: &[u8]) -> Option<(&[u8], &[u8])>
    ensures { option_map (λ x. (x.0.now, x.1.now)) result ≡ counted_front bytes.now }
{
    if bytes.len() < 4 {
        return None;
    }
    let count = u32::from_be_bytes([bytes[0], bytes[1], bytes[2], bytes[3]]);
    let (_, rest) = bytes.split_at(4);
    counted(count, rest)
}

/// The download in front of a reply and the bytes behind it; no bytes where none comes.
pub fn download_front(down: bool, reply: &[u8]) -> Option<(&[u8], &[u8])>
    ensures { option_map (λ x. (x.0.now, x.1.now)) result ≡ download_front down reply.now }
{
    if down {
        counted_front(reply)
    } else {
        Some((&[], reply))
    }
}

/// Writes into the four bytes at this place how many are behind them, of which there are at most `MAX_COUNTED_BYTES`:
/// what is from there on becomes a counted stream.
pub fn set_count(bytes: &mut [u8], at: usize)
    requires room { at + 4 ≤ length bytes.old }
    requires fits { length bytes.old ≤ at + 4 + MAX_COUNTED_BYTES }
    ensures { bytes.new ≡ take at bytes.old ++ as_counted (drop (at + 4) bytes.old) }
{
    let end = at + 4;
    let count = (bytes.len() - end) as u32;
    bytes[at..end].copy_from_slice(&count.to_be_bytes());
}
