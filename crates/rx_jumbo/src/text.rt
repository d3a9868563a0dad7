//! The text of joined datagrams: it is kept as it is given, so that a payload is copied once into it.

ghost use Rattle.std.specs.Prelude.{◌≡◌, ◌==◌, ◌<◌, ◌≤◌, ◌+◌, suc, length, take};
ghost use Rattle.rx_model.specs.Message.{IsBytes};
ghost use Rattle.rx_model.specs.Reading.{number_at};
ghost use Rattle.rx_jumbo.specs.JoinerState.{same_call};
ghost use Rattle.rx_jumbo.specs.Parts.{flags_place};
ghost use Rattle.rx_jumbo.specs.Text.{extended, goes_on, is_next};

use crate::fields::{flags_place, is_data_datagram, short_at, word_at};
use crate::sizes::{JUMBO_PARTS, LINK_BYTES};
use crate::write::put;
use rx_model::wire::{HEADER_BYTES, JUMBO};

/// Adds a datagram as the part behind the last one, and answers the text's new length.
pub fn extend(to: &mut [u8], len: usize, last: u32, bytes: &[u8]) -> usize
    requires header { HEADER_BYTES ≤ length bytes.now }
    requires mark { flags_place last < len }
    requires within { len ≤ length to.old }
    requires room { len + LINK_BYTES + length bytes.now ≤ length to.old + HEADER_BYTES }
    ensures size { result + HEADER_BYTES ≡ len + LINK_BYTES + length bytes.now }
    ensures bytes { IsBytes to.new }
    ensures text { take result to.new ≡ extended (take len to.old) last bytes.now }
{
    let place = flags_place(last);
    to[place] |= JUMBO;
    let at = put(to, len, &[bytes[21], 0, bytes[24], bytes[25]]);
    put(to, at, &bytes[HEADER_BYTES..])
}

/// Whether a datagram continues the last part.
pub fn goes_on(text: &[u8], last: u32, bytes: &[u8]) -> bool
    requires { last < JUMBO_PARTS }
    ensures { result ≡ goes_on text.now last bytes.now }
{
    is_data_datagram(text) && is_data_datagram(bytes) && is_next(text, last, bytes)
}

fn is_next(text: &[u8], last: u32, bytes: &[u8]) -> bool
    requires text { HEADER_BYTES ≤ length text.now }
    requires bytes { HEADER_BYTES ≤ length bytes.now }
    requires few { last < JUMBO_PARTS }
    ensures { result ≡ is_next text.now last bytes.now }
{
    same_call(text, bytes) && (counts(text, 12, last, bytes) && counts(text, 16, last, bytes))
}

/// Whether the number at a place is higher by the number of parts.
fn counts(text: &[u8], place: usize, last: u32, bytes: &[u8]) -> bool
    requires text { place + 4 ≤ length text.now }
    requires bytes { place + 4 ≤ length bytes.now }
    requires few { last < JUMBO_PARTS }
    ensures { result ≡ (number_at 4 place text.now + suc last == number_at 4 place bytes.now) }
{
    word_at(text, place).checked_add(last + 1) == Some(word_at(bytes, place))
}

/// Whether epoch, cid, number, userStatus, index and service are equal.
fn same_call(a: &[u8], b: &[u8]) -> bool
    requires first { HEADER_BYTES ≤ length a.now }
    requires second { HEADER_BYTES ≤ length b.now }
    ensures { result ≡ same_call a.now b.now }
{
    word_at(a, 0) == word_at(b, 0)
        && (word_at(a, 4) == word_at(b, 4)
            && (word_at(a, 8) == word_at(b, 8)
                && (a[22] == b[22] && (a[23] == b[23] && short_at(a, 26) == short_at(b, 26)))))
}
