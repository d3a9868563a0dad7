//! Words that are numbers and hosts.

ghost use Rattle.std.specs.Prelude.{◌≡◌, ◌≤◌, IfSome};
ghost use Rattle.std.specs.Char.{is_ascii_digit};
ghost use Rattle.std.specs.List.{list_all};
ghost use Rattle.rx_words.specs.Numbers.{is_decimal, number_within, octet, address, host_in};

use crate::pieces::Pieces;
use rx_model::Host;

/// It parts the port from the address.
const COLON: char = ':';

/// It parts the numbers of an address.
const DOT: char = '.';

/// Whether a word is one or more decimal digits.
fn is_decimal(word: &str) -> bool
    ensures { result ≡ is_decimal word.now }
{
    !word.is_empty() && has_digits_alone(word.as_bytes())
}

fn has_digits_alone(bytes: &[u8]) -> bool
    ensures { result ≡ list_all is_ascii_digit bytes.now }
{
    bytes.iter().all(|b| b.is_ascii_digit())
}

/// The number that a word writes in decimal, where it is within the bounds.
pub fn number_within(word: &str, low: u64, high: u64) -> Option<u64>
    ensures read { result ≡ number_within low high word.now }
    ensures within { IfSome result (λ n. n ≤ high) }
{
    if !is_decimal(word) {
        return None;
    }
    let number = word.parse::<u64>().ok()?;
    if low <= number && number <= high {
        Some(number)
    } else {
        None
    }
}

/// The host that a word writes as `A.B.C.D:PORT`.
pub fn host_in(word: &str) -> Option<Host>
    ensures { result ≡ host_in word.now }
{
    let mut sides = Pieces::of(word, COLON);
    let addr = address(sides.next()?)?;
    let port = number_within(sides.next()?, 0, u16::MAX.into())?;
    if sides.next().is_some() {
        return None;
    }
    Some(Host {
        addr,
        port: port as u16,
    })
}

/// The address that a word writes as `A.B.C.D`.
fn address(word: &str) -> Option<u32>
    ensures { result ≡ address word.now }
{
    let mut parts = Pieces::of(word, DOT);
    let a = octet(parts.next()?)?;
    let b = octet(parts.next()?)?;
    let c = octet(parts.next()?)?;
    let d = octet(parts.next()?)?;
    if parts.next().is_some() {
        return None;
    }
    Some(((u32::from(a) * 256 + u32::from(b)) * 256 + u32::from(c)) * 256 + u32::from(d))
}

/// One number of an address.
fn octet(word: &str) -> Option<u8>
    ensures { result ≡ octet word.now }
{
    let octet = number_within(word, 0, u8::MAX.into())?;
    Some(octet as u8)
}
