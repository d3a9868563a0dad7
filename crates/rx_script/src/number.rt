//! Words that are numbers, hosts and codes.

ghost use Rattle.std.specs.Prelude.{◌≡◌, ◌≤◌, IfSome};
ghost use Rattle.std.specs.Char.{is_ascii_digit};
ghost use Rattle.std.specs.List.{list_all};
ghost use Rattle.rx_script.specs.Numbers.{is_decimal, number_within, octet, address, host_in, code_in};
ghost use Rattle.rx_script.specs.Words.{not_zero};

use crate::marks::{COLON, DOT, MINUS};
use crate::pieces::Pieces;
use rx_model::Host;

/// Whether a word is one or more decimal digits.
pub fn is_decimal(word: &str) -> bool
    ensures { result ≡ is_decimal word.now }
{
    !word.is_empty() && has_digits_alone(word.as_bytes())
}

fn has_digits_alone(bytes: &[u8]) -> bool
    ensures { result ≡ list_all is_ascii_digit bytes.now }
{
    bytes.iter().all(|b| b.is_ascii_digit())
}

/// The number that a word writes in decimal, where it is within the bounds.
pub fn number_within(word: &str, low: u32, high: u32) -> Option<u32>
    ensures { result ≡ number_within low high word.now }
{
    if !is_decimal(word) {
        return None;
    }
    let number = word.parse::<u32>().ok()?;
    if low <= number && number <= high {
        Some(number)
    } else {
        None
    }
}

/// The same of a long number.
pub fn long_within(word: &str, low: u64, high: u64) -> Option<u64>
    ensures { result ≡ number_within low high word.now }
{
    if !is_decimal(word) {
        return None;
    }
    let number = word.parse::<u64>().ok()?;
    if low <= number && number <= high {
        Some(number)
    } else {
        None
    }
}

/// The host that a word writes as `A.B.C.D:PORT`.
pub fn host_in(word: &str) -> Option<Host>
    ensures { result ≡ host_in word.now }
{
    let mut sides = Pieces::of(word, COLON);
    let addr = address(sides.next()?)?;
    let port = number_within(sides.next()?, 0, u16::MAX.into())?;
    if sides.next().is_some() {
        return None;
    }
    Some(Host {
        addr,
        port: port as u16,
    })
}

/// The address that a word writes as `A.B.C.D`.
fn address(word: &str) -> Option<u32>
    ensures { result ≡ address word.now }
{
    let mut parts = Pieces::of(word, DOT);
    let a = octet(parts.next()?)?;
    let b = octet(parts.next()?)?;
    let c = octet(parts.next()?)?;
    let d = octet(parts.next()?)?;
    if parts.next().is_some() {
        return None;
    }
    Some(((a * 256 + b) * 256 + c) * 256 + d)
}

fn octet(word: &str) -> Option<u32>
    ensures { result ≡ octet word.now }
{
    number_within(word, 0, u8::MAX.into())
}

/// The code that a word writes in decimal, with `-` before it where it is below 0.
pub fn code_in(word: &str) -> Option<i32>
    ensures { result ≡ code_in word.now }
{
    match word.strip_prefix(MINUS) {
        Some(digits) => {
            let below = number_within(digits, 1, 1 << 31)?;
            Some((-i64::from(below)) as i32)
        }
        None => {
            let above = number_within(word, 0, (1 << 31) - 1)?;
            Some(above as i32)
        }
    }
}

/// The code that a word writes, where it isn't 0.
pub fn fault_in(word: &str) -> Option<i32>
    ensures { result ≡ not_zero (code_in word.now) }
{
    let code = code_in(word)?;
    if code == 0 { None } else { Some(code) }
}
