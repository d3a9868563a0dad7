//! Words that stand for bytes.

ghost use Rattle.std.specs.Prelude.{◌≡◌, IfOk};
ghost use Rattle.std.specs.List.{list_all};
ghost use Rattle.rx_script.specs.Numbers.{bytes_in, hex_bytes, is_lower_hex, key_in, repeated, number_within};
ghost use Rattle.rx_script.specs.declared.limits.TheConstants.{MAX_BYTES};

use crate::limits::{KEY_BYTES, MAX_BYTES};
use crate::marks::STAR;
use crate::number::number_within;
use crate::pieces::Pieces;
use crate::spelled::Spelled;
use rx_model::Bytes;
use std::alloc::{AllocError, Global};

/// The bytes that a word stands for: hex in lower case, `-` for none, or `N*BB` for N times the
/// byte BB.
pub fn bytes_in(alloc: Global, word: &str) -> Result<Option<Spelled>, AllocError>
    ensures { IfOk result (λ bytes. bytes ≡ bytes_in word.now) }
{
    if word == "-" {
        return Ok(Some(Spelled::of(Bytes::of(Vec::new(alloc)))));
    }
    let mut parts = Pieces::of(word, STAR);
    let Some(first) = parts.next() else {
        return Ok(None);
    };
    let Some(byte) = parts.next() else {
        if first.is_empty() {
            return Ok(None);
        }
        return listed(alloc, first);
    };
    if parts.next().is_some() {
        return Ok(None);
    }
    repeated(alloc, first, byte)
}

/// The bytes of a word of hex digits alone.
fn listed(alloc: Global, word: &str) -> Result<Option<Spelled>, AllocError>
    ensures { IfOk result (λ bytes. bytes ≡ hex_bytes word.now) }
{
    match hex_bytes(alloc, word)? {
        Some(bytes) => Ok(Some(Spelled::of(bytes))),
        None => Ok(None),
    }
}

/// The bytes that digits spell in lower case, two digits a byte.
fn hex_bytes(alloc: Global, word: &str) -> Result<Option<Bytes>, AllocError>
    ensures { IfOk result (λ bytes. bytes ≡ hex_bytes word.now) }
{
    if !has_lower_hex_alone(word.as_bytes()) || word.len() > 2 * MAX_BYTES as usize {
        return Ok(None);
    }
    match hex::decode(alloc, word.as_bytes()) {
        Ok(bytes) => Ok(Some(Bytes::of(bytes))),
        Err(hex::FromHexError::OutOfMemory) => Err(AllocError),
        Err(_) => Ok(None),
    }
}

fn has_lower_hex_alone(bytes: &[u8]) -> bool
    ensures { result ≡ list_all is_lower_hex bytes.now }
{
    bytes
        .iter()
        .all(|b| b.is_ascii_digit() || (b'a' <= *b && *b <= b'f'))
}

fn repeated(alloc: Global, count: &str, byte: &str) -> Result<Option<Spelled>, AllocError>
    ensures { IfOk result
        (λ bytes. bytes ≡ repeated (number_within 0 MAX_BYTES count.now) (hex_bytes byte.now)) }
{
    let Some(count) = number_within(count, 0, MAX_BYTES) else {
        return Ok(None);
    };
    let Some(bytes) = hex_bytes(alloc, byte)? else {
        return Ok(None);
    };
    match bytes.as_slice() {
        [byte] => Ok(Some(Spelled::repeated(count, *byte))),
        _ => Ok(None),
    }
}

/// The key that a word spells in lower case, two digits a byte.
pub fn key_in(word: &str) -> Option<[u8; KEY_BYTES]>
    ensures { result ≡ key_in word.now }
{
    if word.len() != 2 * KEY_BYTES || !has_lower_hex_alone(word.as_bytes()) {
        return None;
    }
    let mut key = [0; KEY_BYTES];
    match hex::decode_to_slice(word.as_bytes(), &mut key) {
        Ok(()) => Some(key),
        Err(_) => None,
    }
}
