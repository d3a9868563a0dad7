use std::alloc::{AllocError, Global};

/// The bytes of a row. Its words are hex, and `N*BB`, which is N times the byte BB. What is none of these stands for
/// nothing.
pub fn bytes_of(alloc: Global, row: &str) -> Result<Vec<u8>, AllocError> {
    let mut bytes = Vec::new(alloc);
    for word in row.split(' ') {
        match word.split_once('*') {
            Some((count, byte)) => push_many(alloc, &mut bytes, count, byte)?,
            None => push_hex(alloc, &mut bytes, word)?,
        }
    }
    Ok(bytes)
}

/// The bytes of a word of hex.
fn push_hex(alloc: Global, bytes: &mut Vec<u8>, word: &str) -> Result<(), AllocError> {
    if let Ok(more) = hex::decode(alloc, word) {
        bytes.extend_from_slice(&more)?;
    }
    Ok(())
}

/// So many times those bytes.
fn push_many(
    alloc: Global,
    bytes: &mut Vec<u8>,
    count: &str,
    word: &str,
) -> Result<(), AllocError> {
    for _ in 0..count.parse::<u32>().unwrap_or(0) {
        push_hex(alloc, bytes, word)?;
    }
    Ok(())
}
