//! What a text has, as it is handed on.

use crate::items::Items;
use crate::text::Text;

/// What a token is.
#[derive(Clone, Copy, Debug, PartialEq, Eq)]
pub enum TokenKind {
    /// A letter or `_`, and then letters, digits and `_`.
    Name,
    /// A number of at most 64 bits, with its value.
    Number(u64),
    /// One of the signs.
    Sign,
}

/// A token, as it is written, with the line that it begins on, from 1.
#[derive(Debug, Drop)]
pub struct Token {
    pub text: Text,
    pub kind: TokenKind,
    pub line: u32,
}

/// The tokens of a text in order, and the number of its last line, from 1.
#[derive(Debug, Drop)]
pub struct Tokens {
    pub items: Items<Token>,
    pub last: u32,
}
