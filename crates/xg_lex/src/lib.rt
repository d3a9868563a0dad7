//! The tokens of an interface file, each with its line, or the first fault of the text.
//!
//! A contract sees `Tokens`, a `Token` and a `LexFault` as they are written here, a `Text` as its
//! bytes and `Items` as their list, so two are equal where their parts are.
//! `Reads` and `CanStand` of `specs/Grammar.antt` say which parts a text has: blanks, comments,
//! lines that count for nothing, and tokens. `IsTokensOf` and `IsFirstFault` are said over them.
//! A token's text is copied from the file; its kind has the value of a number.
#![tactic(auto)]

mod bytes;
mod fault;
mod items;
mod lexer;
mod line;
mod number;
mod part;
mod text;
mod token;

pub use fault::LexFault;
pub use items::Items;
pub use lexer::lex;
pub use text::Text;
pub use token::{Token, TokenKind, Tokens};

#[cfg(test)]
mod tests;
