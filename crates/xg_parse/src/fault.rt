//! Why tokens are no text of the grammar.

ghost use Rattle.std.specs.Prelude.{◌≡◌};

use crate::out_word::OutWord;
use crate::terminal::Terminal;
use std::error::Error;
use std::fmt;

/// The first token that no text of the grammar has there, with its line, counted from 1. The end
/// of the text counts as a token on its last line.
#[derive(Clone, Copy, Debug)]
pub enum ParseFault {
    /// The token is refused, and `want` is the first terminal of the grammar that could stand there.
    Unexpected { line: u32, want: Terminal },
    /// The token is a word of other interface languages.
    OutByName { line: u32, word: OutWord },
    /// There is no memory for the tree.
    OutOfMemory,
}

impl fmt::Display for ParseFault {
    ghost use Rattle.std.specs.Prelude.{Some};
    ghost use Rattle.xg_parse.specs.Refusals.{refusal_text};

    ghost output = { λ fault. Some (refusal_text fault) };

    fn fmt<W: fmt::Write>(&self, f: &mut fmt::Formatter<W>) -> fmt::Result {
        match self {
            ParseFault::Unexpected { want, .. } => write!(f, "unexpected {want}"),
            ParseFault::OutByName { word, .. } => write!(f, "outbyname {word}"),
            ParseFault::OutOfMemory => f.write_str("out of memory"),
        }
    }
}

impl Error for ParseFault {}
