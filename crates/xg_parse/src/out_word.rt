//! The words that are out by name.

ghost use Rattle.std.specs.Prelude.{◌≡◌};
ghost use Rattle.xg_parse.specs.Words.{out_word_text};

use std::fmt;

/// A word of other interface languages, which no text of the grammar has.
#[derive(Clone, Copy, Debug)]
pub enum OutWord {
    Customized,
    Special,
    SplitPrefix,
    Float,
    Double,
    Quadruple,
    Program,
    Version,
}

impl OutWord {
    /// The word as it is written.
    pub fn as_str(self) -> &'static str
        ensures { result.now ≡ out_word_text self }
    {
        match self {
            OutWord::Customized => "customized",
            OutWord::Special => "special",
            OutWord::SplitPrefix => "splitprefix",
            OutWord::Float => "float",
            OutWord::Double => "double",
            OutWord::Quadruple => "quadruple",
            OutWord::Program => "program",
            OutWord::Version => "version",
        }
    }
}

impl fmt::Display for OutWord {
    ghost use Rattle.std.specs.Prelude.{Some};
    ghost use Rattle.xg_parse.specs.Words.{out_word_text};

    ghost output = { λ word. Some (out_word_text word) };

    fn fmt<W: fmt::Write>(&self, f: &mut fmt::Formatter<W>) -> fmt::Result {
        f.write_str(self.as_str())
    }
}
