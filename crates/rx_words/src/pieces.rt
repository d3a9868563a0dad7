//! Texts cut at a character, piece by piece.

ghost use Rattle.std.specs.Prelude.{◌≡◌, ◌++◌, ◌∷◌, ◌==◌, ◌<◌, [], IfNone};
ghost use Rattle.std.specs.List.{slice_split};
ghost use Rattle.std.specs.Option.{option_copied, option_to_list};
ghost use Rattle.rx_words.specs.Reading.{pieces_left};

use std::marker::Model;

/// The pieces of a text between separators that are still to be read.
#[derive(Drop)]
pub struct Pieces<'a> {
    separator: char,
    rest: Option<&'a str>,
}

impl<'a> Model for Pieces<'a> {
    ghost use Rattle.std.specs.Prelude.{List, ℕ, ◌<◌};
    ghost use Rattle.rx_words.specs.Reading.{pieces_left};
    ghost use Rattle.std.specs.Option.{option_copied};

    ghost Value = { List (List ℕ) };

    ghost view = { λ p. pieces_left p.separator (option_copied p.rest) };

    ghost invariant = { λ p. p.separator < 128 };
}

impl<'a> Pieces<'a> {
    /// All pieces of a text.
    pub fn of(text: &'a str, separator: char) -> Pieces<'a>
        requires { separator < 128 }
        ensures { result ≡ slice_split (λ b. b == separator) text.now }
    {
        Pieces {
            separator,
            rest: Some(text),
        }
    }

    /// Takes the next piece.
    pub fn next(&mut self) -> Option<&'a str>
        ensures next { self.old ≡ option_to_list (option_copied result) ++ self.new }
        ensures ended { IfNone result (self.old ≡ []) }
    {
        let (piece, rest) = cut(self.rest?, self.separator);
        self.rest = rest;
        Some(piece)
    }
}

/// The first piece of a text, and what follows its separator.
fn cut(text: &str, separator: char) -> (&str, Option<&str>)
    requires { separator < 128 }
    ensures { slice_split (λ b. b == separator) text.now
        ≡ result.0.now ∷ pieces_left separator (option_copied result.1) }
{
    match text.split_once(separator) {
        Some((piece, rest)) => (piece, Some(rest)),
        None => (text, None),
    }
}
