//! The words that are still to be read.

ghost use Rattle.std.specs.Prelude.{◌≡◌, ◌++◌, [], map, IfNone};
ghost use Rattle.std.specs.Option.{option_copied, option_to_list};
ghost use Rattle.std.specs.String.{string_bytes};

use std::marker::Model;

/// Words that are still to be read.
#[derive(Drop)]
pub struct Words<'a> {
    words: &'a [String],
}

impl<'a> Model for Words<'a> {
    ghost use Rattle.std.specs.Prelude.{List, ℕ, map};
    ghost use Rattle.std.specs.String.{string_bytes};

    ghost Value = { List (List ℕ) };

    ghost view = { λ w. map string_bytes w.words.now };
}

impl<'a> Words<'a> {
    /// All these words.
    pub fn of(words: &'a [String]) -> Words<'a>
        ensures { result ≡ map string_bytes words.now }
    {
        Words { words }
    }

    /// Takes the next word.
    pub fn next(&mut self) -> Option<&'a str>
        ensures next { self.old ≡ option_to_list (option_copied result) ++ self.new }
        ensures ended { IfNone result (self.old ≡ []) }
    {
        let (word, rest) = self.words.split_first()?;
        self.words = rest;
        Some(word.as_str())
    }
}
