//! The words behind the command, part by part: plain words, and options with their values.

ghost use Rattle.std.specs.Prelude.{◌≡◌, ◌++◌, ◌∷◌, [], if◌then◌else◌, map, IfNone, option_map, Some, None};
ghost use Rattle.std.specs.Option.{option_copied, option_to_list};
ghost use Rattle.std.specs.String.{string_bytes};
ghost use Rattle.rx_words.specs.Parts.{from_option, is_dashed, parts_after, parts_of, valued, Bad, Plain};
ghost use Rattle.rx_words.specs.Reading.{part_of};

use crate::words::Words;
use std::marker::Model;

/// It stands before the names of options.
const MINUS: char = '-';

/// It parts an option's name from its value.
const EQUALS: char = '=';

/// A part of the words.
#[derive(Clone, Copy, Debug)]
pub enum WordPart<'a> {
    Plain(&'a str),
    /// An option's name, and its value.
    Given(&'a str, &'a str),
    /// What no command has: a single `-` before a plain word, or an option without its value.
    Bad,
}

/// The parts of the words that are still to be read.
#[derive(Drop)]
pub struct Parts<'a> {
    words: Words<'a>,
    /// Whether `--` stood before them.
    is_plain: bool,
}

impl<'a> Model for Parts<'a> {
    ghost use Rattle.std.specs.Prelude.{List};
    ghost use Rattle.rx_words.specs.Parts.{Part};
    ghost use Rattle.rx_words.specs.Reading.{parts_left};

    ghost Value = { List Part };

    ghost view = { λ p. parts_left p.is_plain p.words };
}

impl<'a> Parts<'a> {
    /// All parts of the words behind the command.
    pub fn of(words: &'a [String]) -> Parts<'a>
        ensures { result ≡ parts_of (map string_bytes words.now) }
    {
        Parts {
            words: Words::of(words),
            is_plain: false,
        }
    }

    /// Takes the next part.
    pub fn next(&mut self) -> Option<WordPart<'a>>
        ensures next { self.old ≡ option_to_list (option_map part_of result) ++ self.new }
        ensures ended { IfNone result (self.old ≡ []) }
    {
        if self.is_plain {
            return next_plain(&mut self.words);
        }
        let word = self.words.next()?;
        if word == "--" {
            self.is_plain = true;
            return next_plain(&mut self.words);
        }
        match word.strip_prefix("--") {
            Some(text) => Some(option_part(&mut self.words, text)),
            None => Some(plain_part(word)),
        }
    }
}

/// The next word, where all are plain.
fn next_plain<'a>(words: &mut Words<'a>) -> Option<WordPart<'a>>
    ensures next { map Plain words.old ≡ option_to_list (option_map part_of result) ++ map Plain words.new }
    ensures ended { IfNone result (words.old ≡ []) }
{
    let word = words.next()?;
    Some(WordPart::Plain(word))
}

/// An option by the text behind its dashes, and the words behind it.
fn option_part<'a>(words: &mut Words<'a>, text: &'a str) -> WordPart<'a>
    ensures { from_option text.entry.now (parts_after words.old) ≡ part_of result ∷ parts_after words.new None }
{
    match text.split_once(EQUALS) {
        Some((name, value)) => WordPart::Given(name, value),
        None => value_part(words, text),
    }
}

/// An option that waits for its value, the next word.
fn value_part<'a>(words: &mut Words<'a>, name: &'a str) -> WordPart<'a>
    ensures { parts_after words.old (Some name.entry.now) ≡ part_of result ∷ parts_after words.new None }
{
    let Some(value) = words.next() else {
        return WordPart::Bad;
    };
    if value.starts_with(MINUS) {
        WordPart::Bad
    } else {
        WordPart::Given(name, value)
    }
}

/// A word that is no option.
fn plain_part(word: &str) -> WordPart<'_>
    ensures { part_of result ≡ (if is_dashed word.entry.now then Bad else Plain word.entry.now) }
{
    if word.starts_with(MINUS) {
        WordPart::Bad
    } else {
        WordPart::Plain(word)
    }
}
