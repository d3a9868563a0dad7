//! The words as `clap` splits them.

ghost use Rattle.std.specs.Prelude.{◌≡◌, IfOk, IfErr, option_map};
ghost use Rattle.std.specs.Option.{option_copied};
ghost use Rattle.rx_words.specs.declared.fault.WordsFault.TheVariants as faults;

use crate::fault::WordsFault;
use crate::names::{CommandName, OptionName};
use clap::error::ErrorKind;
use clap::{Arg, ArgMatches, Command};
use std::alloc::{AllocError, Global};
use xg_lex::Text;

/// The words behind a command as `clap` splits them, where it takes them.
#[derive(Drop)]
pub struct Split<'a> {
    alloc: Global,
    matches: Option<ArgMatches<'a>>,
}

impl<'a> Split<'a> {
    /// Splits the words by one command, without subcommands, help or version.
    pub fn of(
        alloc: Global,
        command: CommandName,
        words: &'a [String],
    ) -> Result<Split<'a>, WordsFault>
        ensures { IfErr result (λ fault. fault ≡ faults.OutOfMemory) }
    {
        let parser = parser_of(alloc, command)?;
        match parser.try_get_matches_from(words) {
            Ok(matches) => Ok(Split {
                alloc,
                matches: Some(matches),
            }),
            Err(error) => if error.kind() == ErrorKind::OutOfMemory {
                Err(WordsFault::OutOfMemory)
            } else {
                Ok(Split {
                    alloc,
                    matches: None,
                })
            },
        }
    }

    /// The text of a plain word by its place, which the check found to be `own`.
    pub fn plain(&self, place: &str, own: &str) -> Result<Text, AllocError>
        ensures { IfOk result (λ text. text ≡ own.now) }
    {
        let split = self
            .matches
            .as_ref()
            .and_then(|matches| matches.get_str(place));
        copied(self.alloc, agreed(split, own))
    }

    /// The value of an option, which the check found to be `own`.
    pub fn value(&self, option: OptionName, own: Option<&str>) -> Result<Option<Text>, AllocError>
        ensures { IfOk result (λ text. text ≡ option_copied own.entry) }
    {
        match own {
            Some(own) => {
                let text = self.plain(option.as_str(), own)?;
                Ok(Some(text))
            }
            None => Ok(None),
        }
    }
}

/// The parser of a command's words: each plain word and each option takes one value.
fn parser_of<'a>(alloc: Global, command: CommandName) -> Result<Command<'a>, AllocError> {
    let mut parser = Command::new(alloc, "rx")
        .no_binary_name(true)
        .disable_help_flag(true)
        .disable_version_flag(true);
    for place in command.places() {
        let place: &'a str = *place;
        parser = parser.arg(plain_arg(alloc, place))?;
    }
    for option in command.options() {
        let name: &'a str = option.as_str();
        parser = parser.arg(option_arg(alloc, name))?;
    }
    Ok(parser)
}

/// A plain word, which has to be there.
fn plain_arg<'a>(alloc: Global, place: &'a str) -> Arg<'a> {
    Arg::new(alloc, place).required(true)
}

/// An option with one value.
fn option_arg<'a>(alloc: Global, name: &'a str) -> Arg<'a> {
    Arg::new(alloc, name).long(name)
}

/// The text of a split where it is the check's own, and the check's own where it isn't.
fn agreed<'a>(split: Option<&'a str>, own: &'a str) -> &'a str
    ensures { result.now ≡ own.entry.now }
{
    match split {
        Some(text) => if text == own { text } else { own },
        None => own,
    }
}

/// A text of its own.
fn copied(alloc: Global, text: &str) -> Result<Text, AllocError>
    ensures { IfOk result (λ copy. copy ≡ text.now) }
{
    let copy = String::from_str(alloc, text)?;
    Ok(Text::of(copy))
}
