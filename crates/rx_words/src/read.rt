//! Which command the words are.

ghost use Rattle.std.specs.Prelude.{◌≡◌, map, IfOk, Err, None, Some};
ghost use Rattle.std.specs.String.{string_bytes};
ghost use Rattle.rx_words.specs.Answers.{IsReading};
ghost use Rattle.rx_words.specs.Commands.{command_in, command_of};
ghost use Rattle.rx_words.specs.Parts.{parts_of};

use crate::command::Command;
use crate::commands::command_by;
use crate::fault::WordsFault;
use crate::names::CommandName;
use crate::rules::meets_rules;
use std::alloc::Global;

/// The command that the words are, the first one its name: `Usage` where they aren't one.
pub fn read_words(alloc: Global, words: &[String]) -> Result<Command, WordsFault>
    ensures ok { IfOk result (λ command. command_of (map string_bytes words.now) ≡ Some command) }
    ensures usage { result ≡ Err WordsFault.Usage → command_of (map string_bytes words.now) ≡ None }
{
    let Some((word, rest)) = words.split_first() else {
        return Err(WordsFault::Usage);
    };
    let Some(command) = CommandName::named(word.as_str()) else {
        return Err(WordsFault::Usage);
    };
    command_in(alloc, command, rest)
}

/// The command of this name, where the words behind it are its own.
fn command_in(alloc: Global, command: CommandName, words: &[String]) -> Result<Command, WordsFault>
    ensures { IsReading (command_in command (parts_of (map string_bytes words.now))) result }
{
    if !meets_rules(command, words) {
        return Err(WordsFault::Usage);
    }
    command_by(alloc, command, words)
}
