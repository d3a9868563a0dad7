//! The texts of the words, and the rules that the words of all commands share.

ghost use Rattle.std.specs.Prelude.{◌≡◌, ◌++◌, [], map, IfNone, option_map};
ghost use Rattle.std.specs.List.{list_all, list_any};
ghost use Rattle.std.specs.Option.{option_copied, option_to_list};
ghost use Rattle.std.specs.String.{string_bytes};
ghost use Rattle.std.specs.Str.{bytes_eq};
ghost use Rattle.rx_words.specs.Names.{option_text, options_of};
ghost use Rattle.rx_words.specs.Parts.{parts_of};
ghost use Rattle.rx_words.specs.Reading.{part_of};
ghost use Rattle.rx_words.specs.Rules.{has_name, is_known, is_once, meets_rules, one_plain, plain_text};
ghost use Rattle.rx_words.specs.Rules.{text_of, texts_of, three_plain, two_plain, value_of, value_text};

use crate::names::{CommandName, OptionName};
use crate::parts::{Parts, WordPart};

/// Which texts of the words are looked for.
#[derive(Clone, Copy, Debug, PartialEq, Eq)]
pub enum Wanted {
    /// The plain words.
    Plain,
    /// The values of an option.
    Values(OptionName),
}

/// A plain word, where plain words are looked for.
fn plain_text(wanted: Wanted, word: &str) -> Option<&str>
    ensures { option_copied result ≡ plain_text wanted word.entry.now }
{
    match wanted {
        Wanted::Plain => Some(word),
        Wanted::Values(_) => None,
    }
}

/// The value of an option, where its values are looked for.
fn value_text<'a>(wanted: Wanted, name: &str, value: &'a str) -> Option<&'a str>
    ensures { option_copied result ≡ value_text wanted name.now value.entry.now }
{
    match wanted {
        Wanted::Plain => None,
        Wanted::Values(option) => if name == option.as_str() {
            Some(value)
        } else {
            None
        },
    }
}

/// The text of a part, if it is looked for.
fn text_of<'a>(wanted: Wanted, part: WordPart<'a>) -> Option<&'a str>
    ensures { option_copied result ≡ text_of wanted (part_of part.entry) }
{
    match part {
        WordPart::Plain(word) => plain_text(wanted, word),
        WordPart::Given(name, value) => value_text(wanted, name, value),
        WordPart::Bad => None,
    }
}

/// The next text that is looked for.
pub fn next_text<'a>(parts: &mut Parts<'a>, wanted: Wanted) -> Option<&'a str>
    ensures next { texts_of wanted parts.old
        ≡ option_to_list (option_copied result) ++ texts_of wanted parts.new }
    ensures ended { IfNone result (texts_of wanted parts.old ≡ []) }
{
    while let Some(part) = parts.next() {
        if let Some(text) = text_of(wanted, part) {
            return Some(text);
        }
    }
    None
}

/// The value of an option, if it is given.
pub fn value_of(words: &[String], option: OptionName) -> Option<&str>
    ensures { option_copied result ≡ value_of (parts_of (map string_bytes words.entry.now)) option }
{
    let mut parts = Parts::of(words);
    next_text(&mut parts, Wanted::Values(option))
}

/// The plain word, where there is one and no more.
pub fn one_plain(words: &[String]) -> Option<&str>
    ensures { option_copied result ≡ one_plain (parts_of (map string_bytes words.entry.now)) }
{
    let mut parts = Parts::of(words);
    let word = next_text(&mut parts, Wanted::Plain)?;
    if next_text(&mut parts, Wanted::Plain).is_some() {
        return None;
    }
    Some(word)
}

/// The two plain words, where there are two and no more.
pub fn two_plain(words: &[String]) -> Option<(&str, &str)>
    ensures { option_map (λ p. (p.0.now, p.1.now)) result
        ≡ two_plain (parts_of (map string_bytes words.entry.now)) }
{
    let mut parts = Parts::of(words);
    let first = next_text(&mut parts, Wanted::Plain)?;
    let second = next_text(&mut parts, Wanted::Plain)?;
    if next_text(&mut parts, Wanted::Plain).is_some() {
        return None;
    }
    Some((first, second))
}

/// The three plain words, where there are three and no more.
pub fn three_plain(words: &[String]) -> Option<(&str, &str, &str)>
    ensures { option_map (λ p. (p.0.now, p.1.now, p.2.now)) result
        ≡ three_plain (parts_of (map string_bytes words.entry.now)) }
{
    let mut parts = Parts::of(words);
    let first = next_text(&mut parts, Wanted::Plain)?;
    let second = next_text(&mut parts, Wanted::Plain)?;
    let third = next_text(&mut parts, Wanted::Plain)?;
    if next_text(&mut parts, Wanted::Plain).is_some() {
        return None;
    }
    Some((first, second, third))
}

/// Whether an option is given at most once.
fn is_once(words: &[String], option: OptionName) -> bool
    ensures { result ≡ is_once (parts_of (map string_bytes words.now)) option }
{
    let mut parts = Parts::of(words);
    if next_text(&mut parts, Wanted::Values(option)).is_none() {
        return true;
    }
    next_text(&mut parts, Wanted::Values(option)).is_none()
}

/// Whether a name is that of one of the options.
fn has_name(options: &[OptionName], name: &str) -> bool
    ensures { result ≡ has_name options.now name.now }
{
    options.iter().any(|option| name == option.as_str())
}

/// Whether the options of a command have the part, or it is plain.
fn is_known(command: CommandName, part: WordPart<'_>) -> bool
    ensures { result ≡ is_known command (part_of part.entry) }
{
    match part {
        WordPart::Plain(_) => true,
        WordPart::Given(name, _) => has_name(command.options(), name),
        WordPart::Bad => false,
    }
}

/// Whether each part is plain, or an option of the command.
fn are_known(command: CommandName, words: &[String]) -> bool
    ensures { result ≡ list_all (is_known command) (parts_of (map string_bytes words.now)) }
{
    let mut parts = Parts::of(words);
    while let Some(part) = parts.next() {
        if !is_known(command, part) {
            return false;
        }
    }
    true
}

/// Whether each option of the command is given at most once.
fn are_once(command: CommandName, words: &[String]) -> bool
    ensures { result ≡ list_all (is_once (parts_of (map string_bytes words.now))) (options_of command) }
{
    command
        .options()
        .iter()
        .all(|option| is_once(words, *option))
}

/// Whether the words behind a command meet the rules that all commands share.
pub fn meets_rules(command: CommandName, words: &[String]) -> bool
    ensures { result ≡ meets_rules command (parts_of (map string_bytes words.now)) }
{
    are_known(command, words) && are_once(command, words)
}
