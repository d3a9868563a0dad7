//! The options of lines that make a node or a connection.

ghost use Rattle.std.specs.Prelude.{◌≡◌, ◌-◌, ◌^◌, is_some, option_map};
ghost use Rattle.rx_script.specs.Numbers.{key_in};
ghost use Rattle.rx_script.specs.Options.{option_text, option_in, value_text, once, number_value, with_value};
ghost use Rattle.rx_script.specs.Options.{may_stand, with_option, options_word, has_key, limits_in, service_in};
ghost use Rattle.rx_script.specs.Options.{nonce_in, first_in};

use crate::bytes_word::key_in;
use crate::fault::LineWhy;
use crate::limits::{DEFAULT_FIRST, DEFAULT_SERVICE, KEY_BYTES};
use crate::number::{long_within, number_within};
use crate::pieces::Pieces;
use rx_model::Limits;
use rx_model::wire::{DEFAULT_CALLS, DEFAULT_CONNS, DEFAULT_SLOTS, DEFAULT_WINDOW};

/// The name of an option.
#[derive(Clone, Copy, Debug, PartialEq, Eq)]
pub enum OptionName {
    Service,
    Conns,
    Calls,
    Slots,
    Window,
    Key,
    Nonce,
    First,
}

impl OptionName {
    /// The text in front of its value.
    pub fn as_str(self) -> &'static str
        ensures { result.now ≡ option_text self }
    {
        match self {
            OptionName::Service => "service=",
            OptionName::Conns => "conns=",
            OptionName::Calls => "calls=",
            OptionName::Slots => "slots=",
            OptionName::Window => "window=",
            OptionName::Key => "key=",
            OptionName::Nonce => "nonce=",
            OptionName::First => "first=",
        }
    }
}

/// The options of a server.
pub const SERVER_OPTIONS: [OptionName; 7] = [
    OptionName::Service,
    OptionName::Conns,
    OptionName::Calls,
    OptionName::Slots,
    OptionName::Window,
    OptionName::Key,
    OptionName::Nonce,
];

/// The options of a client.
pub const CLIENT_OPTIONS: [OptionName; 5] = [
    OptionName::Conns,
    OptionName::Calls,
    OptionName::Slots,
    OptionName::Window,
    OptionName::Key,
];

/// The options of a peer.
pub const PEER_OPTIONS: [OptionName; 5] = [
    OptionName::Service,
    OptionName::Conns,
    OptionName::Calls,
    OptionName::Slots,
    OptionName::Window,
];

/// The options of a connection.
pub const CONNECT_OPTIONS: [OptionName; 1] = [OptionName::First];

/// The options of a line, as far as they were given.
#[derive(Clone, Copy, Debug, PartialEq, Eq)]
pub struct Options {
    pub service: Option<u16>,
    pub conns: Option<u32>,
    pub calls: Option<u32>,
    pub slots: Option<u32>,
    pub window: Option<u32>,
    pub key: Option<[u8; KEY_BYTES]>,
    pub nonce: Option<u64>,
    pub first: Option<u32>,
}

/// No option was given.
pub const NO_OPTIONS: Options = Options {
    service: None,
    conns: None,
    calls: None,
    slots: None,
    window: None,
    key: None,
    nonce: None,
    first: None,
};

impl Options {
    /// The limits, with those that stand where none is named.
    pub fn limits(&self) -> Limits
        ensures { result ≡ limits_in self.now }
    {
        Limits {
            conns: self.conns.unwrap_or(DEFAULT_CONNS),
            calls: self.calls.unwrap_or(DEFAULT_CALLS),
            slots: self.slots.unwrap_or(DEFAULT_SLOTS),
            window: self.window.unwrap_or(DEFAULT_WINDOW),
        }
    }

    /// The service that is named, or `DEFAULT_SERVICE`.
    pub fn service(&self) -> u16
        ensures { result ≡ service_in self.now }
    {
        self.service.unwrap_or(DEFAULT_SERVICE)
    }

    /// The nonce that is named, or 0.
    pub fn nonce(&self) -> u64
        ensures { result ≡ nonce_in self.now }
    {
        self.nonce.unwrap_or(0)
    }

    /// The call number with which a connection begins: the one that is named, or `DEFAULT_FIRST`.
    pub fn first(&self) -> u32
        ensures { result ≡ first_in self.now }
    {
        self.first.unwrap_or(DEFAULT_FIRST)
    }
}

/// The text of the option's value, if a word is that option.
fn value_text(name: OptionName, word: &str) -> Option<&str>
    ensures { option_map (λ t. t.now) result ≡ value_text name word.now }
{
    word.strip_prefix(name.as_str())
}

/// Whether a word gives a key.
fn is_key(word: &str) -> bool
    ensures { result ≡ is_some (value_text OptionName.Key word.now) }
{
    value_text(OptionName::Key, word).is_some()
}

/// Which of these options a word is, and the text of its value.
fn option_in<'a>(row: &[OptionName], word: &'a str) -> Option<(OptionName, &'a str)>
    ensures { option_map (λ x. (x.0, x.1.now)) result ≡ option_in row.now word.now }
{
    for name in row {
        if let Some(text) = value_text(*name, word) {
            return Some((*name, text));
        }
    }
    None
}

/// A number of 32 bits, where it wasn't given.
fn number_value(given: Option<u32>, low: u32, text: &str) -> Result<u32, LineWhy>
    ensures { result ≡ number_value low (2 ^ 32 - 1) given text.now }
{
    let number = number_within(text, low, u32::MAX).ok_or(LineWhy::Number)?;
    if given.is_some() {
        return Err(LineWhy::Twice);
    }
    Ok(number)
}

fn service_value(given: Option<u16>, text: &str) -> Result<u16, LineWhy>
    ensures { result ≡ number_value 0 (2 ^ 16 - 1) given text.now }
{
    let service = number_within(text, 0, u16::MAX.into()).ok_or(LineWhy::Number)?;
    if given.is_some() {
        return Err(LineWhy::Twice);
    }
    Ok(service as u16)
}

fn nonce_value(given: Option<u64>, text: &str) -> Result<u64, LineWhy>
    ensures { result ≡ number_value 0 (2 ^ 64 - 1) given text.now }
{
    let nonce = long_within(text, 0, u64::MAX).ok_or(LineWhy::Number)?;
    if given.is_some() {
        return Err(LineWhy::Twice);
    }
    Ok(nonce)
}

fn key_value(given: Option<[u8; KEY_BYTES]>, text: &str) -> Result<[u8; KEY_BYTES], LineWhy>
    ensures { result ≡ once given (key_in text.now) }
{
    let key = key_in(text).ok_or(LineWhy::Number)?;
    if given.is_some() {
        return Err(LineWhy::Twice);
    }
    Ok(key)
}

/// The options with one more.
fn with_value(name: OptionName, given: Options, text: &str) -> Result<Options, LineWhy>
    ensures { result ≡ with_value name given text.now }
{
    let mut next = given;
    match name {
        OptionName::Service => next.service = Some(service_value(given.service, text)?),
        OptionName::Conns => next.conns = Some(number_value(given.conns, 0, text)?),
        OptionName::Calls => next.calls = Some(number_value(given.calls, 0, text)?),
        OptionName::Slots => next.slots = Some(number_value(given.slots, 0, text)?),
        OptionName::Window => next.window = Some(number_value(given.window, 0, text)?),
        OptionName::Key => next.key = Some(key_value(given.key, text)?),
        OptionName::Nonce => next.nonce = Some(nonce_value(given.nonce, text)?),
        OptionName::First => next.first = Some(number_value(given.first, 1, text)?),
    }
    Ok(next)
}

/// Whether an option may stand, where a key does in the line or doesn't.
fn may_stand(name: OptionName, keyed: bool) -> bool
    ensures { result ≡ may_stand keyed name }
{
    match name {
        OptionName::Nonce => keyed,
        OptionName::Service | OptionName::Conns | OptionName::Calls => true,
        OptionName::Slots | OptionName::Window | OptionName::Key | OptionName::First => true,
    }
}

/// The options with one more word.
fn with_option(
    row: &[OptionName],
    keyed: bool,
    given: Options,
    word: &str,
) -> Result<Options, LineWhy>
    ensures { result ≡ with_option row.now keyed given word.now }
{
    let Some((name, text)) = option_in(row, word) else {
        return Err(LineWhy::Word);
    };
    if !may_stand(name, keyed) {
        return Err(LineWhy::Word);
    }
    with_value(name, given, text)
}

/// Whether one of the words gives a key.
fn has_key(words: &Pieces) -> bool
    ensures { result ≡ has_key words.now }
{
    let mut left = words.again();
    while let Some(word) = left.next() {
        if is_key(word) {
            return true;
        }
    }
    false
}

/// The options of a line, of which it may have these.
pub fn options_word(row: &[OptionName], words: &mut Pieces) -> Result<Options, LineWhy>
    ensures { result ≡ options_word row.now words.old }
{
    let keyed = has_key(words);
    let mut given = NO_OPTIONS;
    while let Some(word) = words.next() {
        given = with_option(row, keyed, given, word)?;
    }
    Ok(given)
}
