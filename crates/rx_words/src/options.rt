//! What the values of options stand for.

ghost use Rattle.std.specs.Prelude.{◌≡◌, ◌≤◌, map, IfSome};
ghost use Rattle.std.specs.Option.{option_copied};
ghost use Rattle.std.specs.String.{string_bytes};
ghost use Rattle.rx_words.specs.Numbers.{host_in, number_within};
ghost use Rattle.rx_words.specs.Options.{call_options, down_of, epoch_given, host_given, host_or, limits_of, nonce_of};
ghost use Rattle.rx_words.specs.Options.{number_or, serve_options, window_of};
ghost use Rattle.rx_words.specs.Parts.{parts_of};
ghost use Rattle.rx_words.specs.Rules.{value_of};

use crate::limits::{
    DEFAULT_CONNS, DEFAULT_FROM, DEFAULT_JUMBO, DEFAULT_NONCE, DEFAULT_SERVICE, DEFAULT_SPAN,
    DEFAULT_TURNS, MAX_CALLS, MAX_CONNS, MAX_JUMBO, MAX_SLOTS, MAX_SPAN, MAX_TURNS,
};
use crate::names::OptionName;
use crate::number::{host_in, number_within};
use crate::rules::value_of;
use rx_model::wire::{DEFAULT_CALLS, DEFAULT_SLOTS, DEFAULT_WINDOW, MAX_WINDOW, MIN_WINDOW};
use rx_model::{Host, Limits};

/// The options of a server but for its key.
#[derive(Clone, Copy, Debug, PartialEq, Eq)]
pub struct ServeOptions {
    pub at: Host,
    pub service: u16,
    pub span: u64,
    pub turns: u64,
    pub limits: Limits,
    pub nonce: u64,
    pub jumbo: u32,
}

/// The options of a call but for its files and its download.
#[derive(Clone, Copy, Debug, PartialEq, Eq)]
pub struct CallOptions {
    pub to: Host,
    pub epoch: u32,
    pub from: Host,
    pub service: u16,
    pub turns: u64,
    pub window: u32,
    pub jumbo: u32,
}

/// The number of an option within its bounds, or its default where the option isn't given.
fn number_or(text: Option<&str>, low: u64, high: u64, default: u64) -> Option<u64>
    requires { default ≤ high }
    ensures read { result ≡ number_or low high default (option_copied text.entry) }
    ensures within { IfSome result (λ n. n ≤ high) }
{
    match text {
        Some(text) => number_within(text, low, high),
        None => Some(default),
    }
}

/// The same of a small number.
fn small_or(text: Option<&str>, low: u32, high: u32, default: u32) -> Option<u32>
    requires { default ≤ high }
    ensures read { result ≡ number_or low high default (option_copied text.entry) }
    ensures within { IfSome result (λ n. n ≤ high) }
{
    let number = number_or(text, low.into(), high.into(), default.into())?;
    Some(number as u32)
}

/// The host of an option, or its default where the option isn't given.
fn host_or(text: Option<&str>, default: Host) -> Option<Host>
    ensures { result ≡ host_or default (option_copied text.entry) }
{
    match text {
        Some(text) => host_in(text),
        None => Some(default),
    }
}

/// A host that has to be given.
fn host_given(text: Option<&str>) -> Option<Host>
    ensures { result ≡ host_given (option_copied text.entry) }
{
    host_in(text?)
}

/// An epoch, which has to be given.
fn epoch_given(text: Option<&str>) -> Option<u32>
    ensures { result ≡ epoch_given (option_copied text.entry) }
{
    let epoch = number_within(text?, 0, u32::MAX.into())?;
    Some(epoch as u32)
}

/// The service, or its default.
fn service_of(words: &[String]) -> Option<u16>
    ensures { result ≡ number_or 0 65535 1 (value_of (parts_of (map string_bytes words.now)) OptionName.Service) }
{
    let text = value_of(words, OptionName::Service);
    let service = number_or(text, 0, u16::MAX.into(), DEFAULT_SERVICE.into())?;
    Some(service as u16)
}

/// Whether the download is asked for.
pub fn down_of(text: Option<&str>) -> Option<bool>
    ensures { result ≡ down_of (option_copied text.entry) }
{
    match text {
        Some(text) => if text == "yes" { Some(true) } else { None },
        None => Some(false),
    }
}

/// The nonce of a server, which wants a key.
fn nonce_of(key: Option<&str>, nonce: Option<&str>) -> Option<u64>
    ensures { result ≡ nonce_of (option_copied key.entry) (option_copied nonce.entry) }
{
    if nonce.is_some() && key.is_none() {
        return None;
    }
    number_or(nonce, 0, u64::MAX, DEFAULT_NONCE)
}

/// The window of a node.
fn window_of(words: &[String]) -> Option<u32>
    ensures { result ≡ window_of (parts_of (map string_bytes words.now)) }
{
    let text = value_of(words, OptionName::Window);
    small_or(text, MIN_WINDOW, MAX_WINDOW, DEFAULT_WINDOW)
}

/// The limits of a node, which has more slots than live calls.
fn limits_of(words: &[String]) -> Option<Limits>
    ensures { result ≡ limits_of (parts_of (map string_bytes words.now)) }
{
    let conns = small_or(
        value_of(words, OptionName::Conns),
        1,
        MAX_CONNS,
        DEFAULT_CONNS,
    )?;
    let calls = small_or(
        value_of(words, OptionName::Calls),
        1,
        MAX_CALLS,
        DEFAULT_CALLS,
    )?;
    let slots = small_or(
        value_of(words, OptionName::Slots),
        1,
        MAX_SLOTS,
        DEFAULT_SLOTS,
    )?;
    let window = window_of(words)?;
    if slots <= calls {
        return None;
    }
    Some(Limits {
        conns,
        calls,
        slots,
        window,
    })
}

/// The options of a server: its host has to be given.
pub fn serve_options(words: &[String]) -> Option<ServeOptions>
    ensures { result ≡ serve_options (parts_of (map string_bytes words.now)) }
{
    let at = host_given(value_of(words, OptionName::At))?;
    let service = service_of(words)?;
    let span = number_or(value_of(words, OptionName::For), 1, MAX_SPAN, DEFAULT_SPAN)?;
    let turns = number_or(
        value_of(words, OptionName::Turns),
        1,
        MAX_TURNS,
        DEFAULT_TURNS,
    )?;
    let limits = limits_of(words)?;
    let key = value_of(words, OptionName::Key);
    let nonce = nonce_of(key, value_of(words, OptionName::Nonce))?;
    let jumbo = small_or(
        value_of(words, OptionName::Jumbo),
        1,
        MAX_JUMBO,
        DEFAULT_JUMBO,
    )?;
    Some(ServeOptions {
        at,
        service,
        span,
        turns,
        limits,
        nonce,
        jumbo,
    })
}

/// The options of a call: its host and its epoch have to be given.
pub fn call_options(words: &[String]) -> Option<CallOptions>
    ensures { result ≡ call_options (parts_of (map string_bytes words.now)) }
{
    let to = host_given(value_of(words, OptionName::To))?;
    let epoch = epoch_given(value_of(words, OptionName::Epoch))?;
    let from = host_or(value_of(words, OptionName::From), DEFAULT_FROM)?;
    let service = service_of(words)?;
    let turns = number_or(
        value_of(words, OptionName::Turns),
        1,
        MAX_TURNS,
        DEFAULT_TURNS,
    )?;
    let window = window_of(words)?;
    let jumbo = small_or(
        value_of(words, OptionName::Jumbo),
        1,
        MAX_JUMBO,
        DEFAULT_JUMBO,
    )?;
    Some(CallOptions {
        to,
        epoch,
        from,
        service,
        turns,
        window,
        jumbo,
    })
}
