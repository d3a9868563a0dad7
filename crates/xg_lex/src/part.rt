//! The part of a file that stands at the front of a text.

ghost use Rattle.std.specs.Prelude.{◌≡◌, ◌<◌, ◌≤◌, length, IfSome, Ok};
ghost use Rattle.std.specs.Option.{option_copied};
ghost use Rattle.std.specs.List.{prefix_len};
ghost use Rattle.std.specs.Char.{is_ascii_digit};
ghost use Rattle.xg_lex.specs.Bytes.{is_space, is_in_line};
ghost use Rattle.xg_lex.specs.Steps.{gap_step, token_step, close_len, comment_step, past_run, after_mark};
ghost use Rattle.xg_lex.specs.Steps.{is_quoted, is_mark_rest, mark_step, number_step, step_at};

use crate::bytes::{
    begins_name, digit_len, is_blank, is_sign, line_len, name_len, number_len, space_len,
};
use crate::number::number_of;
use crate::token::TokenKind;

/// A part: how many bytes it has, and which token it is, where it is one.
#[derive(Clone, Copy, Debug, PartialEq, Eq)]
pub struct Step {
    pub len: usize,
    pub kind: Option<TokenKind>,
}

/// Why no part stands there: a line, a number or a character is none.
#[derive(Clone, Copy, Debug, PartialEq, Eq)]
pub enum Why {
    Line,
    Number,
    Char,
}

fn gap(len: usize) -> Step
    ensures { Ok result ≡ gap_step len }
{
    Step { len, kind: None }
}

fn token(kind: TokenKind, len: usize) -> Step
    ensures { Ok result ≡ token_step kind len }
{
    Step {
        len,
        kind: Some(kind),
    }
}

fn number_step(text: &str) -> Result<Step, Why>
    ensures { result ≡ number_step text.now }
{
    let len = number_len(text.as_bytes());
    let (word, _) = text.split_at(len);
    let n = number_of(word).ok_or(Why::Number)?;
    Ok(token(TokenKind::Number(n), len))
}

/// How many bytes there are up to and with the first `*/`.
#[tactic(auto, unfolding(crate::specs::Steps::close_len))]
fn close_len(bytes: &[u8]) -> Option<usize>
    ensures first { result ≡ close_len bytes.now }
    ensures within { IfSome result (λ n. n ≤ length bytes.now) }
{
    for i in 1..bytes.len() {
        if bytes[i - 1] == b'*' && bytes[i] == b'/' {
            return Some(i + 1);
        }
    }
    None
}

fn comment_step(bytes: &[u8]) -> Result<Step, Why>
    ensures { result ≡ comment_step bytes.now }
{
    if bytes.len() < 2 || bytes[1] != b'*' {
        return Err(Why::Char);
    }
    let n = close_len(&bytes[2..]).ok_or(Why::Char)?;
    Ok(gap(2 + n))
}

fn past_spaces(bytes: &[u8]) -> Option<&[u8]>
    ensures { option_copied result ≡ past_run is_space bytes.now }
{
    let len = space_len(bytes);
    if len == 0 { None } else { Some(&bytes[len..]) }
}

fn past_digits(bytes: &[u8]) -> Option<&[u8]>
    ensures { option_copied result ≡ past_run is_ascii_digit bytes.now }
{
    let len = digit_len(bytes);
    if len == 0 { None } else { Some(&bytes[len..]) }
}

fn is_quoted(bytes: &[u8]) -> bool
    ensures { result ≡ is_quoted bytes.now }
{
    if bytes.is_empty() || bytes[0] != b'"' {
        return false;
    }
    bytes[1..].contains(&b'"')
}

/// What follows the spaces, the digits and the spaces of a line mark.
fn after_mark(bytes: &[u8]) -> Option<&[u8]>
    ensures { option_copied result ≡ after_mark bytes.now }
{
    let rest = past_spaces(bytes)?;
    let rest = past_digits(rest)?;
    past_spaces(rest)
}

/// Whether that follows the `#` of a line mark.
#[tactic(auto, unfolding(crate::specs::Steps::is_mark_rest))]
fn is_mark_rest(bytes: &[u8]) -> bool
    ensures { result ≡ is_mark_rest bytes.now }
{
    match after_mark(bytes) {
        None => false,
        Some(rest) => is_quoted(rest),
    }
}

fn mark_step(bytes: &[u8]) -> Result<Step, Why>
    requires { 0 < prefix_len is_in_line bytes.now }
    ensures { result ≡ mark_step bytes.now }
{
    let len = line_len(bytes);
    if is_mark_rest(&bytes[1..len]) {
        Ok(gap(len))
    } else {
        Err(Why::Line)
    }
}

/// The part at the front of the text, at the start of a line or elsewhere.
#[tactic(auto, unfolding(crate::specs::Steps::step_at))]
pub fn step_at(text: &str, starts: bool) -> Result<Step, Why>
    requires { 0 < length text.now }
    ensures { result ≡ step_at starts text.now }
{
    let bytes = text.as_bytes();
    let first = bytes[0];
    if is_blank(first) {
        return Ok(gap(1));
    }
    if begins_name(first) {
        return Ok(token(TokenKind::Name, name_len(bytes)));
    }
    if first.is_ascii_digit() {
        return number_step(text);
    }
    if is_sign(first) {
        return Ok(token(TokenKind::Sign, 1));
    }
    if first == b'/' {
        return comment_step(bytes);
    }
    if starts && first == b'%' {
        return Ok(gap(line_len(bytes)));
    }
    if starts && first == b'#' {
        return mark_step(bytes);
    }
    Err(Why::Char)
}
