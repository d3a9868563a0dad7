//! A whole text.

ghost use Rattle.std.specs.Prelude.{◌≡◌, ◌≢◌, ◌≤◌, ◌++◌, length, IfOk, IfErr, OnOk, Ok, Err};
ghost use Rattle.xg_lex.specs.declared.token.Tokens.{Tokens};
ghost use Rattle.xg_lex.specs.declared.fault.LexFault.{LexFault};
ghost use Rattle.xg_lex.specs.Grammar.{IsTokensOf, IsFirstFault};
ghost use Rattle.xg_lex.specs.Steps.{fault_of, token_with, feeds_of, is_line_end, IsLexed};

use crate::fault::LexFault;
use crate::items::Items;
use crate::line::{last_line, line_after, line_feeds};
use crate::part::{Why, step_at};
use crate::text::Text;
use crate::token::{Token, TokenKind, Tokens};
use std::alloc::{AllocError, Global};

fn fault_of(why: Why, line: u32) -> LexFault
    ensures { result ≡ fault_of why line }
{
    match why {
        Why::Line => LexFault::BadLine { line },
        Why::Number => LexFault::BadNumber { line },
        Why::Char => LexFault::BadChar { line },
    }
}

/// Adds the token, where the part is one.
fn push_token(
    alloc: Global,
    items: &mut Vec<Token>,
    text: &str,
    kind: Option<TokenKind>,
    feeds: usize,
) -> Result<(), AllocError>
    ensures { OnOk result (items.new.items ≡ items.old.items ++ token_with feeds kind text.now) }
{
    match kind {
        None => Ok(()),
        Some(kind) => {
            let token = Token {
                text: Text::of(String::from_str(alloc, text)?),
                kind,
                line: line_after(feeds),
            };
            items.push(token)?;
            Ok(())
        }
    }
}

/// How many line feeds a part has.
fn feeds_of(kind: Option<TokenKind>, text: &str) -> usize
    ensures feeds { result ≡ feeds_of kind text.now }
    ensures within { result ≤ length text.now }
{
    match kind {
        None => line_feeds(text.as_bytes()),
        Some(_) => 0,
    }
}

fn is_line_end(text: &str) -> bool
    ensures { result ≡ is_line_end text.now }
{
    text.len() == 1 && text.as_bytes()[0] == b'\n'
}

/// Part by part, from the front.
fn read_parts(alloc: Global, text: &str) -> Result<Tokens, LexFault>
    ensures { IsLexed text.now result }
{
    let bytes = text.as_bytes();
    let mut items = Vec::new(alloc);
    let mut rest = text;
    let mut feeds = 0;
    let mut starts = true;
    while !rest.is_empty() {
        let step = match step_at(rest, starts) {
            Ok(step) => step,
            Err(why) => return Err(fault_of(why, line_after(feeds))),
        };
        let (part, more) = rest.split_at(step.len);
        push_token(alloc, &mut items, part, step.kind, feeds)?;
        let more_feeds = feeds_of(step.kind, part);
        feeds += more_feeds;
        starts = is_line_end(part);
        rest = more;
    }
    Ok(Tokens {
        items: Items::of(items),
        last: last_line(bytes, feeds),
    })
}

/// The tokens of an interface file, each with its line, or the first fault of the text. The time
/// grows with the text alone. Lines end in a line feed; names and numbers are ASCII.
pub fn lex(alloc: Global, text: &str) -> Result<Tokens, LexFault>
    // What is given are the tokens of the text, or its first fault.
    ensures tokens { IfOk result (IsTokensOf text.now) }
    ensures fault { IfErr result (λ f. f ≢ LexFault.OutOfMemory → IsFirstFault text.now f) }
    // Tokens that the text has are given, and so is a fault, unless there is no memory.
    ensures only_tokens { (t : Tokens) → IsTokensOf text.now t
        → result ≢ Err LexFault.OutOfMemory → result ≡ Ok t }
    ensures only_fault { (f : LexFault) → IsFirstFault text.now f
        → result ≢ Err LexFault.OutOfMemory → result ≡ Err f }
{
    read_parts(alloc, text)
}
