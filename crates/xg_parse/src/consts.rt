//! Names and constants.

ghost use Rattle.std.specs.Prelude.{◌≡◌, IfOk};
ghost use Rattle.xg_parse.specs.Grammar.{name, number_in, const_word, value, optional_value};
ghost use Rattle.xg_parse.specs.Gives.{IsReadingOf};

use crate::cursor::{Cursor, Stop};
use crate::terminal::Terminal;
use crate::tree::ConstWord;
use std::alloc::{AllocError, Global};
use xg_lex::{Text, Token, TokenKind};

/// A copy of the token's text.
pub fn text_of(alloc: Global, token: &Token) -> Result<Text, AllocError>
    ensures { IfOk result (λ t. t ≡ token.now.text) }
{
    Ok(Text::of(String::from_str(alloc, token.text.as_str())?))
}

/// A name.
#[tactic(auto, unfolding(crate::specs::Grammar::name))]
pub fn name<'a>(alloc: Global, cursor: Cursor<'a>) -> Result<(Text, Cursor<'a>), Stop<'a>>
    ensures { IsReadingOf name cursor.entry result }
{
    let (token, cursor) = cursor.expect(Terminal::Name)?;
    Ok((text_of(alloc, token)?, cursor))
}

fn number_in(token: &Token) -> u64
    ensures { result ≡ number_in token.now.kind }
{
    match token.kind {
        TokenKind::Number(n) => n,
        TokenKind::Name | TokenKind::Sign => 0,
    }
}

/// `CONST = [ "-" ] NUM | NAME`
#[tactic(auto, unfolding(crate::specs::Grammar::const_word))]
pub fn const_word<'a>(
    alloc: Global,
    cursor: Cursor<'a>,
) -> Result<(ConstWord, Cursor<'a>), Stop<'a>>
    ensures { IsReadingOf const_word cursor.entry result }
{
    if cursor.is(Terminal::Minus) {
        let (_, cursor) = cursor.expect(Terminal::Minus)?;
        let (token, cursor) = cursor.expect(Terminal::Number)?;
        let number = number_in(token);
        return Ok((
            ConstWord::Literal {
                minus: true,
                number,
            },
            cursor,
        ));
    }
    let cursor = cursor.without(Terminal::Minus);
    if cursor.is(Terminal::Number) {
        let (token, cursor) = cursor.expect(Terminal::Number)?;
        let number = number_in(token);
        return Ok((
            ConstWord::Literal {
                minus: false,
                number,
            },
            cursor,
        ));
    }
    let (name, cursor) = name(alloc, cursor.without(Terminal::Number))?;
    Ok((ConstWord::Name(name), cursor))
}

/// `"=" CONST`
#[tactic(auto, unfolding(crate::specs::Grammar::value))]
pub fn value<'a>(alloc: Global, cursor: Cursor<'a>) -> Result<(ConstWord, Cursor<'a>), Stop<'a>>
    ensures { IsReadingOf value cursor.entry result }
{
    let (_, cursor) = cursor.expect(Terminal::Equals)?;
    const_word(alloc, cursor)
}

/// `[ "=" CONST ]`
#[tactic(auto, unfolding(crate::specs::Grammar::optional_value, crate::specs::Grammar::value))]
pub fn optional_value<'a>(
    alloc: Global,
    cursor: Cursor<'a>,
) -> Result<(Option<ConstWord>, Cursor<'a>), Stop<'a>>
    ensures { IsReadingOf optional_value cursor.entry result }
{
    if cursor.is(Terminal::Equals) {
        let (value, cursor) = value(alloc, cursor)?;
        return Ok((Some(value), cursor));
    }
    Ok((None, cursor.without(Terminal::Equals)))
}
