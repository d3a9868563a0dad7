//! The arguments and the words of a procedure.

ghost use Rattle.std.specs.Prelude.{◌≡◌};
ghost use Rattle.xg_parse.specs.Grammar.{mode, optional_mode, argument, next_argument, argument_list};
ghost use Rattle.xg_parse.specs.Grammar.{arguments, kind, optional_kind};
ghost use Rattle.xg_parse.specs.Gives.{IsReadingOf};

use crate::cursor::{Cursor, Stop};
use crate::decls::decl;
use crate::terminal::Terminal;
use crate::tree::{ArgItem, KindWord, ModeWord};
use std::alloc::Global;
use xg_lex::Items;

/// `"IN" | "OUT" | "INOUT"`
#[tactic(auto, unfolding(crate::specs::Grammar::mode))]
fn mode<'a>(cursor: Cursor<'a>) -> Result<(ModeWord, Cursor<'a>), Stop<'a>>
    ensures { IsReadingOf mode cursor.entry result }
{
    if cursor.is(Terminal::In) {
        let (_, cursor) = cursor.expect(Terminal::In)?;
        return Ok((ModeWord::In, cursor));
    }
    let cursor = cursor.without(Terminal::In);
    if cursor.is(Terminal::Out) {
        let (_, cursor) = cursor.expect(Terminal::Out)?;
        return Ok((ModeWord::Out, cursor));
    }
    let (_, cursor) = cursor.without(Terminal::Out).expect(Terminal::InOut)?;
    Ok((ModeWord::InOut, cursor))
}

/// `[ "IN" | "OUT" | "INOUT" ]`
#[tactic(auto, unfolding(crate::specs::Grammar::optional_mode, crate::specs::Grammar::mode))]
fn optional_mode<'a>(cursor: Cursor<'a>) -> Result<(Option<ModeWord>, Cursor<'a>), Stop<'a>>
    ensures { IsReadingOf optional_mode cursor.entry result }
{
    if cursor.is(Terminal::In) || cursor.is(Terminal::Out) || cursor.is(Terminal::InOut) {
        let (mode, cursor) = mode(cursor)?;
        return Ok((Some(mode), cursor));
    }
    Ok((None, cursor.without(Terminal::In)))
}

/// `ARG = [ "IN" | "OUT" | "INOUT" ] DECL`
#[tactic(auto, unfolding(crate::specs::Grammar::argument))]
fn argument<'a>(alloc: Global, cursor: Cursor<'a>) -> Result<(ArgItem, Cursor<'a>), Stop<'a>>
    ensures { IsReadingOf argument cursor.entry result }
{
    let (mode, cursor) = optional_mode(cursor)?;
    let (decl, cursor) = decl(alloc, cursor)?;
    Ok((ArgItem { mode, decl }, cursor))
}

/// `"," ARG`
#[tactic(auto, unfolding(crate::specs::Grammar::next_argument))]
fn next_argument<'a>(alloc: Global, cursor: Cursor<'a>) -> Result<(ArgItem, Cursor<'a>), Stop<'a>>
    ensures { IsReadingOf next_argument cursor.entry result }
{
    let (_, cursor) = cursor.expect(Terminal::Comma)?;
    argument(alloc, cursor)
}

/// `ARG { "," ARG }`
#[tactic(auto, unfolding(crate::specs::Grammar::argument_list))]
fn argument_list<'a>(
    alloc: Global,
    cursor: Cursor<'a>,
) -> Result<(Items<ArgItem>, Cursor<'a>), Stop<'a>>
    ensures { IsReadingOf argument_list cursor.entry result }
{
    let (first, second) = argument(alloc, cursor)?;
    let mut items = Vec::new(alloc);
    items.push(first)?;
    let mut place = second;
    'each: while place.is(Terminal::Comma) {
        let (item, behind) = next_argument(alloc, place)?;
        items.push(item)?;
        place = behind;
    }
    Ok((Items::of(items), place.without(Terminal::Comma)))
}

/// `"(" [ ARG { "," ARG } ] ")"`
#[tactic(auto, unfolding(crate::specs::Grammar::arguments))]
pub fn arguments<'a>(
    alloc: Global,
    cursor: Cursor<'a>,
) -> Result<(Items<ArgItem>, Cursor<'a>), Stop<'a>>
    ensures { IsReadingOf arguments cursor.entry result }
{
    let (_, cursor) = cursor.expect(Terminal::LeftParen)?;
    if cursor.is(Terminal::RightParen) {
        let (_, cursor) = cursor.expect(Terminal::RightParen)?;
        return Ok((Items::of(Vec::new(alloc)), cursor));
    }
    let (arguments, cursor) = argument_list(alloc, cursor.without(Terminal::RightParen))?;
    let (_, cursor) = cursor.expect(Terminal::RightParen)?;
    Ok((arguments, cursor))
}

/// `"split" | "multi"`
#[tactic(auto, unfolding(crate::specs::Grammar::kind))]
fn kind<'a>(cursor: Cursor<'a>) -> Result<(KindWord, Cursor<'a>), Stop<'a>>
    ensures { IsReadingOf kind cursor.entry result }
{
    if cursor.is(Terminal::Split) {
        let (_, cursor) = cursor.expect(Terminal::Split)?;
        return Ok((KindWord::Split, cursor));
    }
    let (_, cursor) = cursor.without(Terminal::Split).expect(Terminal::Multi)?;
    Ok((KindWord::Multi, cursor))
}

/// `[ "split" | "multi" ]`
#[tactic(auto, unfolding(crate::specs::Grammar::optional_kind, crate::specs::Grammar::kind))]
pub fn optional_kind<'a>(cursor: Cursor<'a>) -> Result<(Option<KindWord>, Cursor<'a>), Stop<'a>>
    ensures { IsReadingOf optional_kind cursor.entry result }
{
    if cursor.is(Terminal::Split) || cursor.is(Terminal::Multi) {
        let (kind, cursor) = kind(cursor)?;
        return Ok((Some(kind), cursor));
    }
    Ok((None, cursor.without(Terminal::Split)))
}
