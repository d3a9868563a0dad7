//! What repeats in an enum or a struct.

ghost use Rattle.std.specs.Prelude.{◌≡◌};
ghost use Rattle.xg_parse.specs.Rules.{has};
ghost use Rattle.xg_parse.specs.Reading.{firsts};
ghost use Rattle.xg_parse.specs.Grammar.{decl_line, decl_lines, member, next_member, members};
ghost use Rattle.xg_parse.specs.Gives.{IsReadingOf};

use crate::consts::{name, optional_value};
use crate::cursor::{Cursor, Stop};
use crate::decls::{decl_line, is_simple, is_tag};
use crate::terminal::Terminal;
use crate::tree::{Decl, MembItem};
use std::alloc::Global;
use xg_lex::Items;

#[tactic(auto, unfolding(crate::specs::Grammar::decl_line, crate::specs::Grammar::decl, crate::specs::Grammar::type_word, crate::specs::Grammar::optional_tag, crate::specs::Grammar::name))]
fn begins_decl(cursor: Cursor<'_>) -> bool
    ensures { result ≡ has (firsts decl_line) cursor.entry.next }
{
    cursor.is(Terminal::Opaque)
        || cursor.is(Terminal::StringWord)
        || is_simple(cursor)
        || cursor.is(Terminal::Unsigned)
        || is_tag(cursor)
        || cursor.is(Terminal::Name)
}

/// `{ DECL ";" }`
pub fn decl_lines<'a>(
    alloc: Global,
    cursor: Cursor<'a>,
) -> Result<(Items<Decl>, Cursor<'a>), Stop<'a>>
    ensures { IsReadingOf decl_lines cursor.entry result }
{
    let mut items = Vec::new(alloc);
    let mut place = cursor;
    'each: while begins_decl(place) {
        let (item, behind) = decl_line(alloc, place)?;
        items.push(item)?;
        place = behind;
    }
    Ok((Items::of(items), place.without(Terminal::Name)))
}

/// `MEMB = NAME [ "=" CONST ]`
#[tactic(auto, unfolding(crate::specs::Grammar::member))]
fn member<'a>(alloc: Global, cursor: Cursor<'a>) -> Result<(MembItem, Cursor<'a>), Stop<'a>>
    ensures { IsReadingOf member cursor.entry result }
{
    let (name, cursor) = name(alloc, cursor)?;
    let (value, cursor) = optional_value(alloc, cursor)?;
    Ok((MembItem { name, value }, cursor))
}

/// `"," MEMB`
#[tactic(auto, unfolding(crate::specs::Grammar::next_member))]
fn next_member<'a>(alloc: Global, cursor: Cursor<'a>) -> Result<(MembItem, Cursor<'a>), Stop<'a>>
    ensures { IsReadingOf next_member cursor.entry result }
{
    let (_, cursor) = cursor.expect(Terminal::Comma)?;
    member(alloc, cursor)
}

/// `MEMB { "," MEMB }`
#[tactic(auto, unfolding(crate::specs::Grammar::members))]
pub fn members<'a>(
    alloc: Global,
    cursor: Cursor<'a>,
) -> Result<(Items<MembItem>, Cursor<'a>), Stop<'a>>
    ensures { IsReadingOf members cursor.entry result }
{
    let (first, second) = member(alloc, cursor)?;
    let mut items = Vec::new(alloc);
    items.push(first)?;
    let mut place = second;
    'each: while place.is(Terminal::Comma) {
        let (item, behind) = next_member(alloc, place)?;
        items.push(item)?;
        place = behind;
    }
    Ok((Items::of(items), place.without(Terminal::Comma)))
}
