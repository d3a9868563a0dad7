//! The arms of a union.

ghost use Rattle.std.specs.Prelude.{◌≡◌};
ghost use Rattle.xg_parse.specs.Grammar.{case, case_list, arm, cases, all_cases, otherwise};
ghost use Rattle.xg_parse.specs.Grammar.{optional_otherwise, tag, arms};
ghost use Rattle.xg_parse.specs.Gives.{IsReadingOf};

use crate::consts::{const_word, name};
use crate::cursor::{Cursor, Stop};
use crate::decls::{decl_line, type_word};
use crate::terminal::Terminal;
use crate::tree::{ArmItem, ConstWord, Decl, TypeWord};
use std::alloc::Global;
use xg_lex::{Items, Text};

/// `CASE = "case" CONST ":"`
#[tactic(auto, unfolding(crate::specs::Grammar::case))]
fn case<'a>(alloc: Global, cursor: Cursor<'a>) -> Result<(ConstWord, Cursor<'a>), Stop<'a>>
    ensures { IsReadingOf case cursor.entry result }
{
    let (_, cursor) = cursor.expect(Terminal::Case)?;
    let (value, cursor) = const_word(alloc, cursor)?;
    let (_, cursor) = cursor.expect(Terminal::Colon)?;
    Ok((value, cursor))
}

/// `CASE { CASE }`
#[tactic(auto, unfolding(crate::specs::Grammar::case_list))]
fn case_list<'a>(
    alloc: Global,
    cursor: Cursor<'a>,
) -> Result<(Items<ConstWord>, Cursor<'a>), Stop<'a>>
    ensures { IsReadingOf case_list cursor.entry result }
{
    let (first, second) = case(alloc, cursor)?;
    let mut items = Vec::new(alloc);
    items.push(first)?;
    let mut place = second;
    'each: while place.is(Terminal::Case) {
        let (item, behind) = case(alloc, place)?;
        items.push(item)?;
        place = behind;
    }
    Ok((Items::of(items), place.without(Terminal::Case)))
}

/// `ARM = DECL ";" | "void" ";"`
#[tactic(auto, unfolding(crate::specs::Grammar::arm))]
fn arm<'a>(alloc: Global, cursor: Cursor<'a>) -> Result<(Option<Decl>, Cursor<'a>), Stop<'a>>
    ensures { IsReadingOf arm cursor.entry result }
{
    if cursor.is(Terminal::Void) {
        let (_, cursor) = cursor.expect(Terminal::Void)?;
        let (_, cursor) = cursor.expect(Terminal::Semicolon)?;
        return Ok((None, cursor));
    }
    let (decl, cursor) = decl_line(alloc, cursor.without(Terminal::Void))?;
    Ok((Some(decl), cursor))
}

/// `CASE { CASE } ARM`
#[tactic(auto, unfolding(crate::specs::Grammar::cases))]
fn cases<'a>(alloc: Global, cursor: Cursor<'a>) -> Result<(ArmItem, Cursor<'a>), Stop<'a>>
    ensures { IsReadingOf cases cursor.entry result }
{
    let (cases, cursor) = case_list(alloc, cursor)?;
    let (decl, cursor) = arm(alloc, cursor)?;
    Ok((ArmItem { cases, decl }, cursor))
}

/// `{ CASE { CASE } ARM }`
fn all_cases<'a>(
    alloc: Global,
    cursor: Cursor<'a>,
) -> Result<(Items<ArmItem>, Cursor<'a>), Stop<'a>>
    ensures { IsReadingOf all_cases cursor.entry result }
{
    let mut items = Vec::new(alloc);
    let mut place = cursor;
    'each: while place.is(Terminal::Case) {
        let (item, behind) = cases(alloc, place)?;
        items.push(item)?;
        place = behind;
    }
    Ok((Items::of(items), place.without(Terminal::Case)))
}

/// `"default" ":" ARM`
#[tactic(auto, unfolding(crate::specs::Grammar::otherwise))]
fn otherwise<'a>(alloc: Global, cursor: Cursor<'a>) -> Result<(ArmItem, Cursor<'a>), Stop<'a>>
    ensures { IsReadingOf otherwise cursor.entry result }
{
    let (_, cursor) = cursor.expect(Terminal::Default)?;
    let (_, cursor) = cursor.expect(Terminal::Colon)?;
    let (decl, cursor) = arm(alloc, cursor)?;
    let cases = Items::of(Vec::new(alloc));
    Ok((ArmItem { cases, decl }, cursor))
}

/// `[ "default" ":" ARM ]`
#[tactic(auto, unfolding(crate::specs::Grammar::optional_otherwise, crate::specs::Grammar::otherwise))]
fn optional_otherwise<'a>(
    alloc: Global,
    cursor: Cursor<'a>,
) -> Result<(Option<ArmItem>, Cursor<'a>), Stop<'a>>
    ensures { IsReadingOf optional_otherwise cursor.entry result }
{
    if cursor.is(Terminal::Default) {
        let (otherwise, cursor) = otherwise(alloc, cursor)?;
        return Ok((Some(otherwise), cursor));
    }
    Ok((None, cursor.without(Terminal::Default)))
}

/// `"{" { CASE { CASE } ARM } [ "default" ":" ARM ] "}"`
#[tactic(auto, unfolding(crate::specs::Grammar::arms))]
pub fn arms<'a>(
    alloc: Global,
    cursor: Cursor<'a>,
) -> Result<((Items<ArmItem>, Option<ArmItem>), Cursor<'a>), Stop<'a>>
    ensures { IsReadingOf arms cursor.entry result }
{
    let (_, cursor) = cursor.expect(Terminal::LeftBrace)?;
    let (cases, cursor) = all_cases(alloc, cursor)?;
    let (otherwise, cursor) = optional_otherwise(alloc, cursor)?;
    let (_, cursor) = cursor.expect(Terminal::RightBrace)?;
    Ok(((cases, otherwise), cursor))
}

/// `"switch" "(" TYPE NAME ")"`
#[tactic(auto, unfolding(crate::specs::Grammar::tag))]
pub fn tag<'a>(
    alloc: Global,
    cursor: Cursor<'a>,
) -> Result<((TypeWord, Text), Cursor<'a>), Stop<'a>>
    ensures { IsReadingOf tag cursor.entry result }
{
    let (_, cursor) = cursor.expect(Terminal::Switch)?;
    let (_, cursor) = cursor.expect(Terminal::LeftParen)?;
    let (ty, cursor) = type_word(alloc, cursor)?;
    let (name, cursor) = name(alloc, cursor)?;
    let (_, cursor) = cursor.expect(Terminal::RightParen)?;
    Ok(((ty, name), cursor))
}
