//! A whole file.

ghost use Rattle.std.specs.Prelude.{◌≡◌, ◌≢◌, IfOk, IfErr, Ok, Err};
ghost use Rattle.xg_parse.specs.declared.tree.Tree.{Tree};
ghost use Rattle.xg_parse.specs.declared.fault.ParseFault.{ParseFault};
ghost use Rattle.xg_parse.specs.Rules.{has};
ghost use Rattle.xg_parse.specs.Reading.{firsts};
ghost use Rattle.xg_parse.specs.Grammar.{named_item, number_item, type_item, item, file, IsTreeOf};
ghost use Rattle.xg_parse.specs.Refusals.{IsFirstRefusal};
ghost use Rattle.xg_parse.specs.Gives.{cursor_place, place_fault, IsParsed, IsReadingOf};

use crate::cursor::{Cursor, Stop};
use crate::fault::ParseFault;
use crate::items::{named_item, number_item, proc_item, type_item};
use crate::terminal::Terminal;
use crate::tree::{Item, Tree};
use crate::words::out_word_of;
use std::alloc::Global;
use xg_lex::{Items, Tokens};

#[tactic(auto, unfolding(crate::specs::Grammar::named_item, crate::specs::Grammar::package_item, crate::specs::Grammar::prefix_item))]
fn begins_named(cursor: Cursor<'_>) -> bool
    ensures { result ≡ has (firsts named_item) cursor.entry.next }
{
    cursor.is(Terminal::Package) || cursor.is(Terminal::Prefix)
}

#[tactic(auto, unfolding(crate::specs::Grammar::number_item, crate::specs::Grammar::stat_index_item, crate::specs::Grammar::starting_opcode_item, crate::specs::Grammar::const_item))]
fn begins_number(cursor: Cursor<'_>) -> bool
    ensures { result ≡ has (firsts number_item) cursor.entry.next }
{
    cursor.is(Terminal::StatIndex)
        || cursor.is(Terminal::StartingOpcode)
        || cursor.is(Terminal::Const)
}

#[tactic(auto, unfolding(crate::specs::Grammar::type_item, crate::specs::Grammar::typedef_item, crate::specs::Grammar::enum_item, crate::specs::Grammar::struct_item, crate::specs::Grammar::union_item))]
fn begins_type(cursor: Cursor<'_>) -> bool
    ensures { result ≡ has (firsts type_item) cursor.entry.next }
{
    cursor.is(Terminal::Typedef)
        || cursor.is(Terminal::Enum)
        || cursor.is(Terminal::Struct)
        || cursor.is(Terminal::Union)
}

#[tactic(auto, unfolding(crate::specs::Grammar::item, crate::specs::Grammar::proc_item, crate::specs::Grammar::optional))]
fn begins_item(cursor: Cursor<'_>) -> bool
    ensures { result ≡ has (firsts item) cursor.entry.next }
{
    begins_named(cursor)
        || begins_number(cursor)
        || begins_type(cursor)
        || cursor.is(Terminal::Proc)
        || cursor.is(Terminal::Name)
}

/// An item.
#[tactic(auto, unfolding(crate::specs::Grammar::item))]
fn item<'a>(alloc: Global, cursor: Cursor<'a>) -> Result<(Item, Cursor<'a>), Stop<'a>>
    ensures { IsReadingOf item cursor.entry result }
{
    if begins_named(cursor) {
        return named_item(alloc, cursor);
    }
    let cursor = cursor.without(Terminal::Package);
    if begins_number(cursor) {
        return number_item(alloc, cursor);
    }
    let cursor = cursor.without(Terminal::StatIndex);
    if begins_type(cursor) {
        return type_item(alloc, cursor);
    }
    proc_item(alloc, cursor.without(Terminal::Typedef))
}

/// All items, up to what begins none.
fn items<'a>(alloc: Global, cursor: Cursor<'a>) -> Result<(Items<Item>, Cursor<'a>), Stop<'a>>
    ensures { IsReadingOf file cursor.entry result }
{
    let mut items = Vec::new(alloc);
    let mut place = cursor;
    'each: while begins_item(place) {
        let (item, behind) = item(alloc, place)?;
        items.push(item)?;
        place = behind;
    }
    Ok((Items::of(items), place.without(Terminal::Package)))
}

/// The fault of the place.
fn fault_at(cursor: Cursor<'_>, last: u32) -> ParseFault
    ensures { result ≡ place_fault (cursor_place cursor.entry) last }
{
    let want = cursor.tried.unwrap_or(Terminal::Package);
    match cursor.rest.first() {
        None => ParseFault::Unexpected { line: last, want },
        Some(token) => match out_word_of(token) {
            None => ParseFault::Unexpected {
                line: token.line,
                want,
            },
            Some(word) => ParseFault::OutByName {
                line: token.line,
                word,
            },
        },
    }
}

/// All tokens, from the first.
fn read_all(alloc: Global, tokens: &Tokens) -> Result<Tree, ParseFault>
    ensures { IsParsed tokens.now result }
{
    match items(alloc, Cursor::at(tokens.items.as_slice())) {
        Ok((items, cursor)) => {
            if cursor.rest.is_empty() {
                Ok(Tree { items })
            } else {
                Err(fault_at(cursor, tokens.last))
            }
        }
        Err(Stop::Refused(cursor)) => Err(fault_at(cursor, tokens.last)),
        Err(Stop::Memory) => Err(ParseFault::OutOfMemory),
    }
}

/// The tree of the tokens, or the first token that no text of the grammar has there. The time
/// grows with the tokens alone, and nothing nests.
pub fn parse(alloc: Global, tokens: &Tokens) -> Result<Tree, ParseFault>
    // What is given is the tree of the tokens, or their first refusal.
    ensures tree { IfOk result (IsTreeOf tokens.now.items) }
    ensures fault { IfErr result (λ f. f ≢ ParseFault.OutOfMemory → IsFirstRefusal tokens.now f) }
    // A tree that the tokens have is given, and so is a refusal, unless there is no memory.
    ensures only_tree { (tree : Tree) → IsTreeOf tokens.now.items tree
        → result ≢ Err ParseFault.OutOfMemory → result ≡ Ok tree }
    ensures only_fault { (f : ParseFault) → IsFirstRefusal tokens.now f
        → result ≢ Err ParseFault.OutOfMemory → result ≡ Err f }
{
    read_all(alloc, tokens)
}
