//! The items of a file.

ghost use Rattle.std.specs.Prelude.{◌≡◌};
ghost use Rattle.std.specs.Option.{option_copied};
ghost use Rattle.xg_parse.specs.Grammar.{package_item, prefix_item, stat_index_item, starting_opcode_item};
ghost use Rattle.xg_parse.specs.Grammar.{const_item, typedef_item};
ghost use Rattle.xg_parse.specs.Grammar.{enum_item, struct_item, union_item, proc_line, proc_item};
ghost use Rattle.xg_parse.specs.Grammar.{named_item, number_item, type_item};
ghost use Rattle.xg_parse.specs.Gives.{IsReadingOf};

use crate::consts::{const_word, name, optional_value, text_of, value};
use crate::cursor::{Cursor, Stop};
use crate::decls::decl_line;
use crate::lists::{decl_lines, members};
use crate::procs::{arguments, optional_kind};
use crate::terminal::Terminal;
use crate::tree::{Item, Part};
use crate::unions::{arms, tag};
use std::alloc::Global;
use xg_lex::Token;

/// `"package" NAME [ ";" ]`
#[tactic(auto, unfolding(crate::specs::Grammar::package_item))]
fn package_item<'a>(alloc: Global, cursor: Cursor<'a>) -> Result<(Item, Cursor<'a>), Stop<'a>>
    ensures { IsReadingOf package_item cursor.entry result }
{
    let (first, cursor) = cursor.expect(Terminal::Package)?;
    let (said, cursor) = name(alloc, cursor)?;
    let (_, cursor) = cursor.optional(Terminal::Semicolon)?;
    let line = first.line;
    let part = Part::Package(said);
    Ok((Item { line, part }, cursor))
}

/// `"prefix" NAME [ ";" ]`
#[tactic(auto, unfolding(crate::specs::Grammar::prefix_item))]
fn prefix_item<'a>(alloc: Global, cursor: Cursor<'a>) -> Result<(Item, Cursor<'a>), Stop<'a>>
    ensures { IsReadingOf prefix_item cursor.entry result }
{
    let (first, cursor) = cursor.expect(Terminal::Prefix)?;
    let (said, cursor) = name(alloc, cursor)?;
    let (_, cursor) = cursor.optional(Terminal::Semicolon)?;
    let line = first.line;
    let part = Part::Prefix(said);
    Ok((Item { line, part }, cursor))
}

/// `"statindex" CONST [ ";" ]`
#[tactic(auto, unfolding(crate::specs::Grammar::stat_index_item))]
fn stat_index_item<'a>(alloc: Global, cursor: Cursor<'a>) -> Result<(Item, Cursor<'a>), Stop<'a>>
    ensures { IsReadingOf stat_index_item cursor.entry result }
{
    let (first, cursor) = cursor.expect(Terminal::StatIndex)?;
    let (said, cursor) = const_word(alloc, cursor)?;
    let (_, cursor) = cursor.optional(Terminal::Semicolon)?;
    let line = first.line;
    let part = Part::StatIndex(said);
    Ok((Item { line, part }, cursor))
}

/// `"startingopcode" CONST [ ";" ]`
#[tactic(auto, unfolding(crate::specs::Grammar::starting_opcode_item))]
fn starting_opcode_item<'a>(
    alloc: Global,
    cursor: Cursor<'a>,
) -> Result<(Item, Cursor<'a>), Stop<'a>>
    ensures { IsReadingOf starting_opcode_item cursor.entry result }
{
    let (first, cursor) = cursor.expect(Terminal::StartingOpcode)?;
    let (said, cursor) = const_word(alloc, cursor)?;
    let (_, cursor) = cursor.optional(Terminal::Semicolon)?;
    let line = first.line;
    let part = Part::StartingOpcode(said);
    Ok((Item { line, part }, cursor))
}

/// `"const" NAME "=" CONST ";"`
#[tactic(auto, unfolding(crate::specs::Grammar::const_item))]
fn const_item<'a>(alloc: Global, cursor: Cursor<'a>) -> Result<(Item, Cursor<'a>), Stop<'a>>
    ensures { IsReadingOf const_item cursor.entry result }
{
    let (first, cursor) = cursor.expect(Terminal::Const)?;
    let (name, cursor) = name(alloc, cursor)?;
    let (value, cursor) = value(alloc, cursor)?;
    let (_, cursor) = cursor.expect(Terminal::Semicolon)?;
    let line = first.line;
    let part = Part::Const { name, value };
    Ok((Item { line, part }, cursor))
}

/// `"typedef" DECL ";"`
#[tactic(auto, unfolding(crate::specs::Grammar::typedef_item))]
fn typedef_item<'a>(alloc: Global, cursor: Cursor<'a>) -> Result<(Item, Cursor<'a>), Stop<'a>>
    ensures { IsReadingOf typedef_item cursor.entry result }
{
    let (first, cursor) = cursor.expect(Terminal::Typedef)?;
    let (decl, cursor) = decl_line(alloc, cursor)?;
    let line = first.line;
    let part = Part::Typedef(decl);
    Ok((Item { line, part }, cursor))
}

/// `"enum" NAME "{" MEMB { "," MEMB } "}" ";"`
#[tactic(auto, unfolding(crate::specs::Grammar::enum_item))]
fn enum_item<'a>(alloc: Global, cursor: Cursor<'a>) -> Result<(Item, Cursor<'a>), Stop<'a>>
    ensures { IsReadingOf enum_item cursor.entry result }
{
    let (first, cursor) = cursor.expect(Terminal::Enum)?;
    let (name, cursor) = name(alloc, cursor)?;
    let (_, cursor) = cursor.expect(Terminal::LeftBrace)?;
    let (members, cursor) = members(alloc, cursor)?;
    let (_, cursor) = cursor.expect(Terminal::RightBrace)?;
    let (_, cursor) = cursor.expect(Terminal::Semicolon)?;
    let line = first.line;
    let part = Part::Enum { name, members };
    Ok((Item { line, part }, cursor))
}

/// `"struct" NAME "{" { DECL ";" } "}" ";"`
#[tactic(auto, unfolding(crate::specs::Grammar::struct_item))]
fn struct_item<'a>(alloc: Global, cursor: Cursor<'a>) -> Result<(Item, Cursor<'a>), Stop<'a>>
    ensures { IsReadingOf struct_item cursor.entry result }
{
    let (first, cursor) = cursor.expect(Terminal::Struct)?;
    let (name, cursor) = name(alloc, cursor)?;
    let (_, cursor) = cursor.expect(Terminal::LeftBrace)?;
    let (fields, cursor) = decl_lines(alloc, cursor)?;
    let (_, cursor) = cursor.expect(Terminal::RightBrace)?;
    let (_, cursor) = cursor.expect(Terminal::Semicolon)?;
    let line = first.line;
    let part = Part::Struct { name, fields };
    Ok((Item { line, part }, cursor))
}

/// `"union" NAME "switch" "(" TYPE NAME ")" "{" { CASE { CASE } ARM } [ "default" ":" ARM ] "}" ";"`
#[tactic(auto, unfolding(crate::specs::Grammar::union_item))]
fn union_item<'a>(alloc: Global, cursor: Cursor<'a>) -> Result<(Item, Cursor<'a>), Stop<'a>>
    ensures { IsReadingOf union_item cursor.entry result }
{
    let (first, cursor) = cursor.expect(Terminal::Union)?;
    let (name, cursor) = name(alloc, cursor)?;
    let ((tag, tag_name), cursor) = tag(alloc, cursor)?;
    let ((arms, otherwise), cursor) = arms(alloc, cursor)?;
    let (_, cursor) = cursor.expect(Terminal::Semicolon)?;
    let line = first.line;
    let part = Part::Union {
        name,
        tag,
        tag_name,
        arms,
        otherwise,
    };
    Ok((Item { line, part }, cursor))
}

fn proc_line(first: Option<&Token>, named: &Token) -> u32
    ensures { result ≡ proc_line (option_copied first.entry) named.now }
{
    match first {
        None => named.line,
        Some(first) => first.line,
    }
}

/// `[ "proc" ] NAME "(" [ ARG { "," ARG } ] ")" [ "split" | "multi" ] [ "=" CONST ] ";"`
#[tactic(auto, unfolding(crate::specs::Grammar::proc_item))]
pub fn proc_item<'a>(alloc: Global, cursor: Cursor<'a>) -> Result<(Item, Cursor<'a>), Stop<'a>>
    ensures { IsReadingOf proc_item cursor.entry result }
{
    let (first, cursor) = cursor.optional(Terminal::Proc)?;
    let (named, cursor) = cursor.expect(Terminal::Name)?;
    let (args, cursor) = arguments(alloc, cursor)?;
    let (kind, cursor) = optional_kind(cursor)?;
    let (opcode, cursor) = optional_value(alloc, cursor)?;
    let (_, cursor) = cursor.expect(Terminal::Semicolon)?;
    let line = proc_line(first, named);
    let name = text_of(alloc, named)?;
    let part = Part::Proc {
        name,
        args,
        kind,
        opcode,
    };
    Ok((Item { line, part }, cursor))
}

/// What the file is called.
#[tactic(auto, unfolding(crate::specs::Grammar::named_item, crate::specs::Grammar::package_item))]
pub fn named_item<'a>(alloc: Global, cursor: Cursor<'a>) -> Result<(Item, Cursor<'a>), Stop<'a>>
    ensures { IsReadingOf named_item cursor.entry result }
{
    if cursor.is(Terminal::Package) {
        return package_item(alloc, cursor);
    }
    prefix_item(alloc, cursor.without(Terminal::Package))
}

/// A number of the file, or a constant.
#[tactic(auto, unfolding(crate::specs::Grammar::number_item, crate::specs::Grammar::stat_index_item, crate::specs::Grammar::starting_opcode_item))]
pub fn number_item<'a>(alloc: Global, cursor: Cursor<'a>) -> Result<(Item, Cursor<'a>), Stop<'a>>
    ensures { IsReadingOf number_item cursor.entry result }
{
    if cursor.is(Terminal::StatIndex) {
        return stat_index_item(alloc, cursor);
    }
    let cursor = cursor.without(Terminal::StatIndex);
    if cursor.is(Terminal::StartingOpcode) {
        return starting_opcode_item(alloc, cursor);
    }
    const_item(alloc, cursor.without(Terminal::StartingOpcode))
}

/// A type.
#[tactic(auto, unfolding(crate::specs::Grammar::type_item, crate::specs::Grammar::typedef_item, crate::specs::Grammar::enum_item, crate::specs::Grammar::struct_item))]
pub fn type_item<'a>(alloc: Global, cursor: Cursor<'a>) -> Result<(Item, Cursor<'a>), Stop<'a>>
    ensures { IsReadingOf type_item cursor.entry result }
{
    if cursor.is(Terminal::Typedef) {
        return typedef_item(alloc, cursor);
    }
    let cursor = cursor.without(Terminal::Typedef);
    if cursor.is(Terminal::Enum) {
        return enum_item(alloc, cursor);
    }
    let cursor = cursor.without(Terminal::Enum);
    if cursor.is(Terminal::Struct) {
        return struct_item(alloc, cursor);
    }
    union_item(alloc, cursor.without(Terminal::Struct))
}
