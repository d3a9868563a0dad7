//! Types and declarations.

ghost use Rattle.std.specs.Prelude.{◌≡◌, IfOk};
ghost use Rattle.std.specs.Option.{option_copied};
ghost use Rattle.xg_parse.specs.Rules.{has, word};
ghost use Rattle.xg_parse.specs.Grammar.{is_between, is_simple, is_integer, is_tag_word, optional_integer};
ghost use Rattle.xg_parse.specs.Grammar.{optional_tag, optional_bound, two_words, type_word, fixed, bounded};
ghost use Rattle.xg_parse.specs.Grammar.{bound, opaque_form, typed_form, declared, decl, decl_line};
ghost use Rattle.xg_parse.specs.Gives.{IsReadingOf, IsTokenOf, IsTokenIfThere};

use crate::consts::{const_word, name, text_of};
use crate::cursor::{Cursor, Stop};
use crate::terminal::Terminal;
use crate::tree::{Bound, ConstWord, Decl, Form, Suffix, TypeWord};
use std::alloc::{AllocError, Global};
use xg_lex::{Text, Token};

fn is_between(low: Terminal, high: Terminal, terminal: Terminal) -> bool
    ensures { result ≡ is_between low high terminal }
{
    low.rank() <= terminal.rank() && terminal.rank() <= high.rank()
}

/// Whether the next token is a type of one word, from `int` to `bool` or from `u_int` to `afs_uint64`.
pub fn is_simple(cursor: Cursor<'_>) -> bool
    ensures { result ≡ has is_simple cursor.entry.next }
{
    match cursor.next {
        None => false,
        Some(next) => {
            is_between(Terminal::Int, Terminal::Bool, next)
                || is_between(Terminal::UInt, Terminal::AfsUint64, next)
        }
    }
}

fn is_integer(cursor: Cursor<'_>) -> bool
    ensures { result ≡ has is_integer cursor.entry.next }
{
    match cursor.next {
        None => false,
        Some(next) => is_between(Terminal::Int, Terminal::Hyper, next),
    }
}

/// Whether the next token is `struct`, `enum` or `union`.
pub fn is_tag(cursor: Cursor<'_>) -> bool
    ensures { result ≡ has is_tag_word cursor.entry.next }
{
    cursor.is(Terminal::Struct) || cursor.is(Terminal::Enum) || cursor.is(Terminal::Union)
}

fn simple<'a>(cursor: Cursor<'a>) -> Result<(&'a Token, Cursor<'a>), Stop<'a>>
    ensures { IsTokenOf (word is_simple) cursor.entry result }
{
    match cursor.rest.split_first() {
        None => Err(Stop::Refused(cursor.without(Terminal::Int))),
        Some((token, rest)) => {
            if is_simple(cursor) {
                Ok((token, Cursor::at(rest)))
            } else {
                Err(Stop::Refused(cursor.without(Terminal::Int)))
            }
        }
    }
}

fn integer<'a>(cursor: Cursor<'a>) -> Result<(&'a Token, Cursor<'a>), Stop<'a>>
    ensures { IsTokenOf (word is_integer) cursor.entry result }
{
    match cursor.rest.split_first() {
        None => Err(Stop::Refused(cursor.without(Terminal::Int))),
        Some((token, rest)) => {
            if is_integer(cursor) {
                Ok((token, Cursor::at(rest)))
            } else {
                Err(Stop::Refused(cursor.without(Terminal::Int)))
            }
        }
    }
}

fn tag<'a>(cursor: Cursor<'a>) -> Result<(&'a Token, Cursor<'a>), Stop<'a>>
    ensures { IsTokenOf (word is_tag_word) cursor.entry result }
{
    match cursor.rest.split_first() {
        None => Err(Stop::Refused(cursor.without(Terminal::Enum))),
        Some((token, rest)) => {
            if is_tag(cursor) {
                Ok((token, Cursor::at(rest)))
            } else {
                Err(Stop::Refused(cursor.without(Terminal::Enum)))
            }
        }
    }
}

#[tactic(auto, unfolding(crate::specs::Grammar::optional_integer))]
fn optional_integer<'a>(cursor: Cursor<'a>) -> Result<(Option<&'a Token>, Cursor<'a>), Stop<'a>>
    ensures { IsTokenIfThere optional_integer cursor.entry result }
{
    if is_integer(cursor) {
        let (token, cursor) = integer(cursor)?;
        return Ok((Some(token), cursor));
    }
    Ok((None, cursor.without(Terminal::Int)))
}

#[tactic(auto, unfolding(crate::specs::Grammar::optional_tag))]
fn optional_tag<'a>(cursor: Cursor<'a>) -> Result<(Option<&'a Token>, Cursor<'a>), Stop<'a>>
    ensures { IsTokenIfThere optional_tag cursor.entry result }
{
    if is_tag(cursor) {
        let (token, cursor) = tag(cursor)?;
        return Ok((Some(token), cursor));
    }
    Ok((None, cursor.without(Terminal::Enum)))
}

/// The words with a space between them.
fn two_words(alloc: Global, first: &Token, second: Option<&Token>) -> Result<Text, AllocError>
    ensures { IfOk result (λ t. t ≡ two_words first.now.text (option_copied second.entry)) }
{
    let mut words = String::from_str(alloc, first.text.as_str())?;
    if let Some(second) = second {
        words.push_str(" ")?;
        words.push_str(second.text.as_str())?;
    }
    Ok(Text::of(words))
}

/// A type.
#[tactic(auto, unfolding(crate::specs::Grammar::type_word))]
pub fn type_word<'a>(alloc: Global, cursor: Cursor<'a>) -> Result<(TypeWord, Cursor<'a>), Stop<'a>>
    ensures { IsReadingOf type_word cursor.entry result }
{
    if is_simple(cursor) {
        let (token, cursor) = simple(cursor)?;
        return Ok((TypeWord::Base(text_of(alloc, token)?), cursor));
    }
    let cursor = cursor.without(Terminal::Int);
    if cursor.is(Terminal::Unsigned) {
        let (first, cursor) = cursor.expect(Terminal::Unsigned)?;
        let (second, cursor) = optional_integer(cursor)?;
        return Ok((TypeWord::Base(two_words(alloc, first, second)?), cursor));
    }
    let (_, cursor) = optional_tag(cursor.without(Terminal::Unsigned))?;
    let (name, cursor) = name(alloc, cursor)?;
    Ok((TypeWord::Name(name), cursor))
}

/// `"[" CONST "]"`
#[tactic(auto, unfolding(crate::specs::Grammar::fixed))]
fn fixed<'a>(alloc: Global, cursor: Cursor<'a>) -> Result<(ConstWord, Cursor<'a>), Stop<'a>>
    ensures { IsReadingOf fixed cursor.entry result }
{
    let (_, cursor) = cursor.expect(Terminal::LeftBracket)?;
    let (size, cursor) = const_word(alloc, cursor)?;
    let (_, cursor) = cursor.expect(Terminal::RightBracket)?;
    Ok((size, cursor))
}

/// `"<" [ CONST ] ">"`
#[tactic(auto, unfolding(crate::specs::Grammar::bounded))]
fn bounded<'a>(
    alloc: Global,
    cursor: Cursor<'a>,
) -> Result<(Option<ConstWord>, Cursor<'a>), Stop<'a>>
    ensures { IsReadingOf bounded cursor.entry result }
{
    let (_, cursor) = cursor.expect(Terminal::Less)?;
    if cursor.is(Terminal::Greater) {
        let (_, cursor) = cursor.expect(Terminal::Greater)?;
        return Ok((None, cursor));
    }
    let (most, cursor) = const_word(alloc, cursor.without(Terminal::Greater))?;
    let (_, cursor) = cursor.expect(Terminal::Greater)?;
    Ok((Some(most), cursor))
}

#[tactic(auto, unfolding(crate::specs::Grammar::bound, crate::specs::Grammar::fixed))]
fn bound<'a>(alloc: Global, cursor: Cursor<'a>) -> Result<(Bound, Cursor<'a>), Stop<'a>>
    ensures { IsReadingOf bound cursor.entry result }
{
    if cursor.is(Terminal::LeftBracket) {
        let (size, cursor) = fixed(alloc, cursor)?;
        return Ok((Bound::Fixed(size), cursor));
    }
    let (most, cursor) = bounded(alloc, cursor.without(Terminal::LeftBracket))?;
    Ok((Bound::UpTo(most), cursor))
}

#[tactic(auto, unfolding(crate::specs::Grammar::optional_bound, crate::specs::Grammar::bound, crate::specs::Grammar::fixed, crate::specs::Grammar::bounded))]
fn optional_bound<'a>(
    alloc: Global,
    cursor: Cursor<'a>,
) -> Result<(Option<Bound>, Cursor<'a>), Stop<'a>>
    ensures { IsReadingOf optional_bound cursor.entry result }
{
    if cursor.is(Terminal::LeftBracket) || cursor.is(Terminal::Less) {
        let (bound, cursor) = bound(alloc, cursor)?;
        return Ok((Some(bound), cursor));
    }
    Ok((None, cursor.without(Terminal::LeftBracket)))
}

/// `"*" NAME | NAME [ "[" CONST "]" | "<" [ CONST ] ">" ]`
#[tactic(auto, unfolding(crate::specs::Grammar::declared))]
fn declared<'a>(alloc: Global, cursor: Cursor<'a>) -> Result<((Text, Suffix), Cursor<'a>), Stop<'a>>
    ensures { IsReadingOf declared cursor.entry result }
{
    if cursor.is(Terminal::Star) {
        let (_, cursor) = cursor.expect(Terminal::Star)?;
        let (name, cursor) = name(alloc, cursor)?;
        return Ok(((name, Suffix::Star), cursor));
    }
    let (name, cursor) = name(alloc, cursor.without(Terminal::Star))?;
    let (bound, cursor) = optional_bound(alloc, cursor)?;
    Ok(((name, Suffix::Bound(bound)), cursor))
}

fn opaque_form(bound: Bound) -> Form
    ensures { result ≡ opaque_form bound }
{
    match bound {
        Bound::Fixed(size) => Form::Opaque(size),
        Bound::UpTo(most) => Form::OpaqueUpTo(most),
    }
}

fn typed_form(ty: TypeWord, suffix: Suffix) -> Form
    ensures { result ≡ typed_form ty suffix }
{
    match suffix {
        Suffix::Star => Form::Star(ty),
        Suffix::Bound(None) => Form::Plain(ty),
        Suffix::Bound(Some(Bound::Fixed(size))) => Form::Fixed(ty, size),
        Suffix::Bound(Some(Bound::UpTo(most))) => Form::UpTo(ty, most),
    }
}

/// A declaration.
#[tactic(auto, unfolding(crate::specs::Grammar::decl))]
pub fn decl<'a>(alloc: Global, cursor: Cursor<'a>) -> Result<(Decl, Cursor<'a>), Stop<'a>>
    ensures { IsReadingOf decl cursor.entry result }
{
    if cursor.is(Terminal::Opaque) {
        let (_, cursor) = cursor.expect(Terminal::Opaque)?;
        let (name, cursor) = name(alloc, cursor)?;
        let (bound, cursor) = bound(alloc, cursor)?;
        let form = opaque_form(bound);
        return Ok((Decl { name, form }, cursor));
    }
    let cursor = cursor.without(Terminal::Opaque);
    if cursor.is(Terminal::StringWord) {
        let (_, cursor) = cursor.expect(Terminal::StringWord)?;
        let (name, cursor) = name(alloc, cursor)?;
        let (most, cursor) = bounded(alloc, cursor)?;
        let form = Form::Text(most);
        return Ok((Decl { name, form }, cursor));
    }
    let (ty, cursor) = type_word(alloc, cursor.without(Terminal::StringWord))?;
    let ((name, suffix), cursor) = declared(alloc, cursor)?;
    let form = typed_form(ty, suffix);
    Ok((Decl { name, form }, cursor))
}

/// `DECL ";"`
#[tactic(auto, unfolding(crate::specs::Grammar::decl_line))]
pub fn decl_line<'a>(alloc: Global, cursor: Cursor<'a>) -> Result<(Decl, Cursor<'a>), Stop<'a>>
    ensures { IsReadingOf decl_line cursor.entry result }
{
    let (decl, cursor) = decl(alloc, cursor)?;
    let (_, cursor) = cursor.expect(Terminal::Semicolon)?;
    Ok((decl, cursor))
}
