//! The terminals of tokens.

ghost use Rattle.std.specs.Prelude.{◌≡◌};
ghost use Rattle.xg_parse.specs.Words.{looked_up, item_words, part_words, type_words, out_words, signs};
ghost use Rattle.xg_parse.specs.Words.{word_terminal, terminal_of, out_word_of};

use crate::out_word::OutWord;
use crate::terminal::Terminal;
use xg_lex::{Token, TokenKind};

/// The words of items.
fn item_word(text: &str) -> Option<Terminal>
    ensures { result ≡ looked_up text.now item_words }
{
    match text {
        "package" => Some(Terminal::Package),
        "prefix" => Some(Terminal::Prefix),
        "statindex" => Some(Terminal::StatIndex),
        "startingopcode" => Some(Terminal::StartingOpcode),
        "const" => Some(Terminal::Const),
        "typedef" => Some(Terminal::Typedef),
        "enum" => Some(Terminal::Enum),
        "struct" => Some(Terminal::Struct),
        "union" => Some(Terminal::Union),
        "proc" => Some(Terminal::Proc),
        _ => None,
    }
}

/// The words within items.
fn part_word(text: &str) -> Option<Terminal>
    ensures { result ≡ looked_up text.now part_words }
{
    match text {
        "switch" => Some(Terminal::Switch),
        "case" => Some(Terminal::Case),
        "default" => Some(Terminal::Default),
        "void" => Some(Terminal::Void),
        "split" => Some(Terminal::Split),
        "multi" => Some(Terminal::Multi),
        "IN" => Some(Terminal::In),
        "OUT" => Some(Terminal::Out),
        "INOUT" => Some(Terminal::InOut),
        _ => None,
    }
}

/// The words of types.
fn type_word(text: &str) -> Option<Terminal>
    ensures { result ≡ looked_up text.now type_words }
{
    match text {
        "int" => Some(Terminal::Int),
        "long" => Some(Terminal::Long),
        "short" => Some(Terminal::Short),
        "char" => Some(Terminal::Char),
        "hyper" => Some(Terminal::Hyper),
        "bool" => Some(Terminal::Bool),
        "unsigned" => Some(Terminal::Unsigned),
        "u_int" => Some(Terminal::UInt),
        "u_long" => Some(Terminal::ULong),
        "u_short" => Some(Terminal::UShort),
        "u_char" => Some(Terminal::UChar),
        "afs_int32" => Some(Terminal::AfsInt32),
        "afs_uint32" => Some(Terminal::AfsUint32),
        "afs_int64" => Some(Terminal::AfsInt64),
        "afs_uint64" => Some(Terminal::AfsUint64),
        "opaque" => Some(Terminal::Opaque),
        "string" => Some(Terminal::StringWord),
        _ => None,
    }
}

/// The words that are out by name.
fn out_word(text: &str) -> Option<OutWord>
    ensures { result ≡ looked_up text.now out_words }
{
    match text {
        "customized" => Some(OutWord::Customized),
        "special" => Some(OutWord::Special),
        "splitprefix" => Some(OutWord::SplitPrefix),
        "float" => Some(OutWord::Float),
        "double" => Some(OutWord::Double),
        "quadruple" => Some(OutWord::Quadruple),
        "program" => Some(OutWord::Program),
        "version" => Some(OutWord::Version),
        _ => None,
    }
}

/// The signs.
fn sign(text: &str) -> Option<Terminal>
    ensures { result ≡ looked_up text.now signs }
{
    match text {
        "{" => Some(Terminal::LeftBrace),
        "}" => Some(Terminal::RightBrace),
        "(" => Some(Terminal::LeftParen),
        ")" => Some(Terminal::RightParen),
        "[" => Some(Terminal::LeftBracket),
        "]" => Some(Terminal::RightBracket),
        "<" => Some(Terminal::Less),
        ">" => Some(Terminal::Greater),
        ";" => Some(Terminal::Semicolon),
        "," => Some(Terminal::Comma),
        ":" => Some(Terminal::Colon),
        "=" => Some(Terminal::Equals),
        "*" => Some(Terminal::Star),
        "-" => Some(Terminal::Minus),
        _ => None,
    }
}

#[tactic(auto, unfolding(crate::specs::Words::word_terminal))]
fn word_terminal(text: &str) -> Option<Terminal>
    ensures { result ≡ word_terminal text.now }
{
    if let Some(terminal) = item_word(text) {
        return Some(terminal);
    }
    if let Some(terminal) = part_word(text) {
        return Some(terminal);
    }
    if let Some(terminal) = type_word(text) {
        return Some(terminal);
    }
    match out_word(text) {
        None => Some(Terminal::Name),
        Some(_) => None,
    }
}

/// The terminal that a token is: none, where no text of the grammar has it.
#[tactic(auto, unfolding(crate::specs::Words::terminal_by))]
pub fn terminal_of(token: &Token) -> Option<Terminal>
    ensures { result ≡ terminal_of token.now }
{
    match token.kind {
        TokenKind::Name => word_terminal(token.text.as_str()),
        TokenKind::Number(_) => Some(Terminal::Number),
        TokenKind::Sign => sign(token.text.as_str()),
    }
}

/// The word that is out by name.
pub fn out_word_of(token: &Token) -> Option<OutWord>
    ensures { result ≡ out_word_of token.now }
{
    match token.kind {
        TokenKind::Name => out_word(token.text.as_str()),
        TokenKind::Number(_) | TokenKind::Sign => None,
    }
}
