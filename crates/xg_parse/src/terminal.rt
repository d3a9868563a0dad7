//! The terminals of the grammar.

ghost use Rattle.std.specs.Prelude.{◌≡◌};
ghost use Rattle.xg_parse.specs.Terminals.{order_of, same, terminal_text};

use std::fmt;

/// A terminal of the grammar, in the order in which each first appears there.
#[derive(Clone, Copy, Debug)]
pub enum Terminal {
    Package,
    Name,
    Semicolon,
    Prefix,
    StatIndex,
    StartingOpcode,
    Const,
    Equals,
    Typedef,
    Enum,
    LeftBrace,
    Comma,
    RightBrace,
    Struct,
    Union,
    Switch,
    LeftParen,
    RightParen,
    Default,
    Colon,
    Proc,
    Split,
    Multi,
    Case,
    Void,
    In,
    Out,
    InOut,
    Star,
    LeftBracket,
    RightBracket,
    Less,
    Greater,
    Opaque,
    StringWord,
    Minus,
    Number,
    Int,
    Long,
    Short,
    Char,
    Hyper,
    Bool,
    Unsigned,
    UInt,
    ULong,
    UShort,
    UChar,
    AfsInt32,
    AfsUint32,
    AfsInt64,
    AfsUint64,
}

impl Terminal {
    /// Its place in the order of the grammar, from 0.
    pub fn rank(self) -> u8
        ensures { result ≡ order_of self }
    {
        self as u8
    }

    /// Whether it is that terminal.
    pub fn is(self, other: Terminal) -> bool
        ensures { result ≡ same other self }
    {
        self.rank() == other.rank()
    }

    /// Its text in the grammar; `NAME` and `NUM` stand for a name and a number.
    pub fn as_str(self) -> &'static str
        ensures { result.now ≡ terminal_text self }
    {
        match self {
            Terminal::Package => "package",
            Terminal::Name => "NAME",
            Terminal::Semicolon => ";",
            Terminal::Prefix => "prefix",
            Terminal::StatIndex => "statindex",
            Terminal::StartingOpcode => "startingopcode",
            Terminal::Const => "const",
            Terminal::Equals => "=",
            Terminal::Typedef => "typedef",
            Terminal::Enum => "enum",
            Terminal::LeftBrace => "{",
            Terminal::Comma => ",",
            Terminal::RightBrace => "}",
            Terminal::Struct => "struct",
            Terminal::Union => "union",
            Terminal::Switch => "switch",
            Terminal::LeftParen => "(",
            Terminal::RightParen => ")",
            Terminal::Default => "default",
            Terminal::Colon => ":",
            Terminal::Proc => "proc",
            Terminal::Split => "split",
            Terminal::Multi => "multi",
            Terminal::Case => "case",
            Terminal::Void => "void",
            Terminal::In => "IN",
            Terminal::Out => "OUT",
            Terminal::InOut => "INOUT",
            Terminal::Star => "*",
            Terminal::LeftBracket => "[",
            Terminal::RightBracket => "]",
            Terminal::Less => "<",
            Terminal::Greater => ">",
            Terminal::Opaque => "opaque",
            Terminal::StringWord => "string",
            Terminal::Minus => "-",
            Terminal::Number => "NUM",
            Terminal::Int => "int",
            Terminal::Long => "long",
            Terminal::Short => "short",
            Terminal::Char => "char",
            Terminal::Hyper => "hyper",
            Terminal::Bool => "bool",
            Terminal::Unsigned => "unsigned",
            Terminal::UInt => "u_int",
            Terminal::ULong => "u_long",
            Terminal::UShort => "u_short",
            Terminal::UChar => "u_char",
            Terminal::AfsInt32 => "afs_int32",
            Terminal::AfsUint32 => "afs_uint32",
            Terminal::AfsInt64 => "afs_int64",
            Terminal::AfsUint64 => "afs_uint64",
        }
    }
}

/// A terminal is printed as it is written in the grammar.
impl fmt::Display for Terminal {
    ghost use Rattle.std.specs.Prelude.{Some};
    ghost use Rattle.xg_parse.specs.Terminals.{terminal_text};

    ghost output = { λ t. Some (terminal_text t) };

    fn fmt<W: fmt::Write>(&self, f: &mut fmt::Formatter<W>) -> fmt::Result {
        f.write_str(self.as_str())
    }
}
