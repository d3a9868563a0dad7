//! Why a text means no interface.

ghost use Rattle.std.specs.Prelude.{◌≡◌};
ghost use Rattle.xg_compile.specs.Faults.{lex_line, line_of, parse_line};

use std::error::Error;
use std::fmt;
use xg_check::CheckFault;
use xg_lex::LexFault;
use xg_parse::ParseFault;

/// The first fault of a text. Tokens are looked at first, then the grammar, then the meaning.
#[derive(Debug, Drop)]
pub enum CompileFault {
    /// No part of an interface file can stand at a place of the text.
    Lex(LexFault),
    /// No text of the grammar has a token where it stands.
    Parse(ParseFault),
    /// The tree of the text means no interface.
    Check(CheckFault),
    /// There is no memory for the interface.
    OutOfMemory,
}

fn lex_line(fault: LexFault) -> u32
    ensures { result ≡ lex_line fault }
{
    match fault {
        LexFault::BadLine { line } => line,
        LexFault::BadNumber { line } => line,
        LexFault::BadChar { line } => line,
        LexFault::OutOfMemory => 0,
    }
}

fn parse_line(fault: ParseFault) -> u32
    ensures { result ≡ parse_line fault }
{
    match fault {
        ParseFault::Unexpected { line, .. } => line,
        ParseFault::OutByName { line, .. } => line,
        ParseFault::OutOfMemory => 0,
    }
}

impl CompileFault {
    /// The line of the fault, counted from 1. It is 0 where the fault is of no line: what a text means is said of the
    /// whole text.
    pub fn line(&self) -> u32
        ensures { result ≡ line_of self.now }
    {
        match self {
            CompileFault::Lex(fault) => lex_line(*fault),
            CompileFault::Parse(fault) => parse_line(*fault),
            CompileFault::Check(_) => 0,
            CompileFault::OutOfMemory => 0,
        }
    }
}

impl From<LexFault> for CompileFault {
    ghost use Rattle.std.specs.Prelude.{◌≡◌};
    ghost use Rattle.xg_compile.specs.Faults.{lex_fault};

    ghost from_gives = { λ fault given. given ≡ lex_fault fault };

    fn from(fault: LexFault) -> CompileFault {
        match fault {
            LexFault::OutOfMemory => CompileFault::OutOfMemory,
            LexFault::BadLine { .. } | LexFault::BadNumber { .. } | LexFault::BadChar { .. } => {
                CompileFault::Lex(fault)
            }
        }
    }
}

impl From<ParseFault> for CompileFault {
    ghost use Rattle.std.specs.Prelude.{◌≡◌};
    ghost use Rattle.xg_compile.specs.Faults.{parse_fault};

    ghost from_gives = { λ fault given. given ≡ parse_fault fault };

    fn from(fault: ParseFault) -> CompileFault {
        match fault {
            ParseFault::OutOfMemory => CompileFault::OutOfMemory,
            ParseFault::Unexpected { .. } | ParseFault::OutByName { .. } => {
                CompileFault::Parse(fault)
            }
        }
    }
}

impl From<CheckFault> for CompileFault {
    ghost use Rattle.std.specs.Prelude.{◌≡◌};
    ghost use Rattle.xg_compile.specs.Faults.{check_fault};

    ghost from_gives = { λ fault given. given ≡ check_fault fault };

    fn from(fault: CheckFault) -> CompileFault {
        match fault {
            CheckFault::OutOfMemory => CompileFault::OutOfMemory,
            CheckFault::Twice { name } => CompileFault::Check(CheckFault::Twice { name }),
            CheckFault::Unknown { name } => CompileFault::Check(CheckFault::Unknown { name }),
            CheckFault::Size { name } => CompileFault::Check(CheckFault::Size { name }),
            CheckFault::Endless { name } => CompileFault::Check(CheckFault::Endless { name }),
            CheckFault::Opcode { name } => CompileFault::Check(CheckFault::Opcode { name }),
            CheckFault::OpcodeTwice { n } => CompileFault::Check(CheckFault::OpcodeTwice { n }),
        }
    }
}

impl fmt::Display for CompileFault {
    ghost use Rattle.std.specs.Prelude.{Some};
    ghost use Rattle.xg_compile.specs.Faults.{why_text};

    ghost output = { λ fault. Some (why_text fault) };

    fn fmt<W: fmt::Write>(&self, f: &mut fmt::Formatter<W>) -> fmt::Result {
        match self {
            CompileFault::Lex(fault) => write!(f, "{fault}"),
            CompileFault::Parse(fault) => write!(f, "{fault}"),
            CompileFault::Check(fault) => write!(f, "{fault}"),
            CompileFault::OutOfMemory => f.write_str("out of memory"),
        }
    }
}

impl Error for CompileFault {}
