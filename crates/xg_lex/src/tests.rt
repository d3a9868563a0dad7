use crate::{LexFault, Token, TokenKind, Tokens, lex};
use std::alloc::{AllocError, Global};
use std::process::Abort;
use std::test::*;

/// A token as its line, its text, and the value of a number.
fn write_token(out: &mut String, token: &Token) -> Result<(), AllocError> {
    let line = token.line;
    let text = token.text.as_str();
    match token.kind {
        TokenKind::Number(n) => write!(out, "{line}:{text}={n} "),
        TokenKind::Name => write!(out, "{line}:{text} "),
        TokenKind::Sign => write!(out, "{line}{text} "),
    }
}

/// The tokens and the number of the last line.
fn tokens_text(alloc: Global, tokens: &Tokens) -> Result<String, AllocError> {
    let mut out = String::new(alloc);
    for token in tokens.items.as_slice() {
        write_token(&mut out, token)?;
    }
    let last = tokens.last;
    write!(out, "{last}")?;
    Ok(out)
}

fn fault_text(alloc: Global, fault: LexFault) -> Result<String, AllocError> {
    match fault {
        LexFault::BadLine { line } => format!(in alloc; "{fault} {line}"),
        LexFault::BadNumber { line } => format!(in alloc; "{fault} {line}"),
        LexFault::BadChar { line } => format!(in alloc; "{fault} {line}"),
        LexFault::OutOfMemory => format!(in alloc; "{fault}"),
    }
}

fn answer(alloc: Global, text: &str) -> Result<String, AllocError> {
    match lex(alloc, text) {
        Ok(tokens) => tokens_text(alloc, &tokens),
        Err(fault) => fault_text(alloc, fault),
    }
}

fn check(rt: &impl Abort, alloc: Global, rows: &[(&str, &str)]) -> Result<(), AllocError> {
    for (text, wanted) in rows {
        let got = answer(alloc, text)?;
        assert_eq!(rt; got.as_str(), *wanted, "{text}");
    }
    Ok(())
}

/// Texts, and their tokens with their lines.
static TOKENS: [(&str, &str); 17] = [
    ("", "1"),
    ("\n", "1"),
    ("\n\n", "2"),
    ("const A = 3\n", "1:const 1:A 1= 1:3=3 1"),
    ("const A\n= 3;", "1:const 1:A 2= 2:3=3 2; 2"),
    ("\t a b\t", "1:a 1:b 1"),
    (
        "{}()[]<>;,:=*-",
        "1{ 1} 1( 1) 1[ 1] 1< 1> 1; 1, 1: 1= 1* 1- 1",
    ),
    ("_a1 A_9", "1:_a1 1:A_9 1"),
    ("%skipped \u{e9}\r\nA", "2:A 2"),
    ("# 12 \"f.xg\" 3\nA", "2:A 2"),
    ("#   007   \"\"\nA", "2:A 2"),
    ("A\n%B\n# 1 \"g\"x\nC\n", "1:A 4:C 4"),
    ("/* a\nb */ C", "2:C 2"),
    ("/* a\n# no mark\n% */ C", "3:C 3"),
    ("/**/A/***/B/* * / */C", "1:A 1:B 1:C 1"),
    ("A/*\n*/\nB", "1:A 3:B 3"),
    ("/*/ A */ B", "1:B 1"),
];

#[test]
fn tokens_have_their_lines(rt: HostRuntime) -> Result<(), AllocError> {
    check(&rt, rt.alloc(), &TOKENS)
}

/// Texts, and the numbers in them.
static NUMBERS: [(&str, &str); 13] = [
    ("0", "1:0=0 1"),
    ("00", "1:00=0 1"),
    ("010", "1:010=8 1"),
    ("0777", "1:0777=511 1"),
    ("10", "1:10=10 1"),
    ("0x10", "1:0x10=16 1"),
    ("0xaF", "1:0xaF=175 1"),
    (
        "18446744073709551615",
        "1:18446744073709551615=18446744073709551615 1",
    ),
    (
        "0xffffffffffffffff",
        "1:0xffffffffffffffff=18446744073709551615 1",
    ),
    (
        "01777777777777777777777",
        "1:01777777777777777777777=18446744073709551615 1",
    ),
    ("1_0", "1:1=1 1:_0 1"),
    ("0x1_", "1:0x1=1 1:_ 1"),
    ("1-2", "1:1=1 1- 1:2=2 1"),
];

#[test]
fn numbers_have_their_values(rt: HostRuntime) -> Result<(), AllocError> {
    check(&rt, rt.alloc(), &NUMBERS)
}

/// Texts, and the first fault of each.
static FAULTS: [(&str, &str); 41] = [
    ("const A = 08;", "badnumber 1"),
    ("#define A 1", "badline 1"),
    ("09", "badnumber 1"),
    ("1a", "badnumber 1"),
    ("0x", "badnumber 1"),
    ("0X1", "badnumber 1"),
    ("0xg", "badnumber 1"),
    ("0x1g", "badnumber 1"),
    ("017z", "badnumber 1"),
    ("18446744073709551616", "badnumber 1"),
    ("0x10000000000000000", "badnumber 1"),
    ("02000000000000000000000", "badnumber 1"),
    ("A\n  12a", "badnumber 2"),
    ("A\r\n", "badchar 1"),
    ("A . B", "badchar 1"),
    ("\"A\"", "badchar 1"),
    ("\u{e9}", "badchar 1"),
    ("A\n\n+", "badchar 3"),
    (" #", "badchar 1"),
    ("A # 1 \"f\"", "badchar 1"),
    (" % no", "badchar 1"),
    ("/* a\n */%b", "badchar 2"),
    ("/", "badchar 1"),
    ("A / B", "badchar 1"),
    ("A\n/* b\nc 08", "badchar 2"),
    ("/*/", "badchar 1"),
    ("*/", "badchar 1"),
    ("#", "badline 1"),
    ("A\n#", "badline 2"),
    ("# 1 f", "badline 1"),
    ("#1 \"f\"", "badline 1"),
    ("# 1\"f\"", "badline 1"),
    ("# \"f\"", "badline 1"),
    ("#\t1 \"f\"", "badline 1"),
    ("# 1\t\"f\"", "badline 1"),
    ("# 1 \"f", "badline 1"),
    ("# 1 \"f\n\"", "badline 1"),
    ("# 1a \"f\"", "badline 1"),
    ("08 .\n#", "badnumber 1"),
    (". 08\n#", "badchar 1"),
    ("#\n08 .", "badline 1"),
];

#[test]
fn the_first_fault_is_told(rt: HostRuntime) -> Result<(), AllocError> {
    check(&rt, rt.alloc(), &FAULTS)
}
