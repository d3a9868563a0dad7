mod faults;
mod printed;

use printed::tree_text;
use std::alloc::{AllocError, Global};
use std::process::Abort;
use std::test::*;
use xg_lex::{LexFault, Tokens, lex};
use xg_parse::{ParseFault, parse};

fn token_fault_text(alloc: Global, fault: LexFault) -> Result<String, AllocError> {
    match fault {
        LexFault::BadLine { line } => format!(in alloc; "{line} {fault}"),
        LexFault::BadNumber { line } => format!(in alloc; "{line} {fault}"),
        LexFault::BadChar { line } => format!(in alloc; "{line} {fault}"),
        LexFault::OutOfMemory => format!(in alloc; "{fault}"),
    }
}

fn fault_text(alloc: Global, fault: ParseFault) -> Result<String, AllocError> {
    match fault {
        ParseFault::Unexpected { line, .. } => format!(in alloc; "{line} {fault}"),
        ParseFault::OutByName { line, .. } => format!(in alloc; "{line} {fault}"),
        ParseFault::OutOfMemory => format!(in alloc; "{fault}"),
    }
}

fn parsed(alloc: Global, tokens: &Tokens) -> Result<String, AllocError> {
    match parse(alloc, tokens) {
        Ok(tree) => tree_text(alloc, &tree),
        Err(fault) => fault_text(alloc, fault),
    }
}

/// The tree of a text, or the line and the word of its first fault.
fn answer(alloc: Global, text: &str) -> Result<String, AllocError> {
    match lex(alloc, text) {
        Ok(tokens) => parsed(alloc, &tokens),
        Err(fault) => token_fault_text(alloc, fault),
    }
}

pub fn check(rt: &impl Abort, alloc: Global, rows: &[(&str, &str)]) -> Result<(), AllocError> {
    for (text, wanted) in rows {
        let got = answer(alloc, text)?;
        assert_eq!(rt; got.as_str(), *wanted, "{text}");
    }
    Ok(())
}

/// Texts, and their trees.
static ITEMS: [(&str, &str); 17] = [
    ("", ""),
    ("package RX_", "1 package RX_."),
    ("package RX_; prefix S;", "1 package RX_.1 prefix S."),
    (
        "statindex 7\nstartingopcode A",
        "1 statindex 7.2 startingopcode A.",
    ),
    ("const A = -3; const B = A;", "1 const A=-3.1 const B=A."),
    ("const\nA\n= 0x10;", "1 const A=16."),
    ("typedef int I;", "1 typedef int I."),
    ("enum E { A };", "1 enum E A."),
    ("enum E { A = 1, B, C = -2 };", "1 enum E A=1 B C=-2."),
    ("struct S { };", "1 struct S."),
    ("struct S { int a; b c; };", "1 struct S (int a) (:b c)."),
    ("union U switch (int t) { };", "1 union U int t."),
    (
        "union U switch (struct T t) { case 1: case A: int a; case 2: void; default: b c; };",
        "1 union U :T t (1 A int a) (2 void) (default :b c).",
    ),
    ("P();", "1 proc P ()."),
    ("proc P() split;", "1 proc P () split."),
    ("\nproc\nP() multi = 5;", "2 proc P () multi =5."),
    (
        "P(IN int a, b *c, OUT string d<>, INOUT struct e f<g>) = A;",
        "1 proc P (IN int a, :b* c, OUT string d<>, INOUT :e f<g>) =A.",
    ),
];

#[test]
fn each_item_has_its_part(rt: HostRuntime) -> Result<(), AllocError> {
    check(&rt, rt.alloc(), &ITEMS)
}

/// The same of types and bounds.
static FORMS: [(&str, &str); 13] = [
    ("typedef unsigned A;", "1 typedef unsigned A."),
    ("typedef unsigned hyper A;", "1 typedef unsigned hyper A."),
    (
        "typedef unsigned  /* */ long A;",
        "1 typedef unsigned long A.",
    ),
    ("typedef afs_uint64 A[2];", "1 typedef afs_uint64 A[2]."),
    ("typedef u_char A<>;", "1 typedef u_char A<>."),
    ("typedef bool A<B>;", "1 typedef bool A<B>."),
    ("typedef enum E *A;", "1 typedef :E* A."),
    ("typedef union U A<-1>;", "1 typedef :U A<-1>."),
    ("typedef T A;", "1 typedef :T A."),
    ("typedef opaque A[4];", "1 typedef opaque A[4]."),
    ("typedef opaque A<>;", "1 typedef opaque A<>."),
    ("typedef opaque A<B>;", "1 typedef opaque A<B>."),
    ("typedef string A<07>;", "1 typedef string A<7>."),
];

#[test]
fn each_type_and_bound_has_its_form(rt: HostRuntime) -> Result<(), AllocError> {
    check(&rt, rt.alloc(), &FORMS)
}

/// The same of whole interfaces.
static FIELD: [(&str, &str); 2] = [
    (
        "package RXAFS_\n\
        statindex 7\n\
        prefix S\n\
        const AFSNAMEMAX = 256;\n\
        const FETCHDATA = 130;\n\
        const FETCHSTATUS = 132;\n\
        struct AFSFid {\n\
        \x20 afs_uint32 Volume;\n\
        \x20 afs_uint32 Vnode;\n\
        \x20 afs_uint32 Unique;\n\
        };\n\
        typedef opaque AFSOpaque<1024>;\n\
        typedef AFSFid AFSCBFids<50>;\n\
        proc FetchData(IN AFSFid *Fid, afs_int32 Pos, afs_int32 Length,\n\
        \x20 OUT afs_int32 *Left) split = FETCHDATA;\n\
        FetchStatus(IN AFSFid *Fid, IN string Name<AFSNAMEMAX>,\n\
        \x20 INOUT afs_uint32 *Mode, OUT AFSCBFids *Kin) = FETCHSTATUS;\n",
        "1 package RXAFS_.2 statindex 7.3 prefix S.4 const AFSNAMEMAX=256.\
        5 const FETCHDATA=130.6 const FETCHSTATUS=132.\
        7 struct AFSFid (afs_uint32 Volume) (afs_uint32 Vnode) (afs_uint32 Unique).\
        12 typedef opaque AFSOpaque<1024>.13 typedef :AFSFid AFSCBFids<50>.\
        14 proc FetchData (IN :AFSFid* Fid, afs_int32 Pos, afs_int32 Length, \
        OUT afs_int32* Left) split =FETCHDATA.\
        16 proc FetchStatus (IN :AFSFid* Fid, IN string Name<AFSNAMEMAX>, \
        INOUT afs_uint32* Mode, OUT :AFSCBFids* Kin) =FETCHSTATUS.",
    ),
    (
        "/* two\n lines */ enum FileKind { File, Folder = 010, Gone = -1 };\n\
        union Contents switch (enum FileKind Kind) {\n\
        case File:\n\
        case 8:\n\
        \x20 struct Mount Mounts<4>;\n\
        case Gone:\n\
        \x20 void;\n\
        default:\n\
        \x20 unsigned hyper Reserved[2];\n\
        };\n\
        # 40 \"fs.xg\"\n\
        startingopcode 70000;\n\
        Forget(IN AFSFid Fids[2], u_char Why[3], opaque Hint<>) = 0x11180;\n",
        "2 enum FileKind File Folder=8 Gone=-1.\
        3 union Contents :FileKind Kind (File 8 :Mount Mounts<4>) (Gone void) \
        (default unsigned hyper Reserved[2]).\
        13 startingopcode 70000.\
        14 proc Forget (IN :AFSFid Fids[2], u_char Why[3], opaque Hint<>) =70016.",
    ),
];

#[test]
fn interfaces_of_the_field_have_their_trees(rt: HostRuntime) -> Result<(), AllocError> {
    check(&rt, rt.alloc(), &FIELD)
}
