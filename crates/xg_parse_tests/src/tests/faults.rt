//! Faulty texts, each with the line and the word of its first fault.

use super::check;
use std::alloc::AllocError;
use std::process::Abort;
use std::test::*;

/// Texts with no tokens, whatever their grammar.
static TOKENS: [(&str, &str); 33] = [
    (
        "package BOZO_\nprefix S\n#include <afs/param.h>\n",
        "3 badline",
    ),
    ("#define A 1", "1 badline"),
    ("#ifdef KERNEL\n%int x;\n#endif\n", "1 badline"),
    (
        "# 1 \"bosint.xg\"\n# 1 <built-in>\npackage B_\n",
        "2 badline",
    ),
    ("#line 3 \"bosint.xg\"\npackage B_", "1 badline"),
    ("const A = 1;\n  # 3 \"f.xg\"\n", "2 badchar"),
    ("const A = 1; % not skipped\n", "1 badchar"),
    (
        "/* a header\n * of three lines\n */ #define B 2\n",
        "3 badchar",
    ),
    ("const A = 08;", "1 badnumber"),
    ("const PR_MAXNAMELEN = 0x;\n", "1 badnumber"),
    ("const A = 1;\nconst B = 0x8g;\n", "2 badnumber"),
    ("const B = 0189;\n", "1 badnumber"),
    ("const\nB\n=\n12abc;", "4 badnumber"),
    ("const B = 18446744073709551616;", "1 badnumber"),
    ("const B = 0XFF;", "1 badnumber"),
    ("const B = 10L;\n", "1 badnumber"),
    ("const PR_SF_NGROUPS = (1u<<31);\n", "1 badnumber"),
    ("const B = 1.5;", "1 badchar"),
    ("const B = 'a';", "1 badchar"),
    ("package \"RXAFS_\"\n", "1 badchar"),
    ("const A = 2 + 3;", "1 badchar"),
    ("package RX\r\nprefix S\r\n", "1 badchar"),
    ("/* no end\nconst A = 1;\nconst B = 08;\n", "1 badchar"),
    ("const A = 1;\n\n/* no end\n * here\n", "3 badchar"),
    ("const A = 1; /*/ const B = 2;\n", "1 badchar"),
    ("const A = 5/2;\n", "1 badchar"),
    ("const A = 1; */\n", "1 badchar"),
    ("struct S {\n  int a; // one\n};", "2 badchar"),
    ("struct S {\n\tint \u{e4};\n};", "2 badchar"),
    ("P(IN int a) = 1;\nQ(IN int a) = $2;", "2 badchar"),
    ("P(IN int a, ...) = 1;", "1 badchar"),
    ("const A 3;\nconst B = 09;\n", "2 badnumber"),
    ("typedef float F;\nconst A-B = 08;\n", "2 badnumber"),
];

/// Packages, prefixes, numbers and constants.
static ITEMS: [(&str, &str); 32] = [
    ("5", "1 unexpected package"),
    (";", "1 unexpected package"),
    ("}", "1 unexpected package"),
    ("package", "1 unexpected NAME"),
    ("package;\n", "1 unexpected NAME"),
    ("package 5", "1 unexpected NAME"),
    ("package struct", "1 unexpected NAME"),
    ("package X 5", "1 unexpected package"),
    ("package X\n;;", "2 unexpected package"),
    ("package RXAFS_ prefix;\n", "1 unexpected NAME"),
    ("package RXAFS_;\nprefix S;;\n", "2 unexpected package"),
    ("prefix", "1 unexpected NAME"),
    ("statindex;\n", "1 unexpected NAME"),
    ("statindex -", "1 unexpected NUM"),
    ("statindex 7 8\n", "1 unexpected package"),
    ("startingopcode = 7;\n", "1 unexpected NAME"),
    ("startingopcode -A", "1 unexpected NUM"),
    ("const", "1 unexpected NAME"),
    ("const = 3;", "1 unexpected NAME"),
    ("const IN = 3;", "1 unexpected NAME"),
    ("const A = 1;\nconst int = 2;", "2 unexpected NAME"),
    ("const A", "1 unexpected ="),
    ("const A 3;", "1 unexpected ="),
    ("const AFSNAMEMAX = 256\nconst B = 1;\n", "2 unexpected ;"),
    ("const A = 3;\nconst B\n\n3;", "4 unexpected ="),
    ("const A =\n\n", "2 unexpected NAME"),
    ("const A = ;", "1 unexpected NAME"),
    ("const A = - ;", "1 unexpected NUM"),
    ("const A = -B;", "1 unexpected NUM"),
    ("const A = 3", "1 unexpected ;"),
    ("const A = 3 4", "1 unexpected ;"),
    ("const A = 3,\n      B = 4;", "1 unexpected ;"),
];

/// Declarations and their bounds.
static DECLARATIONS: [(&str, &str); 26] = [
    ("typedef ;", "1 unexpected NAME"),
    ("typedef afs_int32;\n", "1 unexpected NAME"),
    ("typedef afs_uint32 VolumeId", "1 unexpected ;"),
    ("typedef afs_uint32 VolumeId,\nVolId;", "1 unexpected ;"),
    ("typedef opaque AFSOpaque;", "1 unexpected ["),
    ("typedef opaque *AFSOpaque;", "1 unexpected NAME"),
    ("typedef string Name;", "1 unexpected <"),
    ("typedef string Name[AFSNAMEMAX];", "1 unexpected <"),
    ("typedef string *Name;", "1 unexpected NAME"),
    ("typedef char DiskName[];", "1 unexpected NAME"),
    ("typedef char DiskName[32;", "1 unexpected ]"),
    ("typedef char DiskName[-];", "1 unexpected NUM"),
    ("typedef AFSFid AFSCBFids<;", "1 unexpected NAME"),
    ("typedef AFSFid AFSCBFids<50;", "1 unexpected >"),
    ("typedef AFSFid AFSCBFids<50>>;", "1 unexpected ;"),
    ("typedef AFSFid *Kin[2];", "1 unexpected ;"),
    ("typedef AFSFid **Kin;", "1 unexpected NAME"),
    ("typedef AFSFid *;", "1 unexpected NAME"),
    ("typedef struct ;", "1 unexpected NAME"),
    (
        "typedef struct AFSFid {\n  afs_uint32 Volume;\n} AFSFid;",
        "1 unexpected NAME",
    ),
    ("typedef unsigned ;", "1 unexpected NAME"),
    ("typedef unsigned bool b;", "1 unexpected NAME"),
    ("typedef unsigned afs_int32 A;", "1 unexpected NAME"),
    ("typedef void Nothing;", "1 unexpected NAME"),
    ("typedef const char A;", "1 unexpected NAME"),
    ("typedef long long A;", "1 unexpected NAME"),
];

/// Enums, structs and unions.
static TYPES: [(&str, &str); 47] = [
    ("enum", "1 unexpected NAME"),
    ("enum E", "1 unexpected {"),
    ("enum { A, B };", "1 unexpected NAME"),
    ("enum E {", "1 unexpected NAME"),
    ("enum E { }", "1 unexpected NAME"),
    ("enum E { A", "1 unexpected ="),
    ("enum E { A = };", "1 unexpected NAME"),
    ("enum E { A; B };", "1 unexpected ="),
    ("enum E { A = 1; B };", "1 unexpected ,"),
    ("enum E { 1, 2 };", "1 unexpected NAME"),
    (
        "enum ViceLockType {\n  LockRead,\n  LockWrite,\n};",
        "4 unexpected NAME",
    ),
    ("enum E { A, B }\nconst C = 1;", "2 unexpected ;"),
    ("struct S", "1 unexpected {"),
    ("struct S {", "1 unexpected NAME"),
    ("struct {\n  int a;\n} S;", "1 unexpected NAME"),
    ("struct S {\n  int a;\n", "2 unexpected NAME"),
    (
        "struct AFSFid {\n  afs_uint32 Volume;\n  afs_uint32 Vnode\n};",
        "4 unexpected ;",
    ),
    (
        "struct AFSFid {\n  afs_uint32 Volume, Vnode;\n};",
        "2 unexpected ;",
    ),
    (
        "struct AFSFid {\n  afs_uint32 Volume;\n}\n\nstruct B { };",
        "5 unexpected ;",
    ),
    ("struct S { int a; }\n", "1 unexpected ;"),
    ("struct S { int a; ]", "1 unexpected NAME"),
    ("struct S { void; };", "1 unexpected NAME"),
    (
        "struct S {\n  struct { int b; } inner;\n};",
        "2 unexpected NAME",
    ),
    ("struct S {\n  int a[2][3];\n};", "2 unexpected ;"),
    ("struct S {\n  int a : 3;\n};", "2 unexpected ;"),
    ("struct S {\n  int (*f)(int);\n};", "2 unexpected NAME"),
    ("union U", "1 unexpected switch"),
    ("union U (int t) { };", "1 unexpected switch"),
    ("union U switch int t { };", "1 unexpected ("),
    ("union U switch (int) { };", "1 unexpected NAME"),
    ("union U switch (int *t)", "1 unexpected NAME"),
    ("union U switch (int t", "1 unexpected )"),
    ("union U switch (int t)", "1 unexpected {"),
    ("union U switch (int t) {", "1 unexpected }"),
    ("union U switch (int t) {\n  int a;\n};", "2 unexpected }"),
    ("union U switch (int t) {\ncase ;", "2 unexpected NAME"),
    (
        "union U switch (int t) {\ncase 1 int a;\n};",
        "2 unexpected :",
    ),
    (
        "union U switch (int t) {\ncase 1, 2:\n  void;\n};",
        "2 unexpected :",
    ),
    ("union U switch (int t) {\ncase 1:\n};", "3 unexpected NAME"),
    (
        "union U switch (int t) {\ncase 1:\n  int a;\n  int b;\n};",
        "4 unexpected }",
    ),
    (
        "union U switch (int t) {\ncase 1:\n  void\n};",
        "4 unexpected ;",
    ),
    (
        "union U switch (int t) {\ncase 1:\n  void *p;\n};",
        "3 unexpected ;",
    ),
    ("union U switch (int t) {\ndefault ;", "2 unexpected :"),
    (
        "union U switch (int t) {\ndefault:\n  void;\ncase 1:\n  int a;\n};",
        "4 unexpected }",
    ),
    (
        "union U switch (int t) {\ndefault:\n  void;\ndefault:\n  int a;\n};",
        "4 unexpected }",
    ),
    (
        "union U switch (int t) {\ncase 1:\n  void;\n} u;",
        "4 unexpected ;",
    ),
    ("union U switch (int t) { }", "1 unexpected ;"),
];

/// Procedures and what stands between items.
static PROCEDURES: [(&str, &str); 32] = [
    ("P", "1 unexpected ("),
    ("FetchStatus IN AFSFid *Fid) = 132;", "1 unexpected ("),
    ("FetchStatus(IN AFSFid *Fid = 132;", "1 unexpected ,"),
    ("FetchStatus(IN AFSFid *Fid,\n) = 132;", "2 unexpected NAME"),
    (
        "FetchStatus(IN AFSFid Fid\n  OUT int x) = 132;",
        "2 unexpected ,",
    ),
    (
        "FetchStatus(AFSFid *Fid) split multi = 132;",
        "1 unexpected ;",
    ),
    ("FetchStatus(AFSFid *Fid) = ;", "1 unexpected NAME"),
    ("FetchStatus(AFSFid *Fid) = 132 split;", "1 unexpected ;"),
    (
        "FetchStatus(AFSFid *Fid)\nFetchACL(AFSFid *Fid) = 131;",
        "2 unexpected ;",
    ),
    (
        "int FetchStatus(AFSFid *Fid) = 132;",
        "1 unexpected package",
    ),
    ("proc", "1 unexpected NAME"),
    ("proc struct", "1 unexpected NAME"),
    ("proc (IN int a) = 1;", "1 unexpected NAME"),
    ("proc P Q(IN int a) = 1;", "1 unexpected ("),
    ("P( ;", "1 unexpected NAME"),
    ("P(void) = 1;", "1 unexpected NAME"),
    ("P(IN)", "1 unexpected NAME"),
    ("P(IN int) = 1;", "1 unexpected NAME"),
    ("P(IN OUT int a);", "1 unexpected NAME"),
    ("P(in int a) = 1;", "1 unexpected NAME"),
    ("P(IN int a; OUT int b) = 1;", "1 unexpected ,"),
    ("P(IN string *name) = 1;", "1 unexpected NAME"),
    ("P(IN string name) = 1;", "1 unexpected <"),
    ("P(IN opaque data) = 1;", "1 unexpected ["),
    ("P(IN int a[]) = 1;", "1 unexpected NAME"),
    ("P()", "1 unexpected ;"),
    ("P() Split = 1;", "1 unexpected ;"),
    ("P() = 5", "1 unexpected ;"),
    ("P() = -;", "1 unexpected NUM"),
    ("P() = 1 2;", "1 unexpected ;"),
    ("P(IN int a) = 1;\n}\n", "2 unexpected package"),
    (
        "P(IN int a) = 1;\n\n/* the end */ *\n",
        "3 unexpected package",
    ),
];

/// Words that are out by name.
static OUT_WORDS: [(&str, &str); 16] = [
    ("typedef float F;", "1 outbyname float"),
    ("typedef quadruple Q;", "1 outbyname quadruple"),
    ("struct S {\n  float f;\n};", "2 outbyname float"),
    ("struct S {\n  int double;\n};", "2 outbyname double"),
    ("union U switch (double d) { };", "1 outbyname double"),
    ("enum E { program };", "1 outbyname program"),
    ("P(OUT float *f) = 1;", "1 outbyname float"),
    ("P(IN quadruple q);", "1 outbyname quadruple"),
    (
        "splitprefix IN = Begin OUT = End;\n",
        "1 outbyname splitprefix",
    ),
    ("customized P(IN int a) = 1;", "1 outbyname customized"),
    (
        "proc P(IN int a) = 1;\nspecial struct S { };",
        "2 outbyname special",
    ),
    (
        "program PROG {\n  version V {\n  } = 1;\n} = 2;",
        "1 outbyname program",
    ),
    ("const A = version;", "1 outbyname version"),
    ("const A = 3 float", "1 outbyname float"),
    ("const floats = 1;\nconst float = 2;", "2 outbyname float"),
    ("package A\nversion 3", "2 outbyname version"),
];

#[test]
fn texts_without_tokens_are_refused(rt: HostRuntime) -> Result<(), AllocError> {
    check(&rt, rt.alloc(), &TOKENS)
}

#[test]
fn items_want_their_parts(rt: HostRuntime) -> Result<(), AllocError> {
    check(&rt, rt.alloc(), &ITEMS)
}

#[test]
fn declarations_want_their_parts(rt: HostRuntime) -> Result<(), AllocError> {
    check(&rt, rt.alloc(), &DECLARATIONS)
}

#[test]
fn types_want_their_parts(rt: HostRuntime) -> Result<(), AllocError> {
    check(&rt, rt.alloc(), &TYPES)
}

#[test]
fn procedures_want_their_parts(rt: HostRuntime) -> Result<(), AllocError> {
    check(&rt, rt.alloc(), &PROCEDURES)
}

#[test]
fn words_that_are_out_are_named(rt: HostRuntime) -> Result<(), AllocError> {
    check(&rt, rt.alloc(), &OUT_WORDS)
}
