use crate::{compile, table};
use std::alloc::{AllocError, Global};
use std::process::Abort;
use std::test::*;
use xdr_json::{from_json, to_json};
use xdr_value::{Interface, Ty, fits, has_levels_within, known, zero};

/// The table of the text, or its first fault behind its line.
fn answer(alloc: Global, text: &str) -> Result<String, AllocError> {
    match compile(alloc, text) {
        Ok(iface) => table(alloc, &iface),
        Err(fault) => {
            let line = fault.line();
            format!(in alloc; "{line}: {fault}")
        }
    }
}

fn expect(rt: &impl Abort, alloc: Global, rows: &[(&str, &str)]) -> Result<(), AllocError> {
    for (text, wanted) in rows {
        let got = answer(alloc, text)?;
        assert_eq!(rt; got.as_str(), *wanted, "{text}");
    }
    Ok(())
}

#[test]
fn compile_afs(rt: HostRuntime) -> Result<(), AllocError> {
    let text = "package RXAFS_
statindex 7
prefix S
const AFSNAMEMAX = 256;
const FETCHDATA = 130;
const FETCHSTATUS = 132;
struct AFSFid {
  afs_uint32 Volume;
  afs_uint32 Vnode;
  afs_uint32 Unique;
};
typedef opaque AFSOpaque<1024>;
typedef AFSFid AFSCBFids<50>;
proc FetchData(IN AFSFid *Fid, afs_int32 Pos, afs_int32 Length,
  OUT afs_int32 *Left) split = FETCHDATA;
FetchStatus(IN AFSFid *Fid, IN string Name<AFSNAMEMAX>,
  INOUT afs_uint32 *Mode, OUT AFSCBFids *Kin) = FETCHSTATUS;
";
    let wanted = "interface RXAFS_ S
struct AFSFid Volume:uint Vnode:uint Unique:uint
type AFSOpaque opaque<1024>
type AFSCBFids AFSFid<50>
proc 130 FetchData split in:Fid:AFSFid in:Pos:int in:Length:int out:Left:int
proc 132 FetchStatus plain in:Fid:AFSFid in:Name:string<256> inout:Mode:uint out:Kin:AFSCBFids
";
    expect(&rt, rt.alloc(), &[(text, wanted)])
}

/// Texts, and their tables.
static TABLES: [(&str, &str); 18] = [
    // counted-opcodes
    (
        "startingopcode 5 P(int a, OUT int b); Q(c_t x); typedef int c_t;",
        "interface - -\ntype c_t int\nproc 5 P plain in:a:int out:b:int\nproc 6 Q plain in:x:c_t\n",
    ),
    ("", "interface - -\n"),
    ("package A package B prefix C prefix D", "interface B D\n"),
    (
        "typedef long A; typedef afs_int32 B; typedef u_long C; typedef unsigned D; typedef afs_uint32 E;",
        "interface - -\ntype A int\ntype B int\ntype C uint\ntype D uint\ntype E uint\n",
    ),
    (
        "typedef hyper A; typedef afs_int64 B; typedef unsigned hyper C; typedef afs_uint64 D; typedef bool E;",
        "interface - -\ntype A hyper\ntype B hyper\ntype C uhyper\ntype D uhyper\ntype E bool\n",
    ),
    (
        "typedef short A; typedef u_short B; typedef unsigned short C; typedef char D; typedef u_char E; \
        typedef unsigned char F;",
        "interface - -\ntype A short\ntype B ushort\ntype C ushort\ntype D char\ntype E uchar\ntype F uchar\n",
    ),
    (
        "typedef string A<>; typedef opaque B<>; typedef int C<>; typedef opaque D[3]; typedef int E[N]; \
        const N = 0x10;",
        "interface - -\ntype A string<4294967295>\ntype B opaque<4294967295>\ntype C int<4294967295>\n\
        type D opaque[3]\ntype E int[16]\n",
    ),
    (
        "enum E { A, B = 7, C, D = -3, F }; const G = C; typedef int H[G];",
        "interface - -\nenum E A=0 B=7 C=8 D=-3 F=-2\ntype H int[8]\n",
    ),
    (
        "union U switch (E t) { case A: case B: int a; case C: void; default: T *b; }; \
        enum E { A, B, C, D }; typedef int T;",
        "interface - -\nunion U E case 0:a:int case 1:a:int case 2:void default:b:T*\n\
        enum E A=0 B=1 C=2 D=3\ntype T int\n",
    ),
    (
        "union U switch (B t) { case 0: int a; case 1: int a; }; typedef bool B;",
        "interface - -\nunion U B case 0:a:int case 1:a:int\ntype B bool\n",
    ),
    (
        "union U switch (u_int t) { case 4294967295: void; };",
        "interface - -\nunion U uint case 4294967295:void\n",
    ),
    (
        "struct L { int v; L *next; M many<>; }; struct M { struct L l; };",
        "interface - -\nstruct L v:int next:L* many:M<4294967295>\nstruct M l:L\n",
    ),
    (
        "startingopcode 7 Q() = 20; R(); S(); T() = 3; V() multi; startingopcode 1; W();",
        "interface - -\nproc 20 Q plain\nproc 7 R plain\nproc 8 S plain\nproc 3 T plain\nproc 4 V multi\n\
        proc 1 W plain\n",
    ),
    (
        "P(OUT int a, int b, INOUT int *c, int d<2>, IN opaque e[4], string f<>) = 1;",
        "interface - -\nproc 1 P plain out:a:int out:b:int inout:c:int inout:d:int<2> in:e:opaque[4] \
        in:f:string<4294967295>\n",
    ),
    (
        "const A = 1; typedef int A; A(int A) = A; struct S { int A; };",
        "interface - -\ntype A int\nstruct S A:int\nproc 1 A plain in:A:int\n",
    ),
    (
        "struct S { opaque a[65536]; }; struct Z { }; typedef opaque Y[0]; struct X { Y y; Z z; };",
        "interface - -\nstruct S a:opaque[65536]\nstruct Z\ntype Y opaque[0]\nstruct X y:Y z:Z\n",
    ),
    (
        "struct S { int a[16384]; };",
        "interface - -\nstruct S a:int[16384]\n",
    ),
    (
        "startingopcode 4294967295 P();",
        "interface - -\nproc 4294967295 P plain\n",
    ),
];

#[test]
fn texts_have_their_tables(rt: HostRuntime) -> Result<(), AllocError> {
    expect(&rt, rt.alloc(), &TABLES)
}

/// Texts, and what stands twice there.
static TWICE: [(&str, &str); 16] = [
    (
        "const A = 1; const B = 1; const B = 2; const A = 2;",
        "0: twice B",
    ),
    ("typedef int A; struct A { };", "0: twice A"),
    (
        "enum A { B }; union A switch (int t) { default: void; };",
        "0: twice A",
    ),
    ("const A = 1; enum E { B, A };", "0: twice A"),
    ("enum E { A, A };", "0: twice A"),
    ("P() = 1; P() = 2;", "0: twice P"),
    ("struct S { int a; int b; int b; int a; };", "0: twice b"),
    ("P(int a, int a) = 1;", "0: twice a"),
    (
        "union U switch (int t) { case 1: case 2: int a; case 1: int b; };",
        "0: twice U",
    ),
    (
        "union U switch (int t) { case A: int a; case 1: int b; }; const A = B; const B = 1;",
        "0: twice U",
    ),
    (
        "union U switch (int t) { case 36893488147419103232: void; };",
        "1: badnumber",
    ),
    (
        "union U switch (int t) { case 18446744073709551615: case 18446744073709551615: void; };",
        "0: twice U",
    ),
    // A case without a value equals none.
    (
        "union U switch (int t) { case A: case A: int a; };",
        "0: unknown A",
    ),
    (
        "union U switch (int t) { case A: case A: int a; }; const A = A;",
        "0: size A",
    ),
    // Twice comes before the other faults.
    ("P(T t); P(int a);", "0: twice P"),
    (
        "typedef T A; typedef opaque B[-1]; typedef int A;",
        "0: twice A",
    ),
];

#[test]
fn what_stands_twice_is_named(rt: HostRuntime) -> Result<(), AllocError> {
    expect(&rt, rt.alloc(), &TWICE)
}

/// Texts, and what is unknown there.
static UNKNOWN: [(&str, &str); 20] = [
    // unknown-type
    ("P(IN T *t) = 1;", "0: unknown T"),
    ("typedef A B; typedef C D;", "0: unknown A"),
    ("typedef A B[C];", "0: unknown A"),
    ("typedef int B[C];", "0: unknown C"),
    ("typedef int B<C>;", "0: unknown C"),
    ("typedef opaque B[C];", "0: unknown C"),
    ("typedef string B<C>;", "0: unknown C"),
    ("const A = B;", "0: unknown B"),
    ("enum E { A = B };", "0: unknown B"),
    ("union U switch (T t) { case A: void; };", "0: unknown T"),
    ("union U switch (int t) { case A: void; };", "0: unknown A"),
    ("union U switch (int t) { case 1: T a; };", "0: unknown T"),
    ("union U switch (int t) { default: T a; };", "0: unknown T"),
    ("statindex A", "0: unknown A"),
    ("startingopcode A", "0: unknown A"),
    ("P() = A;", "0: unknown A"),
    ("struct S { struct T *a; };", "0: unknown T"),
    // A type is no constant, and a constant no type.
    ("typedef int T; const A = T;", "0: unknown T"),
    ("const A = 1; typedef A T;", "0: unknown A"),
    // Unknown comes before the faults behind it.
    ("typedef opaque B[-1]; P(T t);", "0: unknown T"),
];

#[test]
fn what_is_unknown_is_named(rt: HostRuntime) -> Result<(), AllocError> {
    expect(&rt, rt.alloc(), &UNKNOWN)
}

/// Texts, and what has a size out of range.
static SIZES: [(&str, &str); 39] = [
    ("typedef opaque A[-1];", "0: size A"),
    ("typedef int A<4294967296>;", "0: size A"),
    ("struct S { int a; string b<-1>; };", "0: size b"),
    ("P(int a, opaque b<-1>) = 1;", "0: size b"),
    ("union U switch (int t) { };", "0: size U"),
    ("union U switch (hyper t) { case 1: void; };", "0: size U"),
    (
        "struct S { }; union U switch (S t) { default: void; };",
        "0: size U",
    ),
    (
        "union U switch (B t) { default: void; }; typedef int B[1];",
        "0: size U",
    ),
    (
        "union U switch (A t) { default: void; }; typedef A B; typedef B A;",
        "0: size U",
    ),
    ("enum E { A = 2147483647, B };", "0: size B"),
    ("enum E { A = -2147483649 };", "0: size A"),
    (
        "union U switch (int t) { case 2147483648: void; };",
        "0: size U",
    ),
    (
        "union U switch (unsigned t) { case -1: void; };",
        "0: size U",
    ),
    ("union U switch (bool t) { case 2: void; };", "0: size U"),
    (
        "enum E { A = 1, B = 3 }; union U switch (E t) { case 2: void; };",
        "0: size U",
    ),
    (
        "enum E { A = 1, B = 3 }; typedef E F; union U switch (F t) { case 3: void; case 0: void; };",
        "0: size U",
    ),
    ("const A = B; const B = C; const C = B;", "0: size B"),
    ("const A = A;", "0: size A"),
    ("enum E { A = B, B };", "0: size A"),
    ("typedef int T[A]; const A = B; const B = B;", "0: size B"),
    ("struct Z { }; typedef Z A[3];", "0: size A"),
    (
        "typedef opaque Z[0]; struct S { Z a; int b; Z c<2>; };",
        "0: size c",
    ),
    ("typedef opaque Z[0]; P(Z a<>) = 1;", "0: size a"),
    ("struct S { opaque a[65537]; int b; };", "0: size S"),
    ("struct S { opaque a[65536]; opaque b[0]; };", "0: size S"),
    ("typedef opaque A[65537];", "0: size A"),
    ("typedef int A[16385];", "0: size A"),
    (
        "struct A { int a[100]; }; struct B { A a[100]; }; struct C { B b[2]; };",
        "0: size C",
    ),
    ("P(int a[16385]) = 1;", "0: size a"),
    (
        "union U switch (int t) { case 1: opaque a[65532]; case 2: opaque b[65533]; };",
        "0: size U",
    ),
    // A size that is refused isn't judged by what holds it.
    ("struct S { opaque a[70000]; opaque b[-1]; };", "0: size a"),
    (
        "struct S { T t; opaque a[70000]; }; struct T { opaque b[-1]; };",
        "0: size a",
    ),
    // What holds an endless type isn't judged by its encoding.
    (
        "struct S { int a[16385]; S *next; T t; }; struct T { T t; };",
        "0: size a",
    ),
    (
        "struct S { T *t; A a; }; typedef int A[16385]; struct T { T t; };",
        "0: size A",
    ),
    (
        "typedef T A[0]; typedef A B[3]; struct T { T t; };",
        "0: endless T",
    ),
    ("struct S { opaque a[65537]; S *next; };", "0: size S"),
    // The first place counts.
    (
        "typedef int A[-1]; enum E { B = -2147483649 };",
        "0: size A",
    ),
    (
        "enum E { B = -2147483649 }; typedef int A[-1];",
        "0: size B",
    ),
    ("struct S { S s; }; P(int a[-1]);", "0: size a"),
];

#[test]
fn sizes_out_of_range_are_named(rt: HostRuntime) -> Result<(), AllocError> {
    expect(&rt, rt.alloc(), &SIZES)
}

/// Texts, and the type that is endless.
static ENDLESS: [(&str, &str); 10] = [
    // endless-struct
    ("struct S { S s; };", "0: endless S"),
    ("typedef T S; struct T { int a; S s; };", "0: endless S"),
    (
        "struct A { B b; }; struct B { C c; }; struct C { B b; };",
        "0: endless B",
    ),
    ("typedef A B; typedef B A;", "0: endless B"),
    ("struct S { S s[2]; };", "0: endless S"),
    ("struct S { S s[0]; };", "0: endless S"),
    (
        "union U switch (int t) { case 1: U u; default: void; };",
        "0: endless U",
    ),
    (
        "union U switch (int t) { default: A a; }; struct A { U u; };",
        "0: endless U",
    ),
    (
        "struct A { B b; }; typedef C B; typedef A C[1];",
        "0: endless A",
    ),
    ("P(); struct S { S s; };", "0: endless S"),
];

#[test]
fn endless_types_are_named(rt: HostRuntime) -> Result<(), AllocError> {
    expect(&rt, rt.alloc(), &ENDLESS)
}

/// Texts, and the procedure without an opcode, or the opcode of two.
static OPCODES: [(&str, &str); 12] = [
    // no-opcode
    ("P(int a);", "0: opcode P"),
    ("P() = 1; Q();", "0: opcode Q"),
    ("Q(); startingopcode 1", "0: opcode Q"),
    ("P() = -1;", "0: opcode P"),
    ("P() = 4294967296;", "0: opcode P"),
    ("startingopcode 4294967295 P(); Q();", "0: opcode Q"),
    ("startingopcode -1 P(); Q();", "0: opcode P"),
    // opcode-twice
    ("P(int a) = 1; Q(int a) = 1;", "0: opcodetwice 1"),
    ("startingopcode 5 P(); Q() = 5;", "0: opcodetwice 5"),
    ("startingopcode 5 P() = 6; Q(); R();", "0: opcodetwice 6"),
    ("P() = 3; Q() = 3; R();", "0: opcode R"),
    ("P() = 1; Q() = 2; R() = 2; S() = 1;", "0: opcodetwice 2"),
];

#[test]
fn opcodes_are_asked_for(rt: HostRuntime) -> Result<(), AllocError> {
    expect(&rt, rt.alloc(), &OPCODES)
}

// Types each of which holds the one before twice, so written.
fn each_twice(alloc: Global, count: u32, mark: &str) -> Result<String, AllocError> {
    let mut text = String::new(alloc);
    text.push_str("struct S0 { int a; };")?;
    for k in 1..count {
        let before = k - 1;
        let one = format!(in alloc; "struct S{k} {{ S{before} {mark}a; S{before} {mark}b; }};")?;
        text.push_str(one.as_str())?;
    }
    Ok(text)
}

#[test]
fn many_ways_down_take_no_time(rt: HostRuntime) -> Result<(), AllocError> {
    let text = each_twice(rt.alloc(), 2000, "*")?;
    let table = answer(rt.alloc(), text.as_str())?;
    assert!(rt;
        table
            .as_str()
            .starts_with("interface - -\nstruct S0 a:int\n")
    );
    let text = each_twice(rt.alloc(), 2000, "")?;
    expect(&rt, rt.alloc(), &[(text.as_str(), "0: size S15")])
}

// So many typedefs, each of which names another, which stands before it or behind it.
fn chain(alloc: Global, names: u32, is_before: bool) -> Result<String, AllocError> {
    let mut text = String::from_str(alloc, "struct S { int a; string b<>; };\ntypedef S T0;\n")?;
    for i in 1..names {
        let name = if is_before { i } else { names - i };
        let other = name - 1;
        let line = format!(in alloc; "typedef T{other} T{name};\n")?;
        text.push_str(line.as_str())?;
    }
    Ok(text)
}

fn goes_round(alloc: Global, iface: &Interface, ty: &Ty, text: &str) -> Result<bool, AllocError> {
    if !known(&iface.types, ty) {
        return Ok(false);
    }
    match from_json(alloc, iface, ty, text) {
        Err(_) => Ok(false),
        Ok(value) => {
            if !fits(iface, ty, &value) || !has_levels_within(&value, 64) {
                return Ok(false);
            }
            let again = to_json(alloc, iface, ty, &value)?;
            let zero = zero(alloc, iface, ty)?;
            Ok(again.as_str() == text && fits(iface, ty, &zero))
        }
    }
}

fn is_followed(alloc: Global, is_before: bool) -> Result<bool, AllocError> {
    let text = chain(alloc, 100000, is_before)?;
    match compile(alloc, text.as_str()) {
        Err(_) => Ok(false),
        Ok(iface) => {
            let last = Ty::named(alloc, "T99999")?;
            let list = Ty::up_to(alloc, last, 4294967295)?;
            let values = "[{\"a\":1,\"b\":\"x\"},{\"a\":2,\"b\":\"\"}]";
            goes_round(alloc, &iface, &list, values)
        }
    }
}

#[test]
fn a_long_chain_of_names_is_followed(rt: HostRuntime) -> Result<(), AllocError> {
    let alloc = rt.alloc();
    assert!(rt; is_followed(alloc, true)?);
    assert!(rt; is_followed(alloc, false)?);
    Ok(())
}
