//! The interface of the tests.

use std::alloc::{AllocError, Global};
use xdr_value::{Arm, Def, Field, Interface, Member, Shape, Ty, sound};

fn arm(alloc: Global, case: i64, name: &str, ty: Ty) -> Result<Arm, AllocError> {
    Ok(Arm {
        case: Some(case),
        field: Some(Field::make(alloc, name, ty)?),
    })
}

fn void_arm(case: Option<i64>) -> Arm {
    Arm { case, field: None }
}

// enum Color { RED = 2, ROUGE = 2, BLUE = 5 };
fn color(alloc: Global) -> Result<Def, AllocError> {
    let mut members = Vec::new(alloc);
    members.push(Member::make(alloc, "RED", 2)?)?;
    members.push(Member::make(alloc, "ROUGE", 2)?)?;
    members.push(Member::make(alloc, "BLUE", 5)?)?;
    Def::make(alloc, "Color", Shape::Enum(members))
}

// struct Fid { uint Volume; uint Vnode; uint Unique; };
fn fid(alloc: Global) -> Result<Def, AllocError> {
    let mut fields = Vec::new(alloc);
    fields.push(Field::make(alloc, "Volume", Ty::Uint)?)?;
    fields.push(Field::make(alloc, "Vnode", Ty::Uint)?)?;
    fields.push(Field::make(alloc, "Unique", Ty::Uint)?)?;
    Def::make(alloc, "Fid", Shape::Struct(fields))
}

// struct Node { int v; Node *next; };
fn node(alloc: Global) -> Result<Def, AllocError> {
    let mut fields = Vec::new(alloc);
    fields.push(Field::make(alloc, "v", Ty::Int)?)?;
    let next = Ty::optional(alloc, Ty::named(alloc, "Node")?)?;
    fields.push(Field::make(alloc, "next", next)?)?;
    Def::make(alloc, "Node", Shape::Struct(fields))
}

// union ByColor switch (Color c) { case RED: int n; case BLUE: void; };
fn by_color(alloc: Global) -> Result<Def, AllocError> {
    let mut arms = Vec::new(alloc);
    arms.push(arm(alloc, 2, "n", Ty::Int)?)?;
    arms.push(void_arm(Some(5)))?;
    let tag = Ty::named(alloc, "Color")?;
    Def::make(alloc, "ByColor", Shape::Union { tag, arms })
}

// union ByNumber switch (int n) { case 1: Fid f; };
fn by_number(alloc: Global) -> Result<Def, AllocError> {
    let mut arms = Vec::new(alloc);
    arms.push(arm(alloc, 1, "f", Ty::named(alloc, "Fid")?)?)?;
    Def::make(alloc, "ByNumber", Shape::Union { tag: Ty::Int, arms })
}

// union ByCount switch (Count n) { case 1: Maybe m; default: void; };
fn by_count(alloc: Global) -> Result<Def, AllocError> {
    let mut arms = Vec::new(alloc);
    arms.push(arm(alloc, 1, "m", Ty::named(alloc, "Maybe")?)?)?;
    arms.push(void_arm(None))?;
    let tag = Ty::named(alloc, "Count")?;
    Def::make(alloc, "ByCount", Shape::Union { tag, arms })
}

// union ByFlag switch (bool b) { case 1: string s<4>; case 0: void; };
fn by_flag(alloc: Global) -> Result<Def, AllocError> {
    let mut arms = Vec::new(alloc);
    arms.push(arm(alloc, 1, "s", Ty::Text(4))?)?;
    arms.push(void_arm(Some(0)))?;
    Def::make(
        alloc,
        "ByFlag",
        Shape::Union {
            tag: Ty::Bool,
            arms,
        },
    )
}

// typedef Fid Fids<2>; typedef string Name<4>; typedef int *Maybe; typedef int Ints<4>;
// typedef bool Pair[2]; typedef unsigned Count; typedef ByColor Paint; typedef Node *Chain;
fn aliases(alloc: Global, types: &mut Vec<Def>) -> Result<(), AllocError> {
    let fids = Ty::up_to(alloc, Ty::named(alloc, "Fid")?, 2)?;
    types.push(Def::make(alloc, "Fids", Shape::Alias(fids))?)?;
    types.push(Def::make(alloc, "Name", Shape::Alias(Ty::Text(4)))?)?;
    let maybe = Ty::optional(alloc, Ty::Int)?;
    types.push(Def::make(alloc, "Maybe", Shape::Alias(maybe))?)?;
    let list = Ty::up_to(alloc, Ty::Int, 4)?;
    types.push(Def::make(alloc, "Ints", Shape::Alias(list))?)?;
    let pair = Ty::array(alloc, Ty::Bool, 2)?;
    types.push(Def::make(alloc, "Pair", Shape::Alias(pair))?)?;
    types.push(Def::make(alloc, "Count", Shape::Alias(Ty::Uint))?)?;
    let paint = Ty::named(alloc, "ByColor")?;
    types.push(Def::make(alloc, "Paint", Shape::Alias(paint))?)?;
    let chain = Ty::optional(alloc, Ty::named(alloc, "Node")?)?;
    types.push(Def::make(alloc, "Chain", Shape::Alias(chain))?)?;
    Ok(())
}

pub fn interface(alloc: Global) -> Result<Interface, AllocError> {
    let mut types = Vec::new(alloc);
    types.push(color(alloc)?)?;
    types.push(fid(alloc)?)?;
    types.push(node(alloc)?)?;
    types.push(by_color(alloc)?)?;
    types.push(by_number(alloc)?)?;
    types.push(by_count(alloc)?)?;
    types.push(by_flag(alloc)?)?;
    aliases(alloc, &mut types)?;
    let procs = Vec::new(alloc);
    if !sound(&types, &procs) {
        return Err(AllocError);
    }
    Ok(Interface::make(None, None, types, procs))
}

pub fn type_named(alloc: Global, name: &str) -> Result<Ty, AllocError> {
    match name {
        "int" => Ok(Ty::Int),
        "uint" => Ok(Ty::Uint),
        "hyper" => Ok(Ty::Hyper),
        "uhyper" => Ok(Ty::Uhyper),
        "short" => Ok(Ty::Short),
        "ushort" => Ok(Ty::Ushort),
        "char" => Ok(Ty::Char),
        "uchar" => Ok(Ty::Uchar),
        "bool" => Ok(Ty::Bool),
        "void" => Ok(Ty::Void),
        "opaque[2]" => Ok(Ty::Opaque(2)),
        "opaque<2>" => Ok(Ty::OpaqueUpTo(2)),
        "string<4>" => Ok(Ty::Text(4)),
        "int<4>" => Ty::up_to(alloc, Ty::Int, 4),
        "bool[2]" => Ty::array(alloc, Ty::Bool, 2),
        "void<100000>" => Ty::up_to(alloc, Ty::Void, 100_000),
        "int*" => Ty::optional(alloc, Ty::Int),
        other => Ty::named(alloc, other),
    }
}
