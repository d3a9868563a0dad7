//! The types of the tests.

use std::alloc::{AllocError, Global};
use xdr_value::{Arm, Def, Field, Member, Shape, Ty};

fn arm(alloc: Global, case: Option<i64>, name: &str, ty: Ty) -> Result<Arm, AllocError> {
    Ok(Arm {
        case,
        field: Some(Field::make(alloc, name, ty)?),
    })
}

// enum Color { RED = 3, BLUE = 257, NONE = -1 };
fn color(alloc: Global) -> Result<Def, AllocError> {
    let mut members = Vec::new(alloc);
    members.push(Member::make(alloc, "RED", 3)?)?;
    members.push(Member::make(alloc, "BLUE", 257)?)?;
    members.push(Member::make(alloc, "NONE", -1)?)?;
    Def::make(alloc, "color", Shape::Enum(members))
}

// union U switch (int t) { case 1: int a; default: void; };
fn with_default(alloc: Global) -> Result<Def, AllocError> {
    let mut arms = Vec::new(alloc);
    arms.push(arm(alloc, Some(1), "a", Ty::Int)?)?;
    arms.push(Arm {
        case: None,
        field: None,
    })?;
    Def::make(alloc, "u", Shape::Union { tag: Ty::Int, arms })
}

// union V switch (bool b) { case TRUE: hyper h; case FALSE: string s<8>; };
fn by_bool(alloc: Global) -> Result<Def, AllocError> {
    let mut arms = Vec::new(alloc);
    arms.push(arm(alloc, Some(1), "h", Ty::Hyper)?)?;
    arms.push(arm(alloc, Some(0), "s", Ty::Text(8))?)?;
    Def::make(
        alloc,
        "v",
        Shape::Union {
            tag: Ty::Bool,
            arms,
        },
    )
}

// union W switch (Color c) { case RED: int a; case BLUE: void; };
fn by_color(alloc: Global) -> Result<Def, AllocError> {
    let mut arms = Vec::new(alloc);
    arms.push(arm(alloc, Some(3), "a", Ty::Int)?)?;
    arms.push(Arm {
        case: Some(257),
        field: None,
    })?;
    let tag = Ty::named(alloc, "color")?;
    Def::make(alloc, "w", Shape::Union { tag, arms })
}

// struct Node { int v; Node *next; };
fn node(alloc: Global) -> Result<Def, AllocError> {
    let mut fields = Vec::new(alloc);
    fields.push(Field::make(alloc, "v", Ty::Int)?)?;
    let next = Ty::optional(alloc, Ty::named(alloc, "node")?)?;
    fields.push(Field::make(alloc, "next", next)?)?;
    Def::make(alloc, "node", Shape::Struct(fields))
}

// struct AFSFid { afs_uint32 Volume; afs_uint32 Vnode; afs_uint32 Unique; };
fn fid(alloc: Global) -> Result<Def, AllocError> {
    let mut fields = Vec::new(alloc);
    fields.push(Field::make(alloc, "Volume", Ty::Uint)?)?;
    fields.push(Field::make(alloc, "Vnode", Ty::Uint)?)?;
    fields.push(Field::make(alloc, "Unique", Ty::Uint)?)?;
    Def::make(alloc, "fid", Shape::Struct(fields))
}

// RFC 4506, section 7: enum filekind { TEXT = 0, DATA = 1, EXEC = 2 };
fn filekind(alloc: Global) -> Result<Def, AllocError> {
    let mut members = Vec::new(alloc);
    members.push(Member::make(alloc, "TEXT", 0)?)?;
    members.push(Member::make(alloc, "DATA", 1)?)?;
    members.push(Member::make(alloc, "EXEC", 2)?)?;
    Def::make(alloc, "filekind", Shape::Enum(members))
}

// RFC 4506, section 7: union filetype switch (filekind kind) { .. };
fn filetype(alloc: Global) -> Result<Def, AllocError> {
    let mut arms = Vec::new(alloc);
    arms.push(Arm {
        case: Some(0),
        field: None,
    })?;
    arms.push(arm(alloc, Some(1), "creator", Ty::Text(255))?)?;
    arms.push(arm(alloc, Some(2), "interpretor", Ty::Text(255))?)?;
    let tag = Ty::named(alloc, "filekind")?;
    Def::make(alloc, "filetype", Shape::Union { tag, arms })
}

// RFC 4506, section 7: struct file { .. };
fn file(alloc: Global) -> Result<Def, AllocError> {
    let mut fields = Vec::new(alloc);
    fields.push(Field::make(alloc, "filename", Ty::Text(255))?)?;
    fields.push(Field::make(alloc, "type", Ty::named(alloc, "filetype")?)?)?;
    fields.push(Field::make(alloc, "owner", Ty::Text(32))?)?;
    fields.push(Field::make(alloc, "data", Ty::OpaqueUpTo(65535))?)?;
    Def::make(alloc, "file", Shape::Struct(fields))
}

// typedefs of the types without a definition of their own
fn aliases(alloc: Global, types: &mut Vec<Def>) -> Result<(), AllocError> {
    let plain = [
        ("int", Ty::Int),
        ("uint", Ty::Uint),
        ("hyper", Ty::Hyper),
        ("uhyper", Ty::Uhyper),
        ("short", Ty::Short),
        ("ushort", Ty::Ushort),
        ("char", Ty::Char),
        ("uchar", Ty::Uchar),
        ("bool", Ty::Bool),
        ("void", Ty::Void),
        ("opaque[5]", Ty::Opaque(5)),
        ("opaque<4>", Ty::OpaqueUpTo(4)),
        ("string<>", Ty::Text(4294967295)),
        ("string<6>", Ty::Text(6)),
        ("int[2]", Ty::array(alloc, Ty::Int, 2)?),
        ("int<4>", Ty::up_to(alloc, Ty::Int, 4)?),
        ("bool<>", Ty::up_to(alloc, Ty::Bool, 4294967295)?),
        ("void<>", Ty::up_to(alloc, Ty::Void, 4294967295)?),
        ("int*", Ty::optional(alloc, Ty::Int)?),
    ];
    for (name, ty) in plain {
        types.push(Def::make(alloc, name, Shape::Alias(ty))?)?;
    }
    Ok(())
}

pub fn all_types(alloc: Global) -> Result<Vec<Def>, AllocError> {
    let mut types = Vec::new(alloc);
    types.push(color(alloc)?)?;
    types.push(with_default(alloc)?)?;
    types.push(by_bool(alloc)?)?;
    types.push(by_color(alloc)?)?;
    types.push(node(alloc)?)?;
    types.push(fid(alloc)?)?;
    types.push(filekind(alloc)?)?;
    types.push(filetype(alloc)?)?;
    types.push(file(alloc)?)?;
    types.push(Def::make(alloc, "empty", Shape::Struct(Vec::new(alloc)))?)?;
    aliases(alloc, &mut types)?;
    Ok(types)
}
