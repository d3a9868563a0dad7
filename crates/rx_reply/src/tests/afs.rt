//! An interface with two procedures of AFS.

use std::alloc::{AllocError, Global};
use xdr_value::{Arg, Def, Field, Interface, Mode, Proc, Shape, Ty, Value, sound};

// struct AFSFid { afs_uint32 Volume; afs_uint32 Vnode; afs_uint32 Unique; };
fn afs_fid(alloc: Global) -> Result<Def, AllocError> {
    let mut fields = Vec::new(alloc);
    fields.push(Field::make(alloc, "Volume", Ty::Uint)?)?;
    fields.push(Field::make(alloc, "Vnode", Ty::Uint)?)?;
    fields.push(Field::make(alloc, "Unique", Ty::Uint)?)?;
    Def::make(alloc, "AFSFid", Shape::Struct(fields))
}

fn types(alloc: Global) -> Result<Vec<Def>, AllocError> {
    let mut types = Vec::new(alloc);
    types.push(afs_fid(alloc)?)?;
    // typedef opaque AFSOpaque<1024>; typedef AFSFid AFSCBFids<50>;
    let opaque = Shape::Alias(Ty::OpaqueUpTo(1024));
    types.push(Def::make(alloc, "AFSOpaque", opaque)?)?;
    let kin = Ty::up_to(alloc, Ty::named(alloc, "AFSFid")?, 50)?;
    types.push(Def::make(alloc, "AFSCBFids", Shape::Alias(kin))?)?;
    Ok(types)
}

// proc FetchData(IN AFSFid *Fid, afs_int32 Pos, afs_int32 Length, OUT afs_int32 *Left) split = 130;
fn fetch_data(alloc: Global) -> Result<Proc, AllocError> {
    let mut args = Vec::new(alloc);
    args.push(Arg::make(alloc, Mode::In, "Fid", Ty::named(alloc, "AFSFid")?)?)?;
    args.push(Arg::make(alloc, Mode::In, "Pos", Ty::Int)?)?;
    args.push(Arg::make(alloc, Mode::In, "Length", Ty::Int)?)?;
    args.push(Arg::make(alloc, Mode::Out, "Left", Ty::Int)?)?;
    Ok(Proc {
        name: String::from_str(alloc, "FetchData")?,
        opcode: 130,
        split: true,
        multi: false,
        args,
    })
}

// FetchStatus(IN AFSFid *Fid, IN string Name<256>, INOUT afs_uint32 *Mode, OUT AFSCBFids *Kin) = 132;
fn fetch_status(alloc: Global) -> Result<Proc, AllocError> {
    let mut args = Vec::new(alloc);
    args.push(Arg::make(alloc, Mode::In, "Fid", Ty::named(alloc, "AFSFid")?)?)?;
    args.push(Arg::make(alloc, Mode::In, "Name", Ty::Text(256))?)?;
    args.push(Arg::make(alloc, Mode::InOut, "Mode", Ty::Uint)?)?;
    args.push(Arg::make(alloc, Mode::Out, "Kin", Ty::named(alloc, "AFSCBFids")?)?)?;
    Ok(Proc {
        name: String::from_str(alloc, "FetchStatus")?,
        opcode: 132,
        split: false,
        multi: false,
        args,
    })
}

pub fn interface(alloc: Global) -> Result<Interface, AllocError> {
    let types = types(alloc)?;
    let mut procs = Vec::new(alloc);
    procs.push(fetch_data(alloc)?)?;
    procs.push(fetch_status(alloc)?)?;
    if !sound(&types, &procs) {
        return Err(AllocError);
    }
    Ok(Interface::make(
        Some(String::from_str(alloc, "RXAFS_")?),
        Some(String::from_str(alloc, "S")?),
        types,
        procs,
    ))
}

// The bytes of a text of hex digits, whose spaces count for nothing.
pub fn bytes_of(alloc: Global, text: &str) -> Result<Vec<u8>, AllocError> {
    let mut digits = Vec::new(alloc);
    for c in text.as_bytes() {
        if *c != b' ' {
            digits.push(*c)?;
        }
    }
    match hex::decode(alloc, digits.as_slice()) {
        Ok(bytes) => Ok(bytes),
        Err(_) => Err(AllocError),
    }
}

// {"Volume":1,"Vnode":2,"Unique":3}
pub fn fid(alloc: Global) -> Result<Value, AllocError> {
    let mut parts = Vec::new(alloc);
    parts.push(Value::Number(1))?;
    parts.push(Value::Number(2))?;
    parts.push(Value::Number(3))?;
    Ok(Value::List(parts))
}
