//! An interface with two procedures of AFS, and some more.

use std::alloc::{AllocError, Global};
use xdr_value::{Arg, Def, Field, Interface, Mode, Proc, Shape, Ty, sound};

fn plain(alloc: Global, name: &str, opcode: u32, args: Vec<Arg>) -> Result<Proc, AllocError> {
    Ok(Proc {
        name: String::from_str(alloc, name)?,
        opcode,
        split: false,
        multi: false,
        args,
    })
}

// struct AFSFid { afs_uint32 Volume; afs_uint32 Vnode; afs_uint32 Unique; };
fn afs_fid(alloc: Global) -> Result<Def, AllocError> {
    let mut fields = Vec::new(alloc);
    fields.push(Field::make(alloc, "Volume", Ty::Uint)?)?;
    fields.push(Field::make(alloc, "Vnode", Ty::Uint)?)?;
    fields.push(Field::make(alloc, "Unique", Ty::Uint)?)?;
    Def::make(alloc, "AFSFid", Shape::Struct(fields))
}

// struct Node { int v; Node *next; };
fn node(alloc: Global) -> Result<Def, AllocError> {
    let mut fields = Vec::new(alloc);
    fields.push(Field::make(alloc, "v", Ty::Int)?)?;
    let next = Ty::optional(alloc, Ty::named(alloc, "Node")?)?;
    fields.push(Field::make(alloc, "next", next)?)?;
    Def::make(alloc, "Node", Shape::Struct(fields))
}

fn types(alloc: Global) -> Result<Vec<Def>, AllocError> {
    let mut types = Vec::new(alloc);
    types.push(afs_fid(alloc)?)?;
    // typedef opaque AFSOpaque<1024>; typedef AFSFid AFSCBFids<50>;
    let opaque = Shape::Alias(Ty::OpaqueUpTo(1024));
    types.push(Def::make(alloc, "AFSOpaque", opaque)?)?;
    let kin = Ty::up_to(alloc, Ty::named(alloc, "AFSFid")?, 50)?;
    types.push(Def::make(alloc, "AFSCBFids", Shape::Alias(kin))?)?;
    types.push(node(alloc)?)?;
    // typedef unsigned Word;
    types.push(Def::make(alloc, "Word", Shape::Alias(Ty::Uint))?)?;
    Ok(types)
}

// proc FetchData(IN AFSFid *Fid, afs_int32 Pos, afs_int32 Length, OUT afs_int32 *Left) split = 130;
fn fetch_data(alloc: Global) -> Result<Proc, AllocError> {
    let mut args = Vec::new(alloc);
    args.push(Arg::make(alloc, Mode::In, "Fid", Ty::named(alloc, "AFSFid")?)?)?;
    args.push(Arg::make(alloc, Mode::In, "Pos", Ty::Int)?)?;
    args.push(Arg::make(alloc, Mode::In, "Length", Ty::Int)?)?;
    args.push(Arg::make(alloc, Mode::Out, "Left", Ty::Int)?)?;
    Ok(Proc {
        name: String::from_str(alloc, "FetchData")?,
        opcode: 130,
        split: true,
        multi: false,
        args,
    })
}

// FetchStatus(IN AFSFid *Fid, IN string Name<256>, INOUT afs_uint32 *Mode, OUT AFSCBFids *Kin) = 132;
fn fetch_status(alloc: Global) -> Result<Proc, AllocError> {
    let mut args = Vec::new(alloc);
    args.push(Arg::make(alloc, Mode::In, "Fid", Ty::named(alloc, "AFSFid")?)?)?;
    args.push(Arg::make(alloc, Mode::In, "Name", Ty::Text(256))?)?;
    args.push(Arg::make(alloc, Mode::InOut, "Mode", Ty::Uint)?)?;
    args.push(Arg::make(alloc, Mode::Out, "Kin", Ty::named(alloc, "AFSCBFids")?)?)?;
    plain(alloc, "FetchStatus", 132, args)
}

// Give(IN AFSOpaque Body, INOUT string Note<64>, INOUT int Code, OUT Word Size, OUT AFSOpaque Same, OUT opaque
// Plain<1024>, OUT hyper Big) split = 9;
fn give(alloc: Global) -> Result<Proc, AllocError> {
    let mut args = Vec::new(alloc);
    args.push(Arg::make(alloc, Mode::In, "Body", Ty::named(alloc, "AFSOpaque")?)?)?;
    args.push(Arg::make(alloc, Mode::InOut, "Note", Ty::Text(64))?)?;
    args.push(Arg::make(alloc, Mode::InOut, "Code", Ty::Int)?)?;
    args.push(Arg::make(alloc, Mode::Out, "Size", Ty::named(alloc, "Word")?)?)?;
    args.push(Arg::make(alloc, Mode::Out, "Same", Ty::named(alloc, "AFSOpaque")?)?)?;
    args.push(Arg::make(alloc, Mode::Out, "Plain", Ty::OpaqueUpTo(1024))?)?;
    args.push(Arg::make(alloc, Mode::Out, "Big", Ty::Hyper)?)?;
    Ok(Proc {
        name: String::from_str(alloc, "Give")?,
        opcode: 9,
        split: true,
        multi: false,
        args,
    })
}

fn procs(alloc: Global) -> Result<Vec<Proc>, AllocError> {
    let mut procs = Vec::new(alloc);
    procs.push(fetch_data(alloc)?)?;
    procs.push(fetch_status(alloc)?)?;
    // Store(INOUT opaque Data<100000>) = 7; Link(INOUT Node Chain) = 8;
    let mut args = Vec::new(alloc);
    args.push(Arg::make(alloc, Mode::InOut, "Data", Ty::OpaqueUpTo(100_000))?)?;
    procs.push(plain(alloc, "Store", 7, args)?)?;
    let mut args = Vec::new(alloc);
    args.push(Arg::make(alloc, Mode::InOut, "Chain", Ty::named(alloc, "Node")?)?)?;
    procs.push(plain(alloc, "Link", 8, args)?)?;
    procs.push(give(alloc)?)?;
    Ok(procs)
}

pub fn interface(alloc: Global) -> Result<Interface, AllocError> {
    let types = types(alloc)?;
    let procs = procs(alloc)?;
    if !sound(&types, &procs) {
        return Err(AllocError);
    }
    Ok(Interface::make(
        Some(String::from_str(alloc, "RXAFS_")?),
        Some(String::from_str(alloc, "S")?),
        types,
        procs,
    ))
}
