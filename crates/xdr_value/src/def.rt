//! What the names of an interface stand for.

ghost use Rattle.std.specs.Prelude.{◌≡◌, IfOk};
ghost use Rattle.xdr_value.specs.View.{def_of, form_of, kind_of, member_of, param_of, part_of};

use crate::ty::Ty;
use std::alloc::{AllocError, Global};

/// A field of a struct, or what an arm of a union holds.
#[derive(Debug, Drop)]
pub struct Field {
    pub name: String,
    pub ty: Ty,
}

impl Field {
    /// A field of this name, which is copied.
    pub fn make(alloc: Global, name: &str, ty: Ty) -> Result<Field, AllocError>
        ensures { IfOk result (λ f. part_of f ≡ record { name = name.now; kind = kind_of ty }) }
    {
        let name = String::from_str(alloc, name)?;
        Ok(Field { name, ty })
    }
}

/// A member of an enum.
#[derive(Debug, Drop)]
pub struct Member {
    pub name: String,
    pub number: i64,
}

impl Member {
    /// A member of this name, which is copied.
    pub fn make(alloc: Global, name: &str, number: i64) -> Result<Member, AllocError>
        ensures { IfOk result (λ m. member_of m ≡ (name.now, number)) }
    {
        let name = String::from_str(alloc, name)?;
        Ok(Member { name, number })
    }
}

/// An arm of a union: without a case it is the default, without a field it is void.
#[derive(Debug, Drop)]
pub struct Arm {
    pub case: Option<i64>,
    pub field: Option<Field>,
}

/// What a name stands for: RFC 4506, sections 4.18, 4.3, 4.14 and 4.15.
#[derive(Debug, Drop)]
pub enum Shape {
    Alias(Ty),
    Enum(Vec<Member>),
    Struct(Vec<Field>),
    Union { tag: Ty, arms: Vec<Arm> },
}

/// Where a chain of names ends: the place of the definition there, and how many names lead to it.
#[derive(Clone, Copy, Debug)]
pub struct Link {
    pub end: usize,
    pub hops: usize,
}

/// A name with what it stands for. In an interface it has the link of the chain of names that begins with
/// what it stands for; it is the same definition whatever its link is.
#[derive(Debug, Drop)]
pub struct Def {
    pub name: String,
    pub shape: Shape,
    pub link: Link,
}

impl Def {
    /// A definition of this name, which is copied.
    pub fn make(alloc: Global, name: &str, shape: Shape) -> Result<Def, AllocError>
        ensures { IfOk result (λ d. def_of d ≡ (name.now, form_of shape)) }
    {
        let name = String::from_str(alloc, name)?;
        let link = Link { end: 0, hops: 0 };
        Ok(Def { name, shape, link })
    }
}

/// Which way an argument goes: with the request, with the reply, or both.
#[derive(Clone, Copy, Debug, PartialEq, Eq)]
pub enum Mode {
    In,
    Out,
    InOut,
}

/// An argument of a procedure.
#[derive(Debug, Drop)]
pub struct Arg {
    pub name: String,
    pub mode: Mode,
    pub ty: Ty,
}

impl Arg {
    /// An argument of this name, which is copied.
    pub fn make(alloc: Global, mode: Mode, name: &str, ty: Ty) -> Result<Arg, AllocError>
        ensures { IfOk result (λ a. param_of a ≡ record { name = name.now; mode = mode; kind = kind_of ty }) }
    {
        let name = String::from_str(alloc, name)?;
        Ok(Arg { name, mode, ty })
    }
}

/// A procedure. A split one has streams of bytes beside its arguments.
#[derive(Debug, Drop)]
pub struct Proc {
    pub name: String,
    pub opcode: u32,
    pub split: bool,
    pub multi: bool,
    pub args: Vec<Arg>,
}
