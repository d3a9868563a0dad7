//! Types (RFC 4506, section 4).

ghost use Rattle.std.specs.Prelude.{◌≡◌, IfOk};
ghost use Rattle.xdr_value.specs.Data.{array, array_up_to, maybe, named};
ghost use Rattle.xdr_value.specs.View.{kind_of};

use std::alloc::{AllocError, Global};

/// A type of an interface. The number of `Opaque` and `Array` is how many there are, that of
/// `OpaqueUpTo`, `Text` and `ArrayUpTo` how many there are at most. A name has the place among the types
/// of an interface where its definition is looked for first; it is the same type wherever it stands.
#[derive(Debug, Drop)]
pub enum Ty {
    Int,
    Uint,
    Hyper,
    Uhyper,
    Short,
    Ushort,
    Char,
    Uchar,
    Bool,
    Void,
    Opaque(u32),
    OpaqueUpTo(u32),
    Text(u32),
    Array(Box<Ty>, u32),
    ArrayUpTo(Box<Ty>, u32),
    Maybe(Box<Ty>),
    Named(String, usize),
}

impl Ty {
    /// The type of this name, which is copied.
    pub fn named(alloc: Global, name: &str) -> Result<Ty, AllocError>
        ensures { IfOk result (λ t. kind_of t ≡ named name.now) }
    {
        Ty::placed(alloc, name, 0)
    }

    /// The type of this name, which is copied, and is found at once where its definition stands at this
    /// place among the types of an interface.
    pub fn placed(alloc: Global, name: &str, place: usize) -> Result<Ty, AllocError>
        ensures { IfOk result (λ t. kind_of t ≡ named name.now) }
    {
        Ok(Ty::Named(String::from_str(alloc, name)?, place))
    }

    /// So many elements.
    pub fn array(alloc: Global, of: Ty, count: u32) -> Result<Ty, AllocError>
        ensures { IfOk result (λ t. kind_of t ≡ array (kind_of of) count) }
    {
        Ok(Ty::Array(Box::new(alloc, of)?, count))
    }

    /// At most so many elements.
    pub fn up_to(alloc: Global, of: Ty, limit: u32) -> Result<Ty, AllocError>
        ensures { IfOk result (λ t. kind_of t ≡ array_up_to (kind_of of) limit) }
    {
        Ok(Ty::ArrayUpTo(Box::new(alloc, of)?, limit))
    }

    /// Optional data.
    pub fn optional(alloc: Global, of: Ty) -> Result<Ty, AllocError>
        ensures { IfOk result (λ t. kind_of t ≡ maybe (kind_of of)) }
    {
        Ok(Ty::Maybe(Box::new(alloc, of)?))
    }
}

/// A type that holds no other.
#[derive(Clone, Copy, Debug, PartialEq, Eq)]
pub enum Basic {
    Int,
    Uint,
    Hyper,
    Uhyper,
    Short,
    Ushort,
    Char,
    Uchar,
    Bool,
    Void,
    Opaque(u32),
    OpaqueUpTo(u32),
    Text(u32),
}
