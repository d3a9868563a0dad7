//! Values of types.

ghost use Rattle.std.specs.Prelude.{◌≡◌, IfOk};
ghost use Rattle.xdr_value.specs.Fits.{tag_number};
ghost use Rattle.xdr_value.specs.Data.{some, union};
ghost use Rattle.xdr_value.specs.View.{value_of, values_of};

use std::alloc::{AllocError, Global};

/// A value of a type: `Number` of the numbers and enums, `Octets` of opaque data and strings,
/// `List` of arrays and structs, `Union` of a tag and its arm, `Maybe` of optional data. It is
/// matched by reference, since it has a `drop` of its own.
#[derive(Debug)]
pub enum Value {
    Number(i128),
    Flag(bool),
    Octets(Vec<u8>),
    List(Vec<Value>),
    Union(Box<Value>, Box<Value>),
    Maybe(Option<Box<Value>>),
    Void,
}

impl Drop for Value {
    // A number has nothing to free. Most values are one, so that is seen without a call.
    #[inline(always)]
    #[cycle(free)]
    fn drop(self) {
        match self {
            Value::Number(_) => {}
            held => held.free(),
        }
    }
}

impl Value {
    #[inline(never)]
    #[cycle(free)]
    fn free(self) {
        match self {
            Value::Number(_) | Value::Flag(_) | Value::Void => {}
            Value::Octets(bytes) => drop(bytes),
            Value::List(items) => free_all(items),
            Value::Union(tag, arm) => {
                drop(tag);
                drop(arm);
            }
            Value::Maybe(inner) => drop(inner),
        }
    }

    /// Optional data that is there.
    pub fn there(alloc: Global, inner: Value) -> Result<Value, AllocError>
        ensures { IfOk result (λ v. value_of v ≡ some (value_of inner)) }
    {
        let inner = Box::new(alloc, inner)?;
        Ok(Value::Maybe(Some(inner)))
    }

    /// A union's tag with its arm.
    pub fn chosen(alloc: Global, tag: Value, arm: Value) -> Result<Value, AllocError>
        ensures { IfOk result (λ v. value_of v ≡ union (value_of tag) (value_of arm)) }
    {
        let tag = Box::new(alloc, tag)?;
        let arm = Box::new(alloc, arm)?;
        Ok(Value::Union(tag, arm))
    }

    /// A value with the same parts.
    pub fn copied(&self, alloc: Global) -> Result<Value, AllocError>
        ensures { IfOk result (λ v. value_of v ≡ value_of self.now) }
    {
        copy(alloc, self)
    }
}

// From the last to the first, so that what was allocated last is freed first. The C library then has
// the memory at hand for the next value; freed from the front, a long list goes back to the system.
#[inline(never)]
#[cycle(free)]
fn free_all(mut items: Vec<Value>) {
    while let Some(item) = items.pop() {
        drop(item);
    }
}

#[cycle(copy)]
fn copy(alloc: Global, value: &Value) -> Result<Value, AllocError>
    ensures { IfOk result (λ v. value_of v ≡ value_of value.now) }
{
    match value {
        Value::Number(n) => Ok(Value::Number(*n)),
        Value::Flag(b) => Ok(Value::Flag(*b)),
        Value::Octets(bytes) => Ok(Value::Octets(Vec::from_slice(alloc, bytes)?)),
        Value::List(items) => Ok(Value::List(copy_all(alloc, items)?)),
        Value::Union(tag, arm) => {
            let first = Box::new(alloc, copy(alloc, tag)?)?;
            let second = Box::new(alloc, copy(alloc, arm)?)?;
            Ok(Value::Union(first, second))
        }
        Value::Maybe(inner) => match inner {
            None => Ok(Value::Maybe(None)),
            Some(inner) => {
                let inner = Box::new(alloc, copy(alloc, inner)?)?;
                Ok(Value::Maybe(Some(inner)))
            }
        },
        Value::Void => Ok(Value::Void),
    }
}

#[cycle(copy)]
fn copy_all(alloc: Global, items: &Vec<Value>) -> Result<Vec<Value>, AllocError>
    ensures { IfOk result (λ v. values_of v.items ≡ values_of items.now.items) }
{
    let mut copies = Vec::with_capacity(alloc, items.len())?;
    for item in items {
        copies.push(copy(alloc, item)?)?;
    }
    Ok(copies)
}

/// The number by which a tag chooses its arm: that of a bool is 0 or 1.
pub fn tag_number(tag: &Value) -> i128
    ensures { result ≡ tag_number (value_of tag.now) }
{
    match tag {
        Value::Number(n) => *n,
        Value::Flag(b) => if *b { 1 } else { 0 },
        Value::Octets(_) | Value::List(_) | Value::Union(_, _) => 0,
        Value::Maybe(_) | Value::Void => 0,
    }
}
