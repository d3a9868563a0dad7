//! Values of the tests, and bytes.

use std::alloc::{AllocError, Global};
use xdr_value::Value;

// The request and the reply of FetchStatus with the values below.
pub const STATUS_REQUEST: &str = "00000084 00000001 00000002 00000003 00000001 61000000 000001a4";

pub const STATUS_REPLY: &str = "000001a4 00000001 00000001 00000002 00000003";

// The bytes of a text of hex digits, whose spaces count for nothing.
pub fn bytes_of(alloc: Global, text: &str) -> Result<Vec<u8>, AllocError> {
    let mut digits = Vec::new(alloc);
    for c in text.as_bytes() {
        if *c != b' ' {
            digits.push(*c)?;
        }
    }
    match hex::decode(alloc, digits.as_slice()) {
        Ok(bytes) => Ok(bytes),
        Err(_) => Err(AllocError),
    }
}

// n zero bytes behind those of a text.
pub fn zeros_behind(alloc: Global, hex: &str, n: usize) -> Result<Vec<u8>, AllocError> {
    let mut bytes = bytes_of(alloc, hex)?;
    for _ in 0..n {
        bytes.push(0)?;
    }
    Ok(bytes)
}

// {"Volume":v,"Vnode":n,"Unique":u}
pub fn fid(alloc: Global, v: i128, n: i128, u: i128) -> Result<Value, AllocError> {
    let mut parts = Vec::new(alloc);
    parts.push(Value::Number(v))?;
    parts.push(Value::Number(n))?;
    parts.push(Value::Number(u))?;
    Ok(Value::List(parts))
}

// [{"Volume":1,"Vnode":2,"Unique":3},"a",420]
pub fn status_args(alloc: Global) -> Result<Vec<Value>, AllocError> {
    let mut args = Vec::new(alloc);
    args.push(fid(alloc, 1, 2, 3)?)?;
    args.push(Value::Octets(Vec::from_slice(alloc, b"a")?))?;
    args.push(Value::Number(420))?;
    Ok(args)
}

// [420,[{"Volume":1,"Vnode":2,"Unique":3}]]
pub fn status_values(alloc: Global) -> Result<Vec<Value>, AllocError> {
    let mut values = Vec::new(alloc);
    values.push(Value::Number(420))?;
    let mut kin = Vec::new(alloc);
    kin.push(fid(alloc, 1, 2, 3)?)?;
    values.push(Value::List(kin))?;
    Ok(values)
}

// The data of Store, n zero bytes.
pub fn stored(alloc: Global, n: usize) -> Result<Vec<Value>, AllocError> {
    let mut values = Vec::new(alloc);
    values.push(Value::Octets(zeros_behind(alloc, "", n)?))?;
    Ok(values)
}

fn node(alloc: Global, next: Value) -> Result<Value, AllocError> {
    let mut parts = Vec::new(alloc);
    parts.push(Value::Number(5))?;
    parts.push(next)?;
    Ok(Value::List(parts))
}

// The chain of Link with n nodes, which has 2 n levels.
pub fn chain(alloc: Global, n: usize) -> Result<Vec<Value>, AllocError> {
    let mut chain = node(alloc, Value::Maybe(None))?;
    for _ in 1..n {
        chain = node(alloc, Value::there(alloc, chain)?)?;
    }
    let mut values = Vec::new(alloc);
    values.push(chain)?;
    Ok(values)
}

// The bytes of the chain behind those of a text.
pub fn chain_bytes(alloc: Global, hex: &str, n: usize) -> Result<Vec<u8>, AllocError> {
    let mut bytes = bytes_of(alloc, hex)?;
    for i in 1..=n {
        bytes.extend_from_slice(&[0, 0, 0, 5, 0, 0, 0])?;
        bytes.push(if i < n { 1 } else { 0 })?;
    }
    Ok(bytes)
}
