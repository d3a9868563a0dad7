//! What is read and printed, as texts.

use super::types::{interface, type_named};
use std::alloc::{AllocError, Global};
use std::process::Abort;
use xdr_json::{JsonFault, from_json, to_json};
use xdr_value::{Value, fits, has_levels_within, known};

fn told(alloc: Global, path: &str, want: &str) -> Result<String, AllocError> {
    let mut answer = String::from_str(alloc, path)?;
    answer.push_str(" ")?;
    answer.push_str(want)?;
    Ok(answer)
}

// What is printed of a value of the type.
pub fn printed(alloc: Global, name: &str, value: &Value) -> Result<String, AllocError> {
    let iface = interface(alloc)?;
    let ty = type_named(alloc, name)?;
    if !known(&iface.types, &ty) {
        return Err(AllocError);
    }
    if fits(&iface, &ty, value) && has_levels_within(value, 64) {
        to_json(alloc, &iface, &ty, value)
    } else {
        String::from_str(alloc, "no value")
    }
}

// The value that a text is, where it is one.
pub fn value_in(alloc: Global, name: &str, json: &str) -> Result<Value, JsonFault> {
    match read_value(alloc, name, json) {
        Err(_) => Err(JsonFault::OutOfMemory),
        Ok(read) => read,
    }
}

fn read_value(
    alloc: Global,
    name: &str,
    json: &str,
) -> Result<Result<Value, JsonFault>, AllocError> {
    let iface = interface(alloc)?;
    let ty = type_named(alloc, name)?;
    if !known(&iface.types, &ty) {
        return Err(AllocError);
    }
    Ok(from_json(alloc, &iface, &ty, json))
}

// What is printed of the value that is read, `no json`, or the path and the wanted type.
pub fn again(alloc: Global, name: &str, json: &str) -> Result<String, AllocError> {
    match value_in(alloc, name, json) {
        Ok(value) => printed(alloc, name, &value),
        Err(JsonFault::NotJson) => String::from_str(alloc, "no json"),
        Err(JsonFault::Mismatch { path, want }) => told(alloc, path.as_str(), want.as_str()),
        Err(JsonFault::OutOfMemory) => Err(AllocError),
    }
}

pub fn check(
    rt: &impl Abort,
    alloc: Global,
    rows: &[(&str, &str, &str)],
) -> Result<(), AllocError> {
    for (name, json, wanted) in rows {
        let answer = again(alloc, name, json)?;
        assert_eq!(rt; answer.as_str(), *wanted, "{name} {json}");
    }
    Ok(())
}
