//! How deep a value is.

ghost use Rattle.std.specs.Prelude.{◌≤◌, ◌↔◌, IsTrue};
ghost use Rattle.xdr_value.specs.View.{value_of, values_of};
ghost use Rattle.xdr_value.specs.Fits.{depth, depths};

use crate::value::Value;

/// How many structs, unions, arrays and optional data may stand within one another in a value that is
/// written or read.
pub const MAX_LEVELS: u32 = 64;

/// Whether at most so many structs, unions, arrays and optional data stand within one another. A
/// number, a bool, content and void are no level, nor is a union's tag.
#[cycle(levels)]
pub fn has_levels_within(value: &Value, levels: u32) -> bool
    ensures { IsTrue result ↔ depth (value_of value.now) ≤ levels }
{
    match value {
        Value::Number(_) | Value::Flag(_) | Value::Octets(_) | Value::Void => true,
        Value::List(items) => levels > 0 && are_within(items, levels - 1),
        Value::Union(_, inner) => levels > 0 && has_levels_within(inner, levels - 1),
        Value::Maybe(inner) => match inner {
            None => levels > 0,
            Some(inner) => levels > 0 && has_levels_within(inner, levels - 1),
        },
    }
}

#[cycle(levels)]
fn are_within(items: &Vec<Value>, levels: u32) -> bool
    ensures { IsTrue result ↔ depths (values_of items.now.items) ≤ levels }
{
    for item in items {
        if !has_levels_within(item, levels) {
            return false;
        }
    }
    true
}
