//! Whether two values are one.

ghost use Rattle.std.specs.Prelude.{◌≡◌};
ghost use Rattle.xdr_value.specs.View.{value_of, values_of};
ghost use Rattle.rx_script.specs.Same.{same_value, same_values};

use xdr_value::Value;

/// Whether two values have the same parts; how much room a list keeps doesn't count.
#[cycle(same)]
pub fn same_value(one: &Value, other: &Value) -> bool
    ensures { result ≡ same_value (value_of one.now) (value_of other.now) }
{
    match one {
        Value::Number(n) => match other {
            Value::Number(m) => *n == *m,
            Value::Flag(_) | Value::Octets(_) | Value::List(_) | Value::Union(_, _) => false,
            Value::Maybe(_) | Value::Void => false,
        },
        Value::Flag(b) => match other {
            Value::Flag(c) => *b == *c,
            Value::Number(_) | Value::Octets(_) | Value::List(_) | Value::Union(_, _) => false,
            Value::Maybe(_) | Value::Void => false,
        },
        Value::Octets(bytes) => match other {
            Value::Octets(others) => bytes.as_slice() == others.as_slice(),
            Value::Number(_) | Value::Flag(_) | Value::List(_) | Value::Union(_, _) => false,
            Value::Maybe(_) | Value::Void => false,
        },
        Value::List(items) => match other {
            Value::List(others) => same_values(items, others),
            Value::Number(_) | Value::Flag(_) | Value::Octets(_) | Value::Union(_, _) => false,
            Value::Maybe(_) | Value::Void => false,
        },
        Value::Union(tag, arm) => match other {
            Value::Union(other_tag, other_arm) => {
                same_value(tag, other_tag) && same_value(arm, other_arm)
            }
            Value::Number(_) | Value::Flag(_) | Value::Octets(_) | Value::List(_) => false,
            Value::Maybe(_) | Value::Void => false,
        },
        Value::Maybe(inner) => match other {
            Value::Maybe(other_inner) => match inner {
                None => other_inner.is_none(),
                Some(inner) => match other_inner {
                    None => false,
                    Some(other_inner) => same_value(inner, other_inner),
                },
            },
            Value::Number(_) | Value::Flag(_) | Value::Octets(_) | Value::List(_) => false,
            Value::Union(_, _) | Value::Void => false,
        },
        Value::Void => match other {
            Value::Void => true,
            Value::Number(_) | Value::Flag(_) | Value::Octets(_) | Value::List(_) => false,
            Value::Union(_, _) | Value::Maybe(_) => false,
        },
    }
}

#[cycle(same)]
fn same_values(items: &Vec<Value>, others: &Vec<Value>) -> bool
    ensures { result ≡ same_values (values_of items.now.items) (values_of others.now.items) }
{
    if items.len() != others.len() {
        return false;
    }
    for i in 0..items.len() {
        if !same_value(&items[i], &others[i]) {
            return false;
        }
    }
    true
}
