//! Reading values that hold no others.

ghost use Rattle.std.specs.Prelude.{◌≡◌, None, map};
ghost use Rattle.std.specs.Int.{w32, cast_signed};
ghost use lib.IntN.{pos};
ghost use Rattle.xdr_value.specs.Data.{Types, number};
ghost use Rattle.xdr_value.specs.View.{value_of, member_of};
ghost use Rattle.xdr_value.specs.HeadView.{head_view};
ghost use Rattle.xdr_value.specs.declared.ty.Basic.TheVariants as basics;
ghost use Rattle.xdr_code.specs.Reading.{Gives, basic_at, enum_at, head_at};

use crate::fault::{Fault, Stop, Why};
use crate::items::{NumberSet, content, counted_content, double_word, limited, read_in_set, word};
use std::alloc::Global;
use xdr_value::{Basic, Head, Member, Value};

/// The value of a number of four bytes, in two's complement.
#[inline(always)]
pub fn signed_number(n: u32) -> Value
    ensures { value_of result ≡ number (cast_signed w32 n) }
{
    Value::Number(n.cast_signed() as i128)
}

/// The value of a number of four bytes.
#[inline(always)]
pub fn unsigned_number(n: u32) -> Value
    ensures { value_of result ≡ number (pos n) }
{
    Value::Number(n as i128)
}

#[tactic(auto, unfolding(crate::specs::Reading::basic_at))]
fn int(bytes: &[u8]) -> Result<(Value, &[u8]), Stop>
    ensures { Gives (λ x. (value_of x.0, x.1.now)) result (basic_at basics.Int bytes.now) }
{
    let (n, rest) = word(bytes)?;
    Ok((signed_number(n), rest))
}

#[tactic(auto, unfolding(crate::specs::Reading::basic_at))]
fn uint(bytes: &[u8]) -> Result<(Value, &[u8]), Stop>
    ensures { Gives (λ x. (value_of x.0, x.1.now)) result (basic_at basics.Uint bytes.now) }
{
    let (n, rest) = word(bytes)?;
    Ok((unsigned_number(n), rest))
}

#[tactic(auto, unfolding(crate::specs::Reading::basic_at))]
fn hyper(bytes: &[u8]) -> Result<(Value, &[u8]), Stop>
    ensures { Gives (λ x. (value_of x.0, x.1.now)) result (basic_at basics.Hyper bytes.now) }
{
    let (n, rest) = double_word(bytes)?;
    Ok((Value::Number(n.cast_signed() as i128), rest))
}

#[tactic(auto, unfolding(crate::specs::Reading::basic_at))]
fn uhyper(bytes: &[u8]) -> Result<(Value, &[u8]), Stop>
    ensures { Gives (λ x. (value_of x.0, x.1.now)) result (basic_at basics.Uhyper bytes.now) }
{
    let (n, rest) = double_word(bytes)?;
    Ok((Value::Number(n as i128), rest))
}

#[tactic(auto, unfolding(crate::specs::Reading::basic_at))]
fn short(bytes: &[u8]) -> Result<(Value, &[u8]), Stop>
    ensures { Gives (λ x. (value_of x.0, x.1.now)) result (basic_at basics.Short bytes.now) }
{
    let (n, rest) = read_in_set(NumberSet::Around(0x8000), Why::Range, bytes)?;
    Ok((Value::Number(n.cast_signed() as i128), rest))
}

#[tactic(auto, unfolding(crate::specs::Reading::basic_at))]
fn ushort(bytes: &[u8]) -> Result<(Value, &[u8]), Stop>
    ensures { Gives (λ x. (value_of x.0, x.1.now)) result (basic_at basics.Ushort bytes.now) }
{
    let (n, rest) = limited(bytes, 0xffff, Why::Range)?;
    Ok((Value::Number(n as i128), rest))
}

#[tactic(auto, unfolding(crate::specs::Reading::basic_at))]
fn char_number(bytes: &[u8]) -> Result<(Value, &[u8]), Stop>
    ensures { Gives (λ x. (value_of x.0, x.1.now)) result (basic_at basics.Char bytes.now) }
{
    let (n, rest) = read_in_set(NumberSet::Around(0x80), Why::Range, bytes)?;
    Ok((Value::Number(n.cast_signed() as i128), rest))
}

#[tactic(auto, unfolding(crate::specs::Reading::basic_at))]
fn uchar(bytes: &[u8]) -> Result<(Value, &[u8]), Stop>
    ensures { Gives (λ x. (value_of x.0, x.1.now)) result (basic_at basics.Uchar bytes.now) }
{
    let (n, rest) = limited(bytes, 0xff, Why::Range)?;
    Ok((Value::Number(n as i128), rest))
}

#[tactic(auto, unfolding(crate::specs::Reading::basic_at))]
fn flag(bytes: &[u8]) -> Result<(Value, &[u8]), Stop>
    ensures { Gives (λ x. (value_of x.0, x.1.now)) result (basic_at basics.Bool bytes.now) }
{
    let (n, rest) = limited(bytes, 1, Why::Bool)?;
    Ok((Value::Flag(n == 1), rest))
}

#[tactic(auto, unfolding(crate::specs::Reading::basic_at))]
fn opaque(alloc: Global, n: u32, bytes: &[u8]) -> Result<(Value, &[u8]), Stop>
    ensures { Gives (λ x. (value_of x.0, x.1.now)) result (basic_at (basics.Opaque n) bytes.now) }
{
    let (content, rest) = content(alloc, n, bytes)?;
    Ok((Value::Octets(content), rest))
}

/// A value of a type that holds no other.
#[tactic(auto, unfolding(crate::specs::Reading::basic_at))]
pub fn basic(alloc: Global, kind: Basic, bytes: &[u8]) -> Result<(Value, &[u8]), Stop>
    ensures { Gives (λ x. (value_of x.0, x.1.now)) result (basic_at kind bytes.now) }
{
    match kind {
        Basic::Int => int(bytes),
        Basic::Uint => uint(bytes),
        Basic::Hyper => hyper(bytes),
        Basic::Uhyper => uhyper(bytes),
        Basic::Short => short(bytes),
        Basic::Ushort => ushort(bytes),
        Basic::Char => char_number(bytes),
        Basic::Uchar => uchar(bytes),
        Basic::Bool => flag(bytes),
        Basic::Void => Ok((Value::Void, bytes)),
        Basic::Opaque(n) => opaque(alloc, n, bytes),
        Basic::OpaqueUpTo(n) => counted_content(alloc, n, bytes),
        Basic::Text(n) => counted_content(alloc, n, bytes),
    }
}

/// A member of an enum.
#[tactic(auto, unfolding(crate::specs::Reading::enum_at))]
pub fn member<'a>(members: &Vec<Member>, bytes: &'a [u8]) -> Result<(Value, &'a [u8]), Stop>
    ensures { Gives (λ x. (value_of x.0, x.1.now)) result (enum_at (map member_of members.now.items) bytes.now) }
{
    let (n, rest) = read_in_set(NumberSet::Members(members), Why::Enum, bytes)?;
    Ok((Value::Number(n.cast_signed() as i128), rest))
}

/// A value where no level may begin.
#[tactic(auto, unfolding(crate::specs::Reading::head_at))]
pub fn leaf<'a>(alloc: Global, head: Head<'_>, bytes: &'a [u8]) -> Result<(Value, &'a [u8]), Stop>
    ensures { (t : Types) → Gives (λ x. (value_of x.0, x.1.now)) result
        (head_at t None (head_view head.entry) bytes.now) }
{
    match head {
        Head::Basic(kind) => basic(alloc, kind, bytes),
        Head::Enum(members) => member(members, bytes),
        Head::Unknown => Err(Stop::Fault(Fault::Short)),
        Head::Struct(_) | Head::Union(_, _) => Err(Stop::Fault(Fault::Deep)),
        Head::Array(_, _) | Head::ArrayUpTo(_, _) => Err(Stop::Fault(Fault::Deep)),
        Head::Maybe(_) => Err(Stop::Fault(Fault::Deep)),
    }
}
