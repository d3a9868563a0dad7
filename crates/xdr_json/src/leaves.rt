//! Judging JSON that has no parts.

ghost use Rattle.std.specs.Prelude.{◌≡◌, map, option_map, IfOk};
ghost use Rattle.hex.specs.Hex.{decode_of};
ghost use Rattle.serde_json.specs.Find.{as_integer};
ghost use Rattle.serde_json.specs.View.{view};
ghost use Rattle.xdr_value.specs.View.{value_of, member_of};
ghost use Rattle.xdr_value.specs.Heads.{is_basic};
ghost use Rattle.xdr_value.specs.HeadView.{head_view, tag_view};
ghost use Rattle.xdr_json.specs.Judging.{null_value, bool_value, whole_value, member_number, hex_value, string_value};
ghost use Rattle.xdr_json.specs.Judging.{octets_value, tag_of_json, whole_tag, name_tag, bool_tag, in_range, as_number};

use hex::FromHexError;
use serde_json::Value as Json;
use std::alloc::{AllocError, Global};
use xdr_value::{Basic, Head, Member, Tag, Value, is_below, is_within, number_fits, octets_fit};

/// The value that null is.
pub fn null_value(head: Head<'_>) -> Option<Value>
    ensures { option_map value_of result ≡ null_value (head_view head.entry) }
{
    match head {
        Head::Basic(basic) => match basic {
            Basic::Void => Some(Value::Void),
            Basic::Int | Basic::Uint | Basic::Hyper | Basic::Uhyper => None,
            Basic::Short | Basic::Ushort | Basic::Char | Basic::Uchar | Basic::Bool => None,
            Basic::Opaque(_) | Basic::OpaqueUpTo(_) | Basic::Text(_) => None,
        },
        Head::Enum(_) | Head::Struct(_) | Head::Union(_, _) | Head::Array(_, _) => None,
        Head::ArrayUpTo(_, _) | Head::Maybe(_) | Head::Unknown => None,
    }
}

/// The value that true or false is.
pub fn bool_value(head: Head<'_>, b: bool) -> Option<Value>
    ensures { option_map value_of result ≡ bool_value (head_view head.entry) b }
{
    match head {
        Head::Basic(basic) => match basic {
            Basic::Bool => Some(Value::Flag(b)),
            Basic::Int | Basic::Uint | Basic::Hyper | Basic::Uhyper => None,
            Basic::Short | Basic::Ushort | Basic::Char | Basic::Uchar | Basic::Void => None,
            Basic::Opaque(_) | Basic::OpaqueUpTo(_) | Basic::Text(_) => None,
        },
        Head::Enum(_) | Head::Struct(_) | Head::Union(_, _) | Head::Array(_, _) => None,
        Head::ArrayUpTo(_, _) | Head::Maybe(_) | Head::Unknown => None,
    }
}

fn in_range(fits: bool, number: i128) -> Option<Value>
    ensures { option_map value_of result ≡ in_range fits number }
{
    if fits {
        Some(Value::Number(number))
    } else {
        None
    }
}

/// The value that a number is, where it is whole.
pub fn whole_value(head: Head<'_>, number: Option<i128>) -> Option<Value>
    ensures { option_map value_of result ≡ whole_value (head_view head.entry) number }
{
    match number {
        None => None,
        Some(number) => match head {
            Head::Basic(_) => in_range(number_fits(head, number), number),
            Head::Enum(_) | Head::Struct(_) | Head::Union(_, _) | Head::Array(_, _) => None,
            Head::ArrayUpTo(_, _) | Head::Maybe(_) | Head::Unknown => None,
        },
    }
}

fn member_number(members: &Vec<Member>, name: &str) -> Option<i128>
    ensures { result ≡ member_number (map member_of members.now.items) name.now }
{
    for member in members {
        if member.name.as_str() == name {
            return Some(member.number as i128);
        }
    }
    None
}

fn member_value(members: &Vec<Member>, name: &str) -> Option<Value>
    ensures { option_map value_of result ≡ as_number (member_number (map member_of members.now.items) name.now) }
{
    match member_number(members, name) {
        None => None,
        Some(number) => Some(Value::Number(number)),
    }
}

fn octets_value(basic: Basic, bytes: Vec<u8>) -> Option<Value>
    ensures { option_map value_of result ≡ octets_value (is_basic basic) bytes.items }
{
    if octets_fit(Head::Basic(basic), bytes.len()) {
        Some(Value::Octets(bytes))
    } else {
        None
    }
}

/// The octets that hex is.
pub fn hex_value(alloc: Global, basic: Basic, digits: &str) -> Result<Option<Value>, AllocError>
    ensures { IfOk result (λ v. option_map value_of v ≡ hex_value (is_basic basic) (decode_of digits.now)) }
{
    match hex::decode(alloc, digits) {
        Ok(bytes) => Ok(octets_value(basic, bytes)),
        Err(e) => match e {
            FromHexError::OutOfMemory => Err(AllocError),
            FromHexError::OddLength | FromHexError::InvalidStringLength => Ok(None),
            FromHexError::InvalidHexCharacter { .. } => Ok(None),
        },
    }
}

fn basic_string(alloc: Global, basic: Basic, s: &str) -> Result<Option<Value>, AllocError>
    ensures { IfOk result (λ v. option_map value_of v ≡ string_value (is_basic basic) s.now) }
{
    match basic {
        Basic::Text(_) => Ok(octets_value(basic, Vec::from_slice(alloc, s.as_bytes())?)),
        Basic::Opaque(_) | Basic::OpaqueUpTo(_) => hex_value(alloc, basic, s),
        Basic::Int | Basic::Uint | Basic::Hyper | Basic::Uhyper => Ok(None),
        Basic::Short | Basic::Ushort | Basic::Char | Basic::Uchar => Ok(None),
        Basic::Bool | Basic::Void => Ok(None),
    }
}

/// The value that a string is.
pub fn string_value(alloc: Global, head: Head<'_>, s: &str) -> Result<Option<Value>, AllocError>
    ensures { IfOk result (λ v. option_map value_of v ≡ string_value (head_view head.entry) s.now) }
{
    match head {
        Head::Basic(basic) => basic_string(alloc, basic, s),
        Head::Enum(members) => Ok(member_value(members, s)),
        Head::Struct(_) | Head::Union(_, _) | Head::Array(_, _) => Ok(None),
        Head::ArrayUpTo(_, _) | Head::Maybe(_) | Head::Unknown => Ok(None),
    }
}

fn whole_tag(tag: Tag<'_>, number: Option<i128>) -> Option<Value>
    ensures { option_map value_of result ≡ whole_tag (tag_view tag.entry) number }
{
    match number {
        None => None,
        Some(number) => match tag {
            Tag::Int => in_range(is_within(0x8000_0000, number), number),
            Tag::Uint => in_range(is_below(0x1_0000_0000, number), number),
            Tag::Bool | Tag::Enum(_) | Tag::Other => None,
        },
    }
}

fn name_tag(tag: Tag<'_>, name: &str) -> Option<Value>
    ensures { option_map value_of result ≡ name_tag (tag_view tag.entry) name.now }
{
    match tag {
        Tag::Enum(members) => member_value(members, name),
        Tag::Int | Tag::Uint | Tag::Bool | Tag::Other => None,
    }
}

fn bool_tag(tag: Tag<'_>, b: bool) -> Option<Value>
    ensures { option_map value_of result ≡ bool_tag (tag_view tag.entry) b }
{
    match tag {
        Tag::Bool => Some(Value::Flag(b)),
        Tag::Int | Tag::Uint | Tag::Enum(_) | Tag::Other => None,
    }
}

/// The value of the tag's type that JSON is.
pub fn tag_of_json(tag: Tag<'_>, json: &Json) -> Option<Value>
    ensures { option_map value_of result ≡ tag_of_json (tag_view tag.entry) (view json.now) }
{
    match json {
        Json::Bool(b) => bool_tag(tag, *b),
        Json::Number(n) => whole_tag(tag, n.as_i128()),
        Json::String(s) => name_tag(tag, s.as_str()),
        Json::Null | Json::Array(_) | Json::Object(_) => None,
    }
}
