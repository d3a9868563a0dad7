//! The items of a spelling: numbers, padding and content.

ghost use Rattle.std.specs.Prelude.{◌≡◌, length, map, slice_index, slice_index_or, true};
ghost use Rattle.std.specs.Int.{w32, w64, from_be_bytes};
ghost use Rattle.xdr_value.specs.View.{value_of, member_of, choice_of};
ghost use Rattle.xdr_value.specs.HeadView.{tag_view};
ghost use Rattle.xdr_code.specs.NumberSets.{high_word, in_word, between, some_between, reached, numbers, case_numbers};
ghost use Rattle.xdr_code.specs.NumberSets.{is_signed, tag_set, case_set};
ghost use Rattle.xdr_code.specs.NumberSetView.{set_view};
ghost use Rattle.xdr_code.specs.Reading.{Gives, in_set_at, limited_at, any_number_at, padding_at, octets_at};
ghost use Rattle.xdr_code.specs.Reading.{counted_octets_at, tag_datum, tag_why, tag_at};

use crate::fault::{Fault, Stop, Why};
use std::alloc::Global;
use xdr_value::{Arm, Member, Tag, Value, default_arm};

/// The numbers that four bytes may have at a place.
#[derive(Clone, Copy, Debug)]
pub enum NumberSet<'a> {
    UpTo(u32),
    Around(u32),
    Members(&'a Vec<Member>),
    Cases(bool, &'a Vec<Arm>),
    Nothing,
}

fn byte_or_zero(bytes: &[u8], i: usize) -> u8
    ensures { result ≡ slice_index bytes.now i }
{
    if i < bytes.len() { bytes[i] } else { 0 }
}

// The least number that begins with the bytes.
fn low_word(bytes: &[u8]) -> u32
    ensures { result ≡ from_be_bytes w32 bytes.now }
{
    u32::from_be_bytes([
        byte_or_zero(bytes, 0),
        byte_or_zero(bytes, 1),
        byte_or_zero(bytes, 2),
        byte_or_zero(bytes, 3),
    ])
}

fn byte_or_all(bytes: &[u8], i: usize) -> u8
    ensures { result ≡ slice_index_or bytes.now i 255 }
{
    if i < bytes.len() { bytes[i] } else { 255 }
}

// The greatest number that begins with the bytes.
fn greatest_word(bytes: &[u8]) -> u32
    ensures { result ≡ high_word bytes.now }
{
    u32::from_be_bytes([
        byte_or_all(bytes, 0),
        byte_or_all(bytes, 1),
        byte_or_all(bytes, 2),
        byte_or_all(bytes, 3),
    ])
}

// Whether four bytes hold the number, and are from low to high then.
fn is_between(signed: bool, number: i64, low: u32, high: u32) -> bool
    ensures { result ≡ between signed number low high }
{
    let word = if signed {
        if number < -0x8000_0000 || 0x7fff_ffff < number {
            return false;
        }
        (number as i32).cast_unsigned()
    } else {
        if number < 0 || 0xffff_ffff < number {
            return false;
        }
        number as u32
    };
    low <= word && word <= high
}

fn is_member_between(members: &Vec<Member>, low: u32, high: u32) -> bool
    ensures { result ≡ some_between true (numbers (map member_of members.now.items)) low high }
{
    for member in members {
        if is_between(true, member.number, low, high) {
            return true;
        }
    }
    false
}

fn is_case_between(signed: bool, arms: &Vec<Arm>, low: u32, high: u32) -> bool
    ensures { result ≡ some_between signed (case_numbers (map choice_of arms.now.items)) low high }
{
    for arm in arms {
        if let Some(case) = arm.case {
            if is_between(signed, case, low, high) {
                return true;
            }
        }
    }
    false
}

fn is_reached(item: NumberSet<'_>, low: u32, high: u32) -> bool
    ensures { result ≡ reached (set_view item.entry) low high }
{
    match item {
        NumberSet::UpTo(limit) => low <= limit,
        NumberSet::Around(limit) => low < limit || 0x1_0000_0000 - limit as u64 <= high as u64,
        NumberSet::Members(members) => is_member_between(members, low, high),
        NumberSet::Cases(signed, arms) => is_case_between(signed, arms, low, high),
        NumberSet::Nothing => false,
    }
}

/// A number of the set.
#[tactic(auto, unfolding(crate::specs::Reading::in_set_at))]
pub fn read_in_set<'a>(
    item: NumberSet<'_>,
    why: Why,
    bytes: &'a [u8],
) -> Result<(u32, &'a [u8]), Stop>
    ensures { Gives (λ x. (x.0, x.1.now)) result (in_set_at (set_view item.entry) why bytes.now) }
{
    if bytes.is_empty() {
        return Err(Stop::Fault(Fault::Short));
    }
    let number = low_word(bytes);
    if !is_reached(item, number, greatest_word(bytes)) {
        return Err(Stop::Fault(Fault::Bad {
            left: bytes.len(),
            why,
        }));
    }
    if bytes.len() < 4 {
        return Err(Stop::Fault(Fault::Short));
    }
    let (_, rest) = bytes.split_at(4);
    Ok((number, rest))
}

/// A number that is at most the limit.
pub fn limited(bytes: &[u8], limit: u32, why: Why) -> Result<(u32, &[u8]), Stop>
    ensures { Gives (λ x. (x.0, x.1.now)) result (limited_at limit why bytes.now) }
{
    read_in_set(NumberSet::UpTo(limit), why, bytes)
}

/// Any number of four bytes.
#[inline]
#[tactic(auto, unfolding(crate::specs::Reading::any_number_at))]
pub fn word(bytes: &[u8]) -> Result<(u32, &[u8]), Stop>
    ensures { Gives (λ x. (x.0, x.1.now)) result (any_number_at w32 bytes.now) }
{
    if bytes.len() < 4 {
        return Err(Stop::Fault(Fault::Short));
    }
    let number = u32::from_be_bytes([bytes[0], bytes[1], bytes[2], bytes[3]]);
    let (_, rest) = bytes.split_at(4);
    Ok((number, rest))
}

/// Any number of eight bytes.
#[tactic(auto, unfolding(crate::specs::Reading::any_number_at))]
pub fn double_word(bytes: &[u8]) -> Result<(u64, &[u8]), Stop>
    ensures { Gives (λ x. (x.0, x.1.now)) result (any_number_at w64 bytes.now) }
{
    if bytes.len() < 8 {
        return Err(Stop::Fault(Fault::Short));
    }
    let number = u64::from_be_bytes([
        bytes[0], bytes[1], bytes[2], bytes[3], bytes[4], bytes[5], bytes[6], bytes[7],
    ]);
    let (_, rest) = bytes.split_at(8);
    Ok((number, rest))
}

#[tactic(auto, unfolding(crate::specs::Reading::padding_at))]
fn after_padding(bytes: &[u8], n: u32) -> Result<&[u8], Stop>
    ensures { Gives (λ x. x.now) result (padding_at n bytes.now) }
{
    if n == 0 {
        return Ok(bytes);
    }
    match bytes {
        [] => Err(Stop::Fault(Fault::Short)),
        [0, rest @ ..] => after_padding(rest, n - 1),
        [_, ..] => Err(Stop::Fault(Fault::Bad {
            left: bytes.len(),
            why: Why::Padding,
        })),
    }
}

/// So many bytes, and what pads them.
#[tactic(auto, unfolding(crate::specs::Reading::octets_at))]
pub fn content(alloc: Global, n: u32, bytes: &[u8]) -> Result<(Vec<u8>, &[u8]), Stop>
    ensures { Gives (λ x. (x.0.items, x.1.now)) result (octets_at n bytes.now) }
{
    let count = n as usize;
    if bytes.len() < count {
        return Err(Stop::Fault(Fault::Short));
    }
    let (front, rest) = bytes.split_at(count);
    let rest = after_padding(rest, (4 - n % 4) % 4)?;
    Ok((Vec::from_slice(alloc, front)?, rest))
}

/// A length that is at most the limit, so many bytes, and what pads them.
#[tactic(auto, unfolding(crate::specs::Reading::counted_octets_at))]
pub fn counted_content(alloc: Global, limit: u32, bytes: &[u8]) -> Result<(Value, &[u8]), Stop>
    ensures { Gives (λ x. (value_of x.0, x.1.now)) result (counted_octets_at limit bytes.now) }
{
    let (n, rest) = limited(bytes, limit, Why::Length)?;
    let (content, rest) = content(alloc, n, rest)?;
    Ok((Value::Octets(content), rest))
}

fn is_signed(tag: Tag<'_>) -> bool
    ensures { result ≡ is_signed (tag_view tag.entry) }
{
    match tag {
        Tag::Uint => false,
        Tag::Int | Tag::Bool | Tag::Enum(_) | Tag::Other => true,
    }
}

fn tag_set<'a>(tag: Tag<'a>) -> NumberSet<'a>
    ensures { set_view result ≡ tag_set (tag_view tag.entry) }
{
    match tag {
        Tag::Int => NumberSet::Around(0x8000_0000),
        Tag::Uint => NumberSet::UpTo(0xffff_ffff),
        Tag::Bool => NumberSet::UpTo(1),
        Tag::Enum(members) => NumberSet::Members(members),
        Tag::Other => NumberSet::Nothing,
    }
}

fn case_set<'a>(tag: Tag<'a>, arms: &'a Vec<Arm>) -> NumberSet<'a>
    ensures { set_view result ≡ case_set (tag_view tag.entry) (map choice_of arms.now.items) }
{
    if default_arm(arms).is_some() {
        tag_set(tag)
    } else {
        NumberSet::Cases(is_signed(tag), arms)
    }
}

fn tag_why(tag: Tag<'_>) -> Why
    ensures { result ≡ tag_why (tag_view tag.entry) }
{
    match tag {
        Tag::Bool => Why::Bool,
        Tag::Int | Tag::Uint | Tag::Enum(_) | Tag::Other => Why::Enum,
    }
}

fn tag_value(tag: Tag<'_>, n: u32) -> Value
    ensures { value_of result ≡ tag_datum (tag_view tag.entry) n }
{
    match tag {
        Tag::Uint => Value::Number(n as i128),
        Tag::Bool => Value::Flag(n == 1),
        Tag::Int | Tag::Enum(_) | Tag::Other => Value::Number(n.cast_signed() as i128),
    }
}

/// A tag that has an arm.
#[tactic(auto, unfolding(crate::specs::Reading::tag_at))]
pub fn read_tag<'a>(
    tag: Tag<'_>,
    arms: &Vec<Arm>,
    bytes: &'a [u8],
) -> Result<(Value, &'a [u8]), Stop>
    ensures { Gives (λ x. (value_of x.0, x.1.now)) result
        (tag_at (tag_view tag.entry) (map choice_of arms.now.items) bytes.now) }
{
    if bytes.is_empty() {
        return Err(Stop::Fault(Fault::Short));
    }
    if !is_reached(tag_set(tag), low_word(bytes), greatest_word(bytes)) {
        return Err(Stop::Fault(Fault::Bad {
            left: bytes.len(),
            why: tag_why(tag),
        }));
    }
    let (n, rest) = read_in_set(case_set(tag, arms), Why::Case, bytes)?;
    Ok((tag_value(tag, n), rest))
}
