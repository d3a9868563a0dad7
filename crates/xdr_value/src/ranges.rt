//! Whether numbers are in the ranges of their types.

ghost use Rattle.std.specs.Prelude.{◌≡◌, ◌<◌, ◌≤◌, ◌^◌, map};
ghost use Rattle.xdr_value.specs.View.{member_of, choice_of};
ghost use Rattle.xdr_value.specs.Ranges.{is_below, is_within, has_number};
ghost use Rattle.xdr_value.specs.HeadView.{tag_view};
ghost use Rattle.xdr_value.specs.Tests.{members_in_range, case_in_range, arm_in_range, arms_in_range};

use crate::def::{Arm, Member};
use crate::head::Tag;

/// Whether a number is at least 0 and below the limit.
pub fn is_below(limit: u128, number: i128) -> bool
    requires { limit < 2 ^ 127 }
    ensures { result ≡ is_below limit number }
{
    0 <= number && number < limit as i128
}

/// Whether a number is at least minus the limit, and below it.
pub fn is_within(limit: u128, number: i128) -> bool
    requires { limit < 2 ^ 127 }
    ensures { result ≡ is_within limit number }
{
    let limit = limit as i128;
    -limit <= number && number < limit
}

/// Whether a member has the number.
pub fn has_number(members: &Vec<Member>, number: i128) -> bool
    ensures { result ≡ has_number (map member_of members.now.items) number }
{
    for member in members {
        if member.number as i128 == number {
            return true;
        }
    }
    false
}

/// Whether each member is in the range of an int.
pub fn members_in_range(members: &Vec<Member>) -> bool
    ensures { result ≡ members_in_range (map member_of members.now.items) }
{
    for member in members {
        if !is_within(0x8000_0000, member.number as i128) {
            return false;
        }
    }
    true
}

fn case_in_range(tag: Tag<'_>, case: i64) -> bool
    ensures { result ≡ case_in_range (tag_view tag.entry) case }
{
    let number = case as i128;
    match tag {
        Tag::Int => is_within(0x8000_0000, number),
        Tag::Uint => is_below(0x1_0000_0000, number),
        Tag::Bool => is_below(2, number),
        Tag::Enum(members) => has_number(members, number),
        Tag::Other => false,
    }
}

fn arm_in_range(tag: Tag<'_>, case: Option<i64>) -> bool
    ensures { result ≡ arm_in_range (tag_view tag.entry) case }
{
    match case {
        None => true,
        Some(number) => case_in_range(tag, number),
    }
}

/// Whether each case is a number of the tag's type.
pub fn arms_in_range(tag: Tag<'_>, arms: &Vec<Arm>) -> bool
    ensures { result ≡ arms_in_range (tag_view tag.entry) (map choice_of arms.now.items) }
{
    for arm in arms {
        if !arm_in_range(tag, arm.case) {
            return false;
        }
    }
    true
}
