//! Sizes, values, cases and encodings out of their ranges.

ghost use Rattle.std.specs.Prelude.{◌≡◌, ◌↔◌, ℕ, Option, [], Some, false, slice_get, IfOk, IsTrue, option_map};
ghost use Rattle.xg_check.specs.Graphs.{AreOrdered};
ghost use Rattle.xg_check.specs.Typed.{type_ways};
ghost use Rattle.xg_check.specs.Marks.{valued, sized};
ghost use Rattle.xg_check.specs.Judged.{is_out_of_range, form_bound_word, IsHollowArray, IsTooLarge, IsTypeTooLarge};
ghost use Rattle.xg_check.specs.Judged.{has_arm, is_tag, is_no_int, is_no_case, passes_most, IsWrong, IsSizeFault};
ghost use Rattle.xg_check.specs.Judged.{IsSizeWrong};
ghost use Rattle.xg_check.specs.Judged.{HoldsNoEndless};
ghost use Rattle.xg_check.specs.Constants.{value_of};
ghost use Rattle.xg_check.specs.Tags.{tag_of};
ghost use Rattle.xg_check.specs.Typed.{word_place};
ghost use Rattle.xg_check.specs.Answers.{IsFirstNamed};
ghost use Rattle.xg_check.specs.Views.{mark_of, marks_of};
ghost use Rattle.xg_check.specs.Judging.{CanJudge, AreWithoutEnd};
ghost use Rattle.xg_check.specs.Held.{capped};

use crate::encoding::{Encodings, MOST_BYTES, size};
use crate::graph::reversed;
use crate::marks::Mark;
use crate::order::Order;
use crate::reach::reach;
use crate::tags::{Tag, Tags};
use crate::types::{Types, Ways, word_of};
use crate::values::Constants;
use std::alloc::{AllocError, Global};
use xg_parse::{ArmItem, ConstWord, Decl, Form, TypeWord};

/// What sizes are judged by.
#[derive(Drop)]
pub struct Judge {
    encodings: Encodings,
    tags: Tags,
    without_end: Vec<bool>,
}

// The types that hold an endless one in any way, or are one.
fn without_end(alloc: Global, types: &Types<'_>, order: &Order) -> Result<Vec<bool>, AllocError>
    requires { AreOrdered (type_ways types.now Ways.Held) order.now.nodes.items order.now.ended.items }
    ensures { IfOk result (λ marks. AreWithoutEnd types.now marks.items) }
{
    let mut starts = Vec::new(alloc);
    for place in 0..order.ended.len() {
        if !order.ended[place] {
            starts.push(place)?;
        }
    }
    let ways = types.ways(alloc, Ways::All)?;
    reach(alloc, &reversed(alloc, &ways)?, starts.as_slice())
}

// A bound or a size that has a value out of its range.
fn is_out_of_range(constants: &Constants<'_>, word: &ConstWord) -> bool
    ensures { result ≡ is_out_of_range constants.now (Some word.now) }
{
    constants.value(word).is_some() && size(constants, word).is_none()
}

fn bound_of(form: &Form) -> Option<&ConstWord>
    ensures { option_map (λ w. w.now) result ≡ form_bound_word form.now }
{
    match form {
        Form::Fixed(_, size) | Form::Opaque(size) => Some(size),
        Form::UpTo(_, most) | Form::OpaqueUpTo(most) | Form::Text(most) => most.as_ref(),
        Form::Plain(_) | Form::Star(_) => None,
    }
}

fn has_arm(arms: &[ArmItem]) -> bool
    ensures { result ≡ has_arm arms.now }
{
    for arm in arms {
        if !arm.cases.as_slice().is_empty() {
            return true;
        }
    }
    false
}

impl Judge {
    /// What sizes of these types are judged by.
    pub fn of(
        alloc: Global,
        types: &Types<'_>,
        constants: &Constants<'_>,
        order: &Order,
    ) -> Result<Judge, AllocError>
        requires { AreOrdered (type_ways types.now Ways.Held) order.now.nodes.items order.now.ended.items }
        ensures { IfOk result (CanJudge types.now constants.now) }
    {
        Ok(Judge {
            encodings: Encodings::of(alloc, types, constants, order)?,
            tags: Tags::of(alloc, types, constants, order)?,
            without_end: without_end(alloc, types, order)?,
        })
    }

    fn ends(&self, types: &Types<'_>, word: &TypeWord) -> bool
        requires { AreWithoutEnd types.now self.now.without_end.items }
        ensures { IsTrue result ↔ HoldsNoEndless types.now (word_place types.now word.now) }
    {
        match types.place(word) {
            None => true,
            Some(place) => self.is_free(place),
        }
    }

    // The type holds no endless one.
    fn is_free(&self, place: usize) -> bool
        ensures { IsTrue result ↔ slice_get self.now.without_end.items place ≡ Some false }
    {
        self.without_end.get(place).copied() == Some(false)
    }

    // An array of elements that take no bytes.
    fn is_hollow_array(&self, types: &Types<'_>, constants: &Constants<'_>, form: &Form) -> bool
        requires { CanJudge types.now constants.now self.now }
        ensures { IsTrue result ↔ IsHollowArray (record { constants = constants.now; types = types.now }) form.now }
    {
        match form {
            Form::Fixed(word, _) | Form::UpTo(word, _) => {
                self.ends(types, word) && self.encodings.is_hollow(types, word)
            }
            Form::Plain(_) | Form::Star(_) => false,
            Form::Opaque(_) | Form::OpaqueUpTo(_) | Form::Text(_) => false,
        }
    }

    // A fixed size that takes too many bytes.
    fn is_too_large(&self, types: &Types<'_>, constants: &Constants<'_>, form: &Form) -> bool
        requires { CanJudge types.now constants.now self.now }
        ensures { IsTrue result ↔ IsTooLarge (record { constants = constants.now; types = types.now }) form.now }
    {
        match form {
            Form::Fixed(word, _) => {
                self.ends(types, word)
                    && passes_most(self.encodings.form_bytes(types, constants, form))
            }
            Form::Opaque(_) => passes_most(self.encodings.form_bytes(types, constants, form)),
            Form::Plain(_) | Form::Star(_) | Form::UpTo(_, _) => false,
            Form::OpaqueUpTo(_) | Form::Text(_) => false,
        }
    }

    fn is_decl_bad(&self, types: &Types<'_>, constants: &Constants<'_>, decl: &Decl) -> bool
        requires { CanJudge types.now constants.now self.now }
        ensures { IsTrue result ↔ IsSizeWrong (record { constants = constants.now; types = types.now }) decl.now.form }
    {
        let bound_bad = match bound_of(&decl.form) {
            None => false,
            Some(word) => is_out_of_range(constants, word),
        };
        bound_bad
            || self.is_hollow_array(types, constants, &decl.form)
            || self.is_too_large(types, constants, &decl.form)
    }

    // A struct or a union whose smallest encoding is too large.
    fn is_type_too_large(&self, types: &Types<'_>, constants: &Constants<'_>, name: &str) -> bool
        requires { CanJudge types.now constants.now self.now }
        ensures { IsTrue result ↔ IsTypeTooLarge (record { constants = constants.now; types = types.now }) name.now }
    {
        match types.named(name) {
            None => false,
            Some(place) => { self.is_free(place) && passes_most(self.encodings.bytes(place)) }
        }
    }

    fn is_tag(&self, types: &Types<'_>, constants: &Constants<'_>, word: &TypeWord) -> bool
        requires { CanJudge types.now constants.now self.now }
        ensures { result ≡ is_tag (tag_of types.now word.now) }
    {
        match self.tags.tag(types, word) {
            Tag::Int | Tag::Uint | Tag::Bool | Tag::Enum(_) => true,
            Tag::Other => false,
        }
    }

    fn is_case_bad(
        &self,
        types: &Types<'_>,
        constants: &Constants<'_>,
        tag: &TypeWord,
        case: &ConstWord,
    ) -> bool
        requires { CanJudge types.now constants.now self.now }
        ensures { result ≡ is_no_case (record { constants = constants.now; types = types.now }) tag.now
            (value_of constants.now case.now) }
    {
        match constants.value(case) {
            None => false,
            Some(value) => !self.tags.has(self.tags.tag(types, tag), value),
        }
    }

    fn is_bad(
        &self,
        alloc: Global,
        types: &Types<'_>,
        constants: &Constants<'_>,
        mark: &Mark<'_>,
    ) -> Result<bool, AllocError>
        requires { CanJudge types.now constants.now self.now }
        ensures { IfOk result (λ b. IsTrue b ↔ IsWrong (record { constants = constants.now; types = types.now })
            (mark_of mark.now)) }
    {
        match *mark {
            Mark::Name { .. } | Mark::Type(_) | Mark::Number(_) => Ok(false),
            Mark::Case { tag, case, .. } => Ok(self.is_case_bad(types, constants, tag, case)),
            Mark::Constant { name, is_member } => is_constant_bad(
                alloc, constants, name, is_member,
            ),
            Mark::Sized(decl) => Ok(self.is_decl_bad(types, constants, decl)),
            Mark::Enum { members, .. } => Ok(members.is_empty()),
            Mark::Struct(name) => Ok(self.is_type_too_large(types, constants, name)),
            Mark::Union {
                name,
                tag,
                arms,
                has_default,
            } => {
                let has_arm = has_default || has_arm(arms);
                Ok(
                    !has_arm
                        || !self.is_tag(types, constants, tag)
                        || self.is_type_too_large(types, constants, name),
                )
            }
        }
    }

    /// The name of the first size of the text that is out of its range.
    pub fn bad<'a>(
        &self,
        alloc: Global,
        types: &Types<'_>,
        constants: &Constants<'_>,
        marks: &[Mark<'a>],
    ) -> Result<Option<&'a str>, AllocError>
        requires { CanJudge types.now constants.now self.now }
        ensures { IfOk result (λ r. IsFirstNamed
            (IsSizeFault (record { constants = constants.now; types = types.now }) (marks_of marks.now))
            (marks_of marks.now) r) }
    {
        for mark in marks {
            if self.is_bad(alloc, types, constants, mark)? {
                return Ok(Some(mark.name()));
            }
        }
        Ok(None)
    }
}

fn passes_most(bytes: Option<u64>) -> bool
    ensures { (n : Option ℕ) → bytes ≡ option_map capped n → result ≡ passes_most n }
{
    match bytes {
        None => false,
        Some(bytes) => bytes > MOST_BYTES,
    }
}

// A constant in a ring, or a member out of the range of int.
fn is_constant_bad(
    alloc: Global,
    constants: &Constants<'_>,
    name: &str,
    is_member: bool,
) -> Result<bool, AllocError>
    ensures { IfOk result (λ b. IsTrue b ↔ IsWrong (record { constants = constants.now; types = [] })
        (valued name.now is_member)) }
{
    match constants.place(name) {
        None => Ok(false),
        Some(place) => {
            if is_member && is_no_int(constants.at(place)) {
                return Ok(true);
            }
            constants.is_in_ring(alloc, place)
        }
    }
}

// A value out of the range of int.
fn is_no_int(value: Option<i128>) -> bool
    ensures { result ≡ is_no_int value }
{
    match value {
        None => false,
        Some(value) => i32::try_from(value).is_err(),
    }
}
