//! Which tags of unions types are.

ghost use Rattle.std.specs.Prelude.{◌≡◌, ◌<◌, ◌&&◌, ◌||◌, ℕ, ℤ, List, nat_eq, length, Some, OnOk, IfOk, slice_get};
ghost use Rattle.std.specs.HashSet.{contains};
ghost use Rattle.xg_parse.specs.declared.tree.Part.{Part};
ghost use Rattle.xg_check.specs.Constants.{ConstantDef};
ghost use Rattle.xg_check.specs.Graphs.{AreOrdered};
ghost use Rattle.xg_check.specs.Typed.{type_ways};
ghost use Rattle.xg_check.specs.Tags.{base_tag, word_tag, form_tag, part_tag, has_case, enum_has, members_have};
ghost use Rattle.xg_check.specs.Tags.{is_value};
ghost use Rattle.xg_check.specs.Held.{held_tag, same_pair, AreTags};

use crate::bases::base;
use crate::lists::repeated;
use crate::order::Order;
use crate::types::{Types, Ways};
use crate::values::Constants;
use std::alloc::{AllocError, Global};
use std::collections::HashSet;
use xdr_value::Basic;
use xg_parse::{Decl, Form, MembItem, Part, TypeWord};

/// The tags that a union may have: RFC 4506, section 4.15. An enum goes by its number.
#[derive(Clone, Copy)]
pub enum Tag {
    Int,
    Uint,
    Bool,
    Enum(usize),
    Other,
}

/// The tag that each type is, and the values of the members of each enum.
#[derive(Drop)]
pub struct Tags {
    tags: Vec<Tag>,
    values: HashSet<(usize, i128)>,
}

fn base_tag(base: Option<Basic>) -> Tag
    ensures { result ≡ base_tag base }
{
    match base {
        Some(Basic::Int) => Tag::Int,
        Some(Basic::Uint) => Tag::Uint,
        Some(Basic::Bool) => Tag::Bool,
        _ => Tag::Other,
    }
}

impl Tags {
    /// The tag that the type is.
    pub fn tag(&self, types: &Types<'_>, word: &TypeWord) -> Tag
        ensures { result ≡ word_tag (held_tag self.now.tags.items) types.now word.now }
    {
        match word {
            TypeWord::Base(words) => base_tag(base(words.as_str())),
            TypeWord::Name(name) => match types.named(name.as_str()) {
                None => Tag::Other,
                Some(place) => self.tags.get(place).copied().unwrap_or(Tag::Other),
            },
        }
    }

    fn alias_tag(&self, types: &Types<'_>, decl: &Decl) -> Tag
        ensures { result ≡ form_tag (word_tag (held_tag self.now.tags.items) types.now) decl.now.form }
    {
        match &decl.form {
            Form::Plain(word) => self.tag(types, word),
            Form::Star(_) | Form::Fixed(_, _) | Form::UpTo(_, _) => Tag::Other,
            Form::Opaque(_) | Form::OpaqueUpTo(_) | Form::Text(_) => Tag::Other,
        }
    }

    fn part_tag(&self, types: &Types<'_>, place: usize, part: &Part) -> Tag
        ensures { result ≡ part_tag (word_tag (held_tag self.now.tags.items) types.now) place (Some part.now) }
    {
        match part {
            Part::Typedef(decl) => self.alias_tag(types, decl),
            Part::Enum { .. } => Tag::Enum(place),
            Part::Package(_) | Part::Prefix(_) | Part::StatIndex(_) => Tag::Other,
            Part::StartingOpcode(_) | Part::Const { .. } => Tag::Other,
            Part::Struct { .. } | Part::Union { .. } | Part::Proc { .. } => Tag::Other,
        }
    }

    fn add_values(
        &mut self,
        types: &Types<'_>,
        constants: &Constants<'_>,
        place: usize,
    ) -> Result<(), AllocError>
        requires { place < length types.now }
        ensures tags { self.new.tags ≡ self.old.tags }
        ensures values { OnOk result ((i : ℕ) (z : ℤ) → contains same_pair self.new.values (i, z)
            ≡ (contains same_pair self.old.values (i, z)
            || (nat_eq i place && enum_has constants.now (slice_get types.now place) z))) }
    {
        match types.part(place) {
            Part::Enum { members, .. } => self.add_members(constants, place, members.as_slice()),
            Part::Package(_) | Part::Prefix(_) | Part::StatIndex(_) => Ok(()),
            Part::StartingOpcode(_) | Part::Const { .. } | Part::Typedef(_) => Ok(()),
            Part::Struct { .. } | Part::Union { .. } | Part::Proc { .. } => Ok(()),
        }
    }

    fn add_members(
        &mut self,
        constants: &Constants<'_>,
        place: usize,
        members: &[MembItem],
    ) -> Result<(), AllocError>
        ensures tags { self.new.tags ≡ self.old.tags }
        ensures values { OnOk result ((i : ℕ) (z : ℤ) → contains same_pair self.new.values (i, z)
            ≡ (contains same_pair self.old.values (i, z)
            || (nat_eq i place && members_have constants.now members.now z))) }
    {
        for member in members {
            self.add_value(place, constants.named(member.name.as_str()))?;
        }
        Ok(())
    }

    fn add_value(&mut self, place: usize, value: Option<i128>) -> Result<(), AllocError>
        ensures tags { self.new.tags ≡ self.old.tags }
        ensures values { OnOk result ((i : ℕ) (z : ℤ) → contains same_pair self.new.values (i, z)
            ≡ (contains same_pair self.old.values (i, z) || (nat_eq i place && is_value value z))) }
    {
        match value {
            None => Ok(()),
            Some(value) => {
                self.values.insert((place, value))?;
                Ok(())
            }
        }
    }

    /// Whether the value is one of the tag's type.
    pub fn has(&self, tag: Tag, value: i128) -> bool
        ensures { (ts : List Part) (cs : List ConstantDef) → AreTags ts cs self.now.tags.items self.now.values
            → result ≡ has_case ts cs tag value }
    {
        match tag {
            Tag::Int => i32::try_from(value).is_ok(),
            Tag::Uint => u32::try_from(value).is_ok(),
            Tag::Bool => value == 0 || value == 1,
            Tag::Enum(place) => self.values.contains(&(place, value)),
            Tag::Other => false,
        }
    }

    /// The tags of types, each of which stands in the order behind those that it holds.
    pub fn of(
        alloc: Global,
        types: &Types<'_>,
        constants: &Constants<'_>,
        order: &Order,
    ) -> Result<Tags, AllocError>
        requires { AreOrdered (type_ways types.now Ways.Held) order.now.nodes.items order.now.ended.items }
        ensures { IfOk result (λ t. AreTags types.now constants.now t.tags.items t.values) }
    {
        let mut found = Tags {
            tags: repeated(alloc, Tag::Other, types.len())?,
            values: HashSet::new(alloc),
        };
        for place in &order.nodes {
            let tag = found.part_tag(types, *place, types.part(*place));
            found.tags[*place] = tag;
        }
        for place in 0..types.len() {
            found.add_values(types, constants, place)?;
        }
        Ok(found)
    }
}
