//! The types of a tree, and which of them each holds.

ghost use Rattle.std.specs.Prelude.{◌≡◌, ◌++◌, ◌<◌, length, map, option_map, OnOk, IfOk, slice_get, Some};
ghost use Rattle.std.specs.Prelude.{option_and_then};
ghost use Rattle.xg_check.specs.Places.{place_of};
ghost use Rattle.xg_check.specs.Constants.{one_or_none};
ghost use Rattle.xg_check.specs.Typed.{type_name, types_in, type_names, word_place, form_word, type_ways};
ghost use Rattle.xg_check.specs.Typed.{decls_places, held_places, arms_places, default_places, part_places};

use crate::graph::Graph;
use crate::names::Names;
use std::alloc::{AllocError, Global};
use std::marker::Model;
use xg_parse::{ArmItem, Decl, Form, Part, Tree, TypeWord};

/// The types of a tree, in the order of the text.
#[derive(Drop)]
pub struct Types<'a> {
    parts: Vec<&'a Part>,
    names: Names<'a>,
}

impl<'a> Model for Types<'a> {
    ghost use Rattle.std.specs.Prelude.{◌≡◌, List, map};
    ghost use Rattle.xg_parse.specs.declared.tree.Part.{Part};
    ghost use Rattle.xg_check.specs.Typed.{type_names};

    ghost Value = { List Part };

    ghost view = { λ t. map (λ p. p.now) t.parts.items };

    ghost invariant = { λ t. t.names ≡ type_names (map (λ p. p.now) t.parts.items) };
}

/// The name of a type that is defined there.
pub fn type_name(part: &Part) -> Option<&str>
    ensures { option_map (λ s. s.now) result ≡ type_name part.now }
{
    match part {
        Part::Typedef(decl) => Some(decl.name.as_str()),
        Part::Enum { name, .. } => Some(name.as_str()),
        Part::Struct { name, .. } => Some(name.as_str()),
        Part::Union { name, .. } => Some(name.as_str()),
        Part::Package(_) | Part::Prefix(_) | Part::StatIndex(_) | Part::StartingOpcode(_) => None,
        Part::Const { .. } | Part::Proc { .. } => None,
    }
}

impl<'a> Types<'a> {
    /// The types of the tree.
    pub fn of(alloc: Global, tree: &'a Tree) -> Result<Types<'a>, AllocError>
        ensures { IfOk result (λ t. t ≡ types_in tree.now.items) }
    {
        let mut parts = Vec::new(alloc);
        let mut names = Names::new(alloc);
        for item in tree.items.as_slice() {
            if let Some(name) = type_name(&item.part) {
                names = names.with(name)?;
                parts.push(&item.part)?;
            }
        }
        Ok(Types { parts, names })
    }

    /// How many they are.
    pub fn len(&self) -> usize
        ensures { result ≡ length self.now }
    {
        self.parts.len()
    }

    /// The part of the type of this number.
    pub fn part(&self, place: usize) -> &'a Part
        requires { place < length self.now }
        ensures { slice_get self.now place ≡ Some result.now }
    {
        self.parts[place]
    }

    /// The type of this name.
    pub fn named(&self, name: &str) -> Option<usize>
        ensures { result ≡ place_of name.now (type_names self.now) }
    {
        self.names.place(name)
    }

    /// The type that the word names.
    pub fn place(&self, word: &TypeWord) -> Option<usize>
        ensures { result ≡ word_place self.now word.now }
    {
        match word {
            TypeWord::Base(_) => None,
            TypeWord::Name(name) => self.names.place(name.as_str()),
        }
    }

    /// To which types each leads: to those that it holds, or that it names in any way.
    pub fn ways(&self, alloc: Global, ways: Ways) -> Result<Graph, AllocError>
        ensures { IfOk result (λ g. g ≡ type_ways self.now ways) }
    {
        let mut next = Vec::new(alloc);
        for part in &self.parts {
            let mut one = Vec::new(alloc);
            add_part(&mut one, self, ways, *part)?;
            next.push(one)?;
        }
        Ok(Graph::of(next))
    }
}

/// Which ways are taken: to what is held other than through optional data or a variable array, or
/// all.
#[derive(Clone, Copy)]
pub enum Ways {
    Held,
    All,
}

/// The type in a declaration that such a way leads to.
pub fn word_of(form: &Form, ways: Ways) -> Option<&TypeWord>
    ensures { option_map (λ w. w.now) result ≡ form_word ways form.now }
{
    match form {
        Form::Plain(word) | Form::Fixed(word, _) => Some(word),
        Form::Star(word) | Form::UpTo(word, _) => match ways {
            Ways::Held => None,
            Ways::All => Some(word),
        },
        Form::Opaque(_) | Form::OpaqueUpTo(_) | Form::Text(_) => None,
    }
}

fn add_word(
    next: &mut Vec<usize>,
    types: &Types<'_>,
    word: Option<&TypeWord>,
) -> Result<(), AllocError>
    ensures { OnOk result (next.new.items ≡ next.old.items
        ++ one_or_none (option_and_then (word_place types.now) (option_map (λ w. w.now) word.entry))) }
{
    if let Some(word) = word {
        if let Some(place) = types.place(word) {
            next.push(place)?;
        }
    }
    Ok(())
}

fn add_fields(
    next: &mut Vec<usize>,
    types: &Types<'_>,
    ways: Ways,
    fields: &[Decl],
) -> Result<(), AllocError>
    ensures { OnOk result (next.new.items ≡ next.old.items ++ decls_places types.now ways fields.now) }
{
    for field in fields {
        add_word(next, types, word_of(&field.form, ways))?;
    }
    Ok(())
}

fn add_arm(
    next: &mut Vec<usize>,
    types: &Types<'_>,
    ways: Ways,
    arm: &ArmItem,
) -> Result<(), AllocError>
    ensures { OnOk result (next.new.items ≡ next.old.items ++ held_places types.now ways arm.now.decl) }
{
    match &arm.decl {
        None => Ok(()),
        Some(decl) => add_word(next, types, word_of(&decl.form, ways)),
    }
}

fn add_arms(
    next: &mut Vec<usize>,
    types: &Types<'_>,
    ways: Ways,
    arms: &[ArmItem],
) -> Result<(), AllocError>
    ensures { OnOk result (next.new.items ≡ next.old.items ++ arms_places types.now ways arms.now) }
{
    for arm in arms {
        add_arm(next, types, ways, arm)?;
    }
    Ok(())
}

fn add_part(
    next: &mut Vec<usize>,
    types: &Types<'_>,
    ways: Ways,
    part: &Part,
) -> Result<(), AllocError>
    ensures { OnOk result (next.new.items ≡ next.old.items ++ part_places types.now ways part.now) }
{
    match part {
        Part::Typedef(decl) => add_word(next, types, word_of(&decl.form, ways)),
        Part::Struct { fields, .. } => add_fields(next, types, ways, fields.as_slice()),
        Part::Union {
            tag,
            arms,
            otherwise,
            ..
        } => {
            add_word(next, types, Some(tag))?;
            add_arms(next, types, ways, arms.as_slice())?;
            match otherwise {
                None => Ok(()),
                Some(arm) => add_arm(next, types, ways, arm),
            }
        }
        Part::Package(_) | Part::Prefix(_) | Part::StatIndex(_) | Part::StartingOpcode(_) => Ok(()),
        Part::Const { .. } | Part::Enum { .. } | Part::Proc { .. } => Ok(()),
    }
}
