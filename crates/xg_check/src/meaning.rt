//! The types that a tree means.

ghost use Rattle.std.specs.Prelude.{◌≡◌, ◌++◌, map, flat_map, IfOk, OnOk, option_map, string_bytes};
ghost use Rattle.xdr_value.specs.Data.{basic};
ghost use Rattle.xdr_value.specs.View.{kind_of, part_of, member_of, choice_of, def_of, types_of};
ghost use Rattle.xg_check.specs.Meant.{word_kind, size_number, bound_number, form_kind, field_meant, value_or_zero};
ghost use Rattle.xg_check.specs.Meant.{member_meant};
ghost use Rattle.xg_check.specs.Meant.{held_meant, arm_meant, default_meant, part_type, types_meant};
ghost use Rattle.xg_check.specs.Counts.{package_or, prefix_or};
ghost use Rattle.xg_check.specs.Meant.{package_in, prefix_in};
ghost use Rattle.xg_check.specs.Views.{optional_type};

use crate::bases::base;
use crate::encoding::size;
use crate::types::Types;
use crate::values::Constants;
use std::alloc::{AllocError, Global};
use xdr_value::{Arm, Basic, Def, Field, Member, Shape, Ty};
use xg_lex::Text;
use xg_parse::{ArmItem, ConstWord, Decl, Form, MembItem, Part, Tree, TypeWord};

fn basic_ty(of: Basic) -> Ty
    ensures { kind_of result ≡ basic of }
{
    match of {
        Basic::Int => Ty::Int,
        Basic::Uint => Ty::Uint,
        Basic::Hyper => Ty::Hyper,
        Basic::Uhyper => Ty::Uhyper,
        Basic::Short => Ty::Short,
        Basic::Ushort => Ty::Ushort,
        Basic::Char => Ty::Char,
        Basic::Uchar => Ty::Uchar,
        Basic::Bool => Ty::Bool,
        Basic::Void => Ty::Void,
        Basic::Opaque(size) => Ty::Opaque(size),
        Basic::OpaqueUpTo(most) => Ty::OpaqueUpTo(most),
        Basic::Text(most) => Ty::Text(most),
    }
}

/// The type of the word. A name is found at once at its place among the types.
pub fn word_ty(alloc: Global, found: &Types<'_>, word: &TypeWord) -> Result<Ty, AllocError>
    ensures { IfOk result (λ t. kind_of t ≡ word_kind word.now) }
{
    match word {
        TypeWord::Base(words) => match base(words.as_str()) {
            Some(basic) => Ok(basic_ty(basic)),
            None => Ok(Ty::Void),
        },
        TypeWord::Name(name) => {
            let place = found.named(name.as_str()).unwrap_or(0);
            Ty::placed(alloc, name.as_str(), place)
        }
    }
}

// The number of a size, or 0 where it has none.
fn number(constants: &Constants<'_>, word: &ConstWord) -> u32
    ensures { result ≡ size_number constants.now word.now }
{
    size(constants, word).unwrap_or(0)
}

// The number of a bound, which is the largest where none is written.
fn most(constants: &Constants<'_>, word: &Option<ConstWord>) -> u32
    ensures { result ≡ bound_number constants.now word.now }
{
    match word {
        None => u32::MAX,
        Some(word) => number(constants, word),
    }
}

/// The type of what is declared so.
pub fn form_ty(
    alloc: Global,
    found: &Types<'_>,
    constants: &Constants<'_>,
    form: &Form,
) -> Result<Ty, AllocError>
    ensures { IfOk result (λ t. kind_of t ≡ form_kind constants.now form.now) }
{
    match form {
        Form::Plain(word) => word_ty(alloc, found, word),
        Form::Star(word) => Ty::optional(alloc, word_ty(alloc, found, word)?),
        Form::Fixed(word, size) => {
            Ty::array(alloc, word_ty(alloc, found, word)?, number(constants, size))
        }
        Form::UpTo(word, bound) => Ty::up_to(
            alloc,
            word_ty(alloc, found, word)?,
            most(constants, bound),
        ),
        Form::Opaque(size) => Ok(Ty::Opaque(number(constants, size))),
        Form::OpaqueUpTo(bound) => Ok(Ty::OpaqueUpTo(most(constants, bound))),
        Form::Text(bound) => Ok(Ty::Text(most(constants, bound))),
    }
}

fn field(
    alloc: Global,
    found: &Types<'_>,
    constants: &Constants<'_>,
    decl: &Decl,
) -> Result<Field, AllocError>
    ensures { IfOk result (λ f. part_of f ≡ field_meant constants.now decl.now) }
{
    let ty = form_ty(alloc, found, constants, &decl.form)?;
    Field::make(alloc, decl.name.as_str(), ty)
}

fn fields(
    alloc: Global,
    found: &Types<'_>,
    constants: &Constants<'_>,
    decls: &[Decl],
) -> Result<Vec<Field>, AllocError>
    ensures { IfOk result (λ fs. map part_of fs.items ≡ map (field_meant constants.now) decls.now) }
{
    let mut fields = Vec::new(alloc);
    for decl in decls {
        fields.push(field(alloc, found, constants, decl)?)?;
    }
    Ok(fields)
}

// The number of a value, or 0 where it has none of 64 bits.
fn value_number(value: Option<i128>) -> i64
    ensures { result ≡ value_or_zero value }
{
    match value {
        None => 0,
        Some(value) => i64::try_from(value).unwrap_or(0),
    }
}

fn members(
    alloc: Global,
    constants: &Constants<'_>,
    items: &[MembItem],
) -> Result<Vec<Member>, AllocError>
    ensures { IfOk result (λ ms. map member_of ms.items ≡ map (member_meant constants.now) items.now) }
{
    let mut members = Vec::new(alloc);
    for item in items {
        let name = item.name.as_str();
        let number = value_number(constants.named(name));
        members.push(Member::make(alloc, name, number)?)?;
    }
    Ok(members)
}

fn held(
    alloc: Global,
    found: &Types<'_>,
    constants: &Constants<'_>,
    decl: &Option<Decl>,
) -> Result<Option<Field>, AllocError>
    ensures { IfOk result (λ f. option_map part_of f ≡ held_meant constants.now decl.now) }
{
    match decl {
        None => Ok(None),
        Some(decl) => Ok(Some(field(alloc, found, constants, decl)?)),
    }
}

// One arm for each case.
fn add_cases(
    alloc: Global,
    found: &Types<'_>,
    constants: &Constants<'_>,
    arms: &mut Vec<Arm>,
    item: &ArmItem,
) -> Result<(), AllocError>
    ensures { OnOk result (map choice_of arms.new.items ≡ map choice_of arms.old.items
        ++ arm_meant constants.now item.now) }
{
    for case in item.cases.as_slice() {
        let case = Some(value_number(constants.value(case)));
        let field = held(alloc, found, constants, &item.decl)?;
        arms.push(Arm { case, field })?;
    }
    Ok(())
}

fn arms(
    alloc: Global,
    found: &Types<'_>,
    constants: &Constants<'_>,
    items: &[ArmItem],
    otherwise: &Option<ArmItem>,
) -> Result<Vec<Arm>, AllocError>
    ensures { IfOk result (λ arms. map choice_of arms.items
        ≡ flat_map (arm_meant constants.now) items.now ++ default_meant constants.now otherwise.now) }
{
    let mut arms = Vec::new(alloc);
    for item in items {
        add_cases(alloc, found, constants, &mut arms, item)?;
    }
    if let Some(item) = otherwise {
        let field = held(alloc, found, constants, &item.decl)?;
        arms.push(Arm { case: None, field })?;
    }
    Ok(arms)
}

fn def(
    alloc: Global,
    found: &Types<'_>,
    constants: &Constants<'_>,
    part: &Part,
) -> Result<Option<Def>, AllocError>
    ensures { IfOk result (λ o. optional_type o ≡ part_type constants.now part.now) }
{
    match part {
        Part::Typedef(decl) => {
            let ty = form_ty(alloc, found, constants, &decl.form)?;
            Ok(Some(Def::make(alloc, decl.name.as_str(), Shape::Alias(ty))?))
        }
        Part::Enum {
            name,
            members: items,
        } => {
            let members = members(alloc, constants, items.as_slice())?;
            Ok(Some(Def::make(alloc, name.as_str(), Shape::Enum(members))?))
        }
        Part::Struct {
            name,
            fields: decls,
        } => {
            let fields = fields(alloc, found, constants, decls.as_slice())?;
            Ok(Some(Def::make(alloc, name.as_str(), Shape::Struct(fields))?))
        }
        Part::Union {
            name,
            tag,
            arms: items,
            otherwise,
            ..
        } => {
            let tag = word_ty(alloc, found, tag)?;
            let arms = arms(alloc, found, constants, items.as_slice(), otherwise)?;
            Ok(Some(Def::make(alloc, name.as_str(), Shape::Union { tag, arms })?))
        }
        Part::Package(_) | Part::Prefix(_) | Part::StatIndex(_) => Ok(None),
        Part::StartingOpcode(_) | Part::Const { .. } | Part::Proc { .. } => Ok(None),
    }
}

/// The types of the tree, in the order of the text.
pub fn types(
    alloc: Global,
    found: &Types<'_>,
    constants: &Constants<'_>,
    tree: &Tree,
) -> Result<Vec<Def>, AllocError>
    ensures { IfOk result (λ types. types_of types.items ≡ types_meant constants.now tree.now.items) }
{
    let mut types = Vec::new(alloc);
    for item in tree.items.as_slice() {
        if let Some(def) = def(alloc, found, constants, &item.part)? {
            types.push(def)?;
        }
    }
    Ok(types)
}

fn copied(alloc: Global, text: Option<&Text>) -> Result<Option<String>, AllocError>
    ensures { IfOk result (λ o. option_map string_bytes o ≡ option_map (λ t. t.now) text.entry) }
{
    match text {
        None => Ok(None),
        Some(text) => Ok(Some(String::from_str(alloc, text.as_str())?)),
    }
}

// The package that the part names, or else the one before.
fn package_or<'a>(part: &'a Part, before: Option<&'a Text>) -> Option<&'a Text>
    ensures { option_map (λ t. t.now) result ≡ package_or part.now (option_map (λ t. t.now) before.entry) }
{
    match part {
        Part::Package(name) => Some(name),
        Part::Prefix(_) | Part::StatIndex(_) | Part::StartingOpcode(_) | Part::Const { .. } =>
            before,
        Part::Typedef(_) | Part::Enum { .. } | Part::Struct { .. } => before,
        Part::Union { .. } | Part::Proc { .. } => before,
    }
}

// The prefix that the part names, or else the one before.
fn prefix_or<'a>(part: &'a Part, before: Option<&'a Text>) -> Option<&'a Text>
    ensures { option_map (λ t. t.now) result ≡ prefix_or part.now (option_map (λ t. t.now) before.entry) }
{
    match part {
        Part::Prefix(name) => Some(name),
        Part::Package(_) | Part::StatIndex(_) | Part::StartingOpcode(_) | Part::Const { .. } =>
            before,
        Part::Typedef(_) | Part::Enum { .. } | Part::Struct { .. } => before,
        Part::Union { .. } | Part::Proc { .. } => before,
    }
}

/// The last package that the tree names.
pub fn package(alloc: Global, tree: &Tree) -> Result<Option<String>, AllocError>
    ensures { IfOk result (λ o. option_map string_bytes o ≡ package_in tree.now.items) }
{
    let mut last = None;
    for item in tree.items.as_slice() {
        last = package_or(&item.part, last);
    }
    copied(alloc, last)
}

/// The last prefix that the tree names.
pub fn prefix(alloc: Global, tree: &Tree) -> Result<Option<String>, AllocError>
    ensures { IfOk result (λ o. option_map string_bytes o ≡ prefix_in tree.now.items) }
{
    let mut last = None;
    for item in tree.items.as_slice() {
        last = prefix_or(&item.part, last);
    }
    copied(alloc, last)
}
