//! What stands in a text and is judged, in the order of the text.

ghost use Rattle.std.specs.Prelude.{◌≡◌, ◌++◌, ◌∷◌, [], OnOk, IfOk, flat_map};
ghost use Rattle.xg_check.specs.Marks.{mark_name, optional_constant, form_type, form_bound, decl_marks, member_marks};
ghost use Rattle.xg_check.specs.Marks.{declares, enum_type, struct_type, union_type, uses_type, field_marks, arg_marks};
ghost use Rattle.xg_check.specs.Marks.{held_marks, arm_marks, part_marks, marks_in};
ghost use Rattle.xg_check.specs.Views.{mark_of, marks_of};

use std::alloc::{AllocError, Global};
use xg_parse::{ArgItem, ArmItem, ConstWord, Decl, Form, MembItem, Part, Tree, TypeWord};

/// Where a name may stand once: among the types, the constants or the procedures, or in the list
/// of the item of this number.
#[derive(Clone, Copy)]
pub enum Space {
    Type,
    Constant,
    Procedure,
    List(usize),
}

/// What is judged at a place of the text.
#[derive(Clone, Copy)]
pub enum Mark<'a> {
    /// A name is declared.
    Name {
        space: Space,
        name: &'a str,
    },
    /// A case of the union of this name, in the item of this number.
    Case {
        item: usize,
        name: &'a str,
        tag: &'a TypeWord,
        case: &'a ConstWord,
    },
    /// A type is used.
    Type(&'a TypeWord),
    /// A constant is used.
    Number(&'a ConstWord),
    /// A constant of this name is defined.
    Constant {
        name: &'a str,
        is_member: bool,
    },
    /// A field, an argument or a typedef with its size.
    Sized(&'a Decl),
    /// An enum.
    Enum {
        name: &'a str,
        members: &'a [MembItem],
    },
    /// A struct.
    Struct(&'a str),
    /// A union.
    Union {
        name: &'a str,
        tag: &'a TypeWord,
        arms: &'a [ArmItem],
        has_default: bool,
    },
}

impl<'a> Mark<'a> {
    /// The name by which a fault there goes.
    pub fn name(&self) -> &'a str
        ensures { result.now ≡ mark_name (mark_of self.now) }
    {
        match *self {
            Mark::Name { name, .. } => name,
            Mark::Case { name, .. } => name,
            Mark::Type(TypeWord::Base(word)) => word.as_str(),
            Mark::Type(TypeWord::Name(word)) => word.as_str(),
            Mark::Number(ConstWord::Name(word)) => word.as_str(),
            Mark::Number(ConstWord::Literal { .. }) => "",
            Mark::Constant { name, .. } => name,
            Mark::Sized(decl) => decl.name.as_str(),
            Mark::Enum { name, .. } => name,
            Mark::Struct(name) => name,
            Mark::Union { name, .. } => name,
        }
    }
}

fn add_size<'a>(marks: &mut Vec<Mark<'a>>, size: &'a Option<ConstWord>) -> Result<(), AllocError>
    ensures { OnOk result (marks_of marks.new.items ≡ marks_of marks.old.items ++ optional_constant size.now) }
{
    if let Some(word) = size {
        marks.push(Mark::Number(word))?;
    }
    Ok(())
}

// What a declaration uses before its name: a type.
fn add_type<'a>(marks: &mut Vec<Mark<'a>>, form: &'a Form) -> Result<(), AllocError>
    ensures { OnOk result (marks_of marks.new.items ≡ marks_of marks.old.items ++ form_type form.now) }
{
    match form {
        Form::Plain(word) | Form::Star(word) | Form::Fixed(word, _) | Form::UpTo(word, _) => {
            marks.push(Mark::Type(word))?;
            Ok(())
        }
        Form::Opaque(_) | Form::OpaqueUpTo(_) | Form::Text(_) => Ok(()),
    }
}

// What a declaration uses behind its name: a constant.
fn add_bound<'a>(marks: &mut Vec<Mark<'a>>, form: &'a Form) -> Result<(), AllocError>
    ensures { OnOk result (marks_of marks.new.items ≡ marks_of marks.old.items ++ form_bound form.now) }
{
    match form {
        Form::Plain(_) | Form::Star(_) => Ok(()),
        Form::Fixed(_, size) | Form::Opaque(size) => {
            marks.push(Mark::Number(size))?;
            Ok(())
        }
        Form::UpTo(_, most) | Form::OpaqueUpTo(most) | Form::Text(most) => add_size(marks, most),
    }
}

// A declaration, whose name may stand once in the space, if there is one.
fn add_decl<'a>(
    marks: &mut Vec<Mark<'a>>,
    space: Option<Space>,
    decl: &'a Decl,
) -> Result<(), AllocError>
    ensures { OnOk result (marks_of marks.new.items ≡ marks_of marks.old.items ++ decl_marks space decl.now) }
{
    add_type(marks, &decl.form)?;
    if let Some(space) = space {
        let name = decl.name.as_str();
        marks.push(Mark::Name { space, name })?;
    }
    marks.push(Mark::Sized(decl))?;
    add_bound(marks, &decl.form)
}

fn add_member<'a>(marks: &mut Vec<Mark<'a>>, member: &'a MembItem) -> Result<(), AllocError>
    ensures { OnOk result (marks_of marks.new.items ≡ marks_of marks.old.items ++ member_marks member.now) }
{
    let name = member.name.as_str();
    marks.push(Mark::Name {
        space: Space::Constant,
        name,
    })?;
    marks.push(Mark::Constant {
        name,
        is_member: true,
    })?;
    add_size(marks, &member.value)
}

fn add_enum<'a>(
    marks: &mut Vec<Mark<'a>>,
    name: &'a str,
    members: &'a [MembItem],
) -> Result<(), AllocError>
    ensures { OnOk result (marks_of marks.new.items ≡ marks_of marks.old.items
        ++ ((declares Space.Type name.now ∷ enum_type name.now members.now ∷ [])
        ++ flat_map member_marks members.now)) }
{
    marks.push(Mark::Name {
        space: Space::Type,
        name,
    })?;
    marks.push(Mark::Enum { name, members })?;
    for member in members {
        add_member(marks, member)?;
    }
    Ok(())
}

fn add_struct<'a>(
    marks: &mut Vec<Mark<'a>>,
    item: usize,
    name: &'a str,
    fields: &'a [Decl],
) -> Result<(), AllocError>
    ensures { OnOk result (marks_of marks.new.items ≡ marks_of marks.old.items
        ++ ((declares Space.Type name.now ∷ struct_type name.now ∷ []) ++ flat_map (field_marks item) fields.now)) }
{
    marks.push(Mark::Name {
        space: Space::Type,
        name,
    })?;
    marks.push(Mark::Struct(name))?;
    for field in fields {
        add_decl(marks, Some(Space::List(item)), field)?;
    }
    Ok(())
}

// An arm of the union of this name and tag, in the item of this number.
fn add_arm<'a>(
    marks: &mut Vec<Mark<'a>>,
    item: usize,
    name: &'a str,
    tag: &'a TypeWord,
    arm: &'a ArmItem,
) -> Result<(), AllocError>
    ensures { OnOk result (marks_of marks.new.items ≡ marks_of marks.old.items
        ++ arm_marks item name.now tag.now arm.now) }
{
    for case in arm.cases.as_slice() {
        marks.push(Mark::Case {
            item,
            name,
            tag,
            case,
        })?;
        marks.push(Mark::Number(case))?;
    }
    add_held(marks, arm)
}

// What an arm holds.
fn add_held<'a>(marks: &mut Vec<Mark<'a>>, arm: &'a ArmItem) -> Result<(), AllocError>
    ensures { OnOk result (marks_of marks.new.items ≡ marks_of marks.old.items ++ held_marks arm.now.decl) }
{
    match &arm.decl {
        None => Ok(()),
        Some(decl) => add_decl(marks, None, decl),
    }
}

fn add_arms<'a>(
    marks: &mut Vec<Mark<'a>>,
    item: usize,
    name: &'a str,
    tag: &'a TypeWord,
    arms: &'a [ArmItem],
) -> Result<(), AllocError>
    ensures { OnOk result (marks_of marks.new.items ≡ marks_of marks.old.items
        ++ flat_map (arm_marks item name.now tag.now) arms.now) }
{
    for arm in arms {
        add_arm(marks, item, name, tag, arm)?;
    }
    Ok(())
}

fn add_union<'a>(
    marks: &mut Vec<Mark<'a>>,
    name: &'a str,
    tag: &'a TypeWord,
    arms: &'a [ArmItem],
    has_default: bool,
) -> Result<(), AllocError>
    ensures { OnOk result (marks_of marks.new.items ≡ marks_of marks.old.items
        ++ (declares Space.Type name.now ∷ union_type name.now tag.now arms.now has_default ∷ uses_type tag.now ∷ [])) }
{
    marks.push(Mark::Name {
        space: Space::Type,
        name,
    })?;
    marks.push(Mark::Union {
        name,
        tag,
        arms,
        has_default,
    })?;
    marks.push(Mark::Type(tag))?;
    Ok(())
}

fn add_args<'a>(
    marks: &mut Vec<Mark<'a>>,
    item: usize,
    args: &'a [ArgItem],
) -> Result<(), AllocError>
    ensures { OnOk result (marks_of marks.new.items ≡ marks_of marks.old.items ++ flat_map (arg_marks item) args.now) }
{
    for arg in args {
        add_decl(marks, Some(Space::List(item)), &arg.decl)?;
    }
    Ok(())
}

fn add_part<'a>(marks: &mut Vec<Mark<'a>>, item: usize, part: &'a Part) -> Result<(), AllocError>
    ensures { OnOk result (marks_of marks.new.items ≡ marks_of marks.old.items ++ part_marks item part.now) }
{
    match part {
        Part::Package(_) | Part::Prefix(_) => Ok(()),
        Part::StatIndex(word) | Part::StartingOpcode(word) => {
            marks.push(Mark::Number(word))?;
            Ok(())
        }
        Part::Const { name, value } => {
            let name = name.as_str();
            marks.push(Mark::Name {
                space: Space::Constant,
                name,
            })?;
            marks.push(Mark::Constant {
                name,
                is_member: false,
            })?;
            marks.push(Mark::Number(value))?;
            Ok(())
        }
        Part::Typedef(decl) => add_decl(marks, Some(Space::Type), decl),
        Part::Enum { name, members } => add_enum(marks, name.as_str(), members.as_slice()),
        Part::Struct { name, fields } => add_struct(marks, item, name.as_str(), fields.as_slice()),
        Part::Union {
            name,
            tag,
            arms,
            otherwise,
            ..
        } => {
            let name = name.as_str();
            let arms = arms.as_slice();
            add_union(marks, name, tag, arms, otherwise.is_some())?;
            add_arms(marks, item, name, tag, arms)?;
            match otherwise {
                None => Ok(()),
                Some(arm) => add_held(marks, arm),
            }
        }
        Part::Proc {
            name,
            args,
            opcode,
            ..
        } => {
            marks.push(Mark::Name {
                space: Space::Procedure,
                name: name.as_str(),
            })?;
            add_args(marks, item, args.as_slice())?;
            add_size(marks, opcode)
        }
    }
}

/// What is judged in the tree, in the order of the text.
pub fn marks(alloc: Global, tree: &Tree) -> Result<Vec<Mark<'_>>, AllocError>
    ensures { IfOk result (λ marks. marks_of marks.items ≡ marks_in tree.now.items) }
{
    let mut marks = Vec::new(alloc);
    let items = tree.items.as_slice();
    for item in 0..items.len() {
        add_part(&mut marks, item, &items[item].part)?;
    }
    Ok(marks)
}
