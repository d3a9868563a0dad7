//! The constants of a tree.

ghost use Rattle.std.specs.Prelude.{◌≡◌, ◌++◌, true, OnOk, IfOk, if◌then◌else◌, nat_eq};
ghost use Rattle.xg_check.specs.Constants.{given_or, first, next, members_from, part_constants, constants_in};
ghost use Rattle.xg_check.specs.Constants.{constant_names};
ghost use Rattle.xg_check.specs.Views.{given_of, constants_of};

use crate::names::Names;
use std::alloc::{AllocError, Global};
use xg_parse::{ConstWord, MembItem, Part, Tree};

/// Where a constant has its value from: a word, or as a member of an enum without one 0 or what
/// follows the member before.
#[derive(Clone, Copy)]
pub enum Given<'a> {
    Word(&'a ConstWord),
    First,
    Next,
}

/// A constant: one of an item `const`, or a member of an enum.
#[derive(Clone, Copy)]
pub struct Constant<'a> {
    pub name: &'a str,
    pub given: Given<'a>,
    pub is_member: bool,
}

fn member_given(member: &MembItem, at: usize) -> Given<'_>
    ensures { given_of result ≡ given_or (if nat_eq at 0 then first else next) member.now.value }
{
    match &member.value {
        Some(word) => Given::Word(word),
        None => { if at == 0 { Given::First } else { Given::Next } }
    }
}

fn add_members<'a>(list: &mut Vec<Constant<'a>>, members: &'a [MembItem]) -> Result<(), AllocError>
    ensures { OnOk result (constants_of list.new.items ≡ constants_of list.old.items
        ++ members_from first members.now) }
{
    for at in 0..members.len() {
        let member = &members[at];
        list.push(Constant {
            name: member.name.as_str(),
            given: member_given(member, at),
            is_member: true,
        })?;
    }
    Ok(())
}

fn add_part<'a>(list: &mut Vec<Constant<'a>>, part: &'a Part) -> Result<(), AllocError>
    ensures { OnOk result (constants_of list.new.items ≡ constants_of list.old.items ++ part_constants part.now) }
{
    match part {
        Part::Const { name, value } => {
            list.push(Constant {
                name: name.as_str(),
                given: Given::Word(value),
                is_member: false,
            })?;
            Ok(())
        }
        Part::Enum { members, .. } => add_members(list, members.as_slice()),
        Part::Package(_) | Part::Prefix(_) | Part::StatIndex(_) | Part::StartingOpcode(_) => Ok(()),
        Part::Typedef(_) | Part::Struct { .. } | Part::Union { .. } | Part::Proc { .. } => Ok(()),
    }
}

/// The constants of the tree, in the order of the text.
pub fn constants(alloc: Global, tree: &Tree) -> Result<Vec<Constant<'_>>, AllocError>
    ensures { IfOk result (λ list. constants_of list.items ≡ constants_in tree.now.items) }
{
    let mut list = Vec::new(alloc);
    for item in tree.items.as_slice() {
        add_part(&mut list, &item.part)?;
    }
    Ok(list)
}

/// Their names.
pub fn names<'a>(alloc: Global, list: &[Constant<'a>]) -> Result<Names<'a>, AllocError>
    ensures { IfOk result (λ names. names ≡ constant_names (constants_of list.now)) }
{
    let mut names = Names::new(alloc);
    for constant in list {
        names = names.with(constant.name)?;
    }
    Ok(names)
}
