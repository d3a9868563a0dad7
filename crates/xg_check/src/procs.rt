//! The procedures that a tree means.

ghost use Rattle.std.specs.Prelude.{◌≡◌, ◌++◌, ℕ, ℤ, List, Option, map, option_map, slice_get, IfOk, OnOk};
ghost use Rattle.xdr_value.specs.View.{kind_of, param_of, procs_of};
ghost use Rattle.xdr_value.specs.declared.def.Mode.TheVariants as modes;
ghost use Rattle.xg_check.specs.Constants.{ConstantDef};
ghost use Rattle.xg_check.specs.Opcodes.{opcodes_in};
ghost use Rattle.xg_check.specs.Meant.{has_kind, mode_meant, mode_behind, arg_kind, args_meant, procs_meant};
ghost use Rattle.xg_check.specs.Counting.{part_proc};
ghost use Rattle.xg_check.specs.Counts.{part_proc_name};
ghost use Rattle.xg_check.specs.Views.{optional_proc};

use crate::meaning::{form_ty, word_ty};
use crate::opcodes::number;
use crate::types::Types;
use crate::values::{Constants, value_in};
use std::alloc::{AllocError, Global};
use xdr_value::{Arg, Mode, Proc, Ty};
use xg_parse::{ArgItem, Form, KindWord, ModeWord, Part, Tree};

fn mode(word: ModeWord) -> Mode
    ensures { result ≡ mode_meant word }
{
    match word {
        ModeWord::In => Mode::In,
        ModeWord::Out => Mode::Out,
        ModeWord::InOut => Mode::InOut,
    }
}

// The type of an argument: a star there has no bytes.
fn arg_ty(
    alloc: Global,
    found: &Types<'_>,
    constants: &Constants<'_>,
    form: &Form,
) -> Result<Ty, AllocError>
    ensures { IfOk result (λ t. kind_of t ≡ arg_kind constants.now form.now) }
{
    match form {
        Form::Star(word) => word_ty(alloc, found, word),
        Form::Plain(_) | Form::Fixed(_, _) | Form::UpTo(_, _) => form_ty(
            alloc, found, constants, form,
        ),
        Form::Opaque(_) | Form::OpaqueUpTo(_) | Form::Text(_) => form_ty(
            alloc, found, constants, form,
        ),
    }
}

// The direction of an argument: its own, or that of the argument before.
fn mode_after(before: Mode, item: &ArgItem) -> Mode
    ensures { result ≡ mode_behind before item.now.mode }
{
    match item.mode {
        Some(word) => mode(word),
        None => before,
    }
}

fn args(
    alloc: Global,
    found: &Types<'_>,
    constants: &Constants<'_>,
    items: &[ArgItem],
) -> Result<Vec<Arg>, AllocError>
    ensures { IfOk result (λ args. map param_of args.items ≡ args_meant constants.now modes.In items.now) }
{
    let mut args = Vec::new(alloc);
    let mut mode = Mode::In;
    for item in items {
        mode = mode_after(mode, item);
        let ty = arg_ty(alloc, found, constants, &item.decl.form)?;
        args.push(Arg::make(alloc, mode, item.decl.name.as_str(), ty)?)?;
    }
    Ok(args)
}

// The word behind the arguments is this one.
fn is_kind(kind: &Option<KindWord>, word: KindWord) -> bool
    ensures { result ≡ has_kind word kind.now }
{
    match kind {
        None => false,
        Some(other) => *other == word,
    }
}

fn proc(
    alloc: Global,
    found: &Types<'_>,
    constants: &Constants<'_>,
    opcode: Option<i128>,
    part: &Part,
) -> Result<Option<Proc>, AllocError>
    ensures { IfOk result (λ o. optional_proc o ≡ part_proc constants.now opcode part.now) }
{
    match part {
        Part::Proc {
            name,
            args: items,
            kind,
            ..
        } => Ok(Some(Proc {
            name: String::from_str(alloc, name.as_str())?,
            opcode: number(opcode).unwrap_or(0),
            split: is_kind(kind, KindWord::Split),
            multi: is_kind(kind, KindWord::Multi),
            args: args(alloc, found, constants, items.as_slice())?,
        })),
        Part::Package(_) | Part::Prefix(_) | Part::StatIndex(_) | Part::StartingOpcode(_) => {
            Ok(None)
        }
        Part::Const { .. } | Part::Typedef(_) | Part::Enum { .. } => Ok(None),
        Part::Struct { .. } | Part::Union { .. } => Ok(None),
    }
}

// The procedure, if the part is one.
fn add_proc(
    alloc: Global,
    found: &Types<'_>,
    constants: &Constants<'_>,
    procs: &mut Vec<Proc>,
    opcode: Option<i128>,
    part: &Part,
) -> Result<(), AllocError>
    ensures { OnOk result (procs_of procs.new.items ≡ procs_of procs.old.items
        ++ part_proc constants.now opcode part.now) }
{
    match proc(alloc, found, constants, opcode, part)? {
        None => Ok(()),
        Some(one) => {
            procs.push(one)?;
            Ok(())
        }
    }
}

/// The procedures of the tree, in the order of the text, which have these opcodes.
pub fn procs(
    alloc: Global,
    found: &Types<'_>,
    constants: &Constants<'_>,
    opcodes: &[Option<i128>],
    tree: &Tree,
) -> Result<Vec<Proc>, AllocError>
    requires { opcodes.now ≡ map (λ (p : List ℕ × Option ℤ). p.1) (opcodes_in constants.now tree.now.items) }
    ensures { IfOk result (λ procs. procs_of procs.items ≡ procs_meant constants.now tree.now.items) }
{
    let mut procs = Vec::new(alloc);
    for item in tree.items.as_slice() {
        let opcode = value_in(opcodes, procs.len());
        add_proc(alloc, found, constants, &mut procs, opcode, &item.part)?;
    }
    Ok(procs)
}

fn part_name(part: &Part) -> Option<&str>
    ensures { option_map (λ s. s.now) result ≡ part_proc_name part.now }
{
    match part {
        Part::Proc { name, .. } => Some(name.as_str()),
        Part::Package(_) | Part::Prefix(_) | Part::StatIndex(_) | Part::StartingOpcode(_) => None,
        Part::Const { .. } | Part::Typedef(_) | Part::Enum { .. } => None,
        Part::Struct { .. } | Part::Union { .. } => None,
    }
}

/// The name of the procedure of this number.
pub fn proc_name(tree: &Tree, number: usize) -> Option<&str>
    ensures { (cs : List ConstantDef) → option_map (λ s. s.now) result
        ≡ slice_get (map (λ (p : List ℕ × Option ℤ). p.0) (opcodes_in cs tree.now.items)) number }
{
    let mut left = number;
    for item in tree.items.as_slice() {
        match part_name(&item.part) {
            None => {}
            Some(name) => {
                if left == 0 {
                    return Some(name);
                }
                left -= 1;
            }
        }
    }
    None
}
