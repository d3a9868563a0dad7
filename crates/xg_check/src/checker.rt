//! The meaning of a tree.

ghost use Rattle.std.specs.Prelude.{◌≡◌, ◌≢◌, ℕ, ℤ, List, Option, map, Ok, Err, IfOk, IfErr, IsOkAnd};
ghost use Rattle.xg_check.specs.Places.{HoldsNowhere};
ghost use Rattle.xg_check.specs.Answers.{IsFaultOf, IsChecked};
ghost use Rattle.xg_check.specs.Constants.{constants_in};
ghost use Rattle.xg_check.specs.Typed.{types_in};
ghost use Rattle.xg_check.specs.Meaning.{Meant, interface_of, Meaning, IsFirstFault, IsFaultless, opcodes_of, OpcodeAt};
ghost use Rattle.xg_check.specs.Meaning.{OpcodeTwiceAt};

use crate::endless::endless;
use crate::fault::CheckFault;
use crate::marks::marks;
use crate::meaning::{package, prefix, types};
use crate::opcodes::{first_twice, first_without, opcodes};
use crate::order::ordered;
use crate::procs::{proc_name, procs};
use crate::sizes::Judge;
use crate::twice::twice;
use crate::types::{Types, Ways};
use crate::unknown::unknown;
use crate::values::Constants;
use std::alloc::{AllocError, Global};
use xdr_value::Interface;
use xg_lex::Text;
use xg_parse::Tree;

fn text(alloc: Global, name: &str) -> Result<Text, AllocError>
    ensures { IfOk result (λ t. t ≡ name.now) }
{
    Ok(Text::of(String::from_str(alloc, name)?))
}

// The names, sizes and types of the tree, or their first fault.
fn judge(
    alloc: Global,
    tree: &Tree,
    found: &Types<'_>,
    constants: &Constants<'_>,
) -> Result<(), CheckFault>
    requires found { found.now ≡ types_in tree.now.items }
    requires constants { constants.now ≡ constants_in tree.now.items }
    ensures faultless { IfOk result (λ u. IsFaultless tree.now) }
    ensures fault { IfErr result (IsFaultOf tree.now) }
{
    let marks = marks(alloc, tree)?;
    let marks = marks.as_slice();
    if let Some(name) = twice(alloc, constants, marks)? {
        let name = text(alloc, name)?;
        return Err(CheckFault::Twice { name });
    }
    if let Some(name) = unknown(found, constants, marks) {
        let name = text(alloc, name)?;
        return Err(CheckFault::Unknown { name });
    }
    let held = found.ways(alloc, Ways::Held)?;
    let order = ordered(alloc, &held)?;
    let judge = Judge::of(alloc, found, constants, &order)?;
    if let Some(name) = judge.bad(alloc, found, constants, marks)? {
        let name = text(alloc, name)?;
        return Err(CheckFault::Size { name });
    }
    if let Some(name) = endless(alloc, found, &held, &order)? {
        let name = text(alloc, name)?;
        return Err(CheckFault::Endless { name });
    }
    Ok(())
}

// The opcodes of the tree, or their first fault.
fn numbered(
    alloc: Global,
    tree: &Tree,
    constants: &Constants<'_>,
) -> Result<Vec<Option<i128>>, CheckFault>
    requires constants { constants.now ≡ constants_in tree.now.items }
    requires faultless { IsFaultless tree.now }
    ensures opcodes { IfOk result (λ list. list.items ≡ map (λ (p : List ℕ × Option ℤ). p.1) (opcodes_of tree.now)) }
    ensures has { IfOk result (λ list. HoldsNowhere (OpcodeAt tree.now)) }
    ensures differ { IfOk result (λ list. HoldsNowhere (OpcodeTwiceAt tree.now)) }
    ensures fault { IfErr result (IsFaultOf tree.now) }
{
    let opcodes = opcodes(alloc, constants, tree)?;
    if let Some(at) = first_without(opcodes.as_slice()) {
        let name = proc_name(tree, at).unwrap_or("");
        let name = text(alloc, name)?;
        return Err(CheckFault::Opcode { name });
    }
    if let Some(n) = first_twice(alloc, opcodes.as_slice())? {
        return Err(CheckFault::OpcodeTwice { n });
    }
    Ok(opcodes)
}

// The interface, or the first fault.
fn checked(alloc: Global, tree: &Tree) -> Result<Interface, CheckFault>
    ensures { IsChecked tree.now result }
{
    let constants = Constants::of(alloc, tree)?;
    let found = Types::of(alloc, tree)?;
    judge(alloc, tree, &found, &constants)?;
    let opcodes = numbered(alloc, tree, &constants)?;
    let types = types(alloc, &found, &constants, tree)?;
    let procs = procs(alloc, &found, &constants, opcodes.as_slice(), tree)?;
    let package = package(alloc, tree)?;
    let prefix = prefix(alloc, tree)?;
    Ok(Interface::make(package, prefix, types, procs))
}

/// The interface that the tree means, or its first fault. The time grows with the text, and not
/// with the ways down from a type through the types that it holds.
pub fn check(alloc: Global, tree: &Tree) -> Result<Interface, CheckFault>
    // What is given is what the tree means, or its first fault.
    ensures means { IfOk result (λ i. Meaning tree.now (interface_of i)) }
    ensures fault { IfErr result (λ f. f ≢ CheckFault.OutOfMemory → IsFirstFault tree.now f) }
    // What the tree means is given, and so is its first fault, unless there is no memory.
    ensures only_meaning { (m : Meant) → Meaning tree.now m
        → result ≢ Err CheckFault.OutOfMemory → IsOkAnd result (λ i. interface_of i ≡ m) }
    ensures only_fault { (f : CheckFault) → IsFirstFault tree.now f
        → result ≢ Err CheckFault.OutOfMemory → result ≡ Err f }
{
    checked(alloc, tree)
}
