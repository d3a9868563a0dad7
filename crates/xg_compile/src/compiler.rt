//! From a text to its interface.

ghost use Rattle.std.specs.Prelude.{◌≡◌, ◌≢◌, IfOk, IfErr, IsOkAnd, Err};
ghost use Rattle.xg_check.specs.Meaning.{Meant, interface_of};
ghost use Rattle.xg_compile.specs.Means.{IsFirstFaultOf, Means};
ghost use Rattle.xg_compile.specs.declared.fault.CompileFault.{CompileFault};

use crate::fault::CompileFault;
use std::alloc::Global;
use xdr_value::Interface;
use xg_check::check;
use xg_lex::lex;
use xg_parse::parse;

/// The interface that an interface file means, or the first fault of its text. The time grows with the text alone.
pub fn compile(alloc: Global, text: &str) -> Result<Interface, CompileFault>
    // What is given is what the text means, or its first fault.
    ensures means { IfOk result (λ i. Means text.now (interface_of i)) }
    ensures fault { IfErr result (λ f. f ≢ CompileFault.OutOfMemory → IsFirstFaultOf text.now f) }
    // What the text means is given, and so is its first fault, unless there is no memory.
    ensures only_meaning { (m : Meant) → Means text.now m
        → result ≢ Err CompileFault.OutOfMemory → IsOkAnd result (λ i. interface_of i ≡ m) }
    ensures only_fault { (f : CompileFault) → IsFirstFaultOf text.now f
        → result ≢ Err CompileFault.OutOfMemory → result ≡ Err f }
{
    let tokens = lex(alloc, text)?;
    let tree = parse(alloc, &tokens)?;
    Ok(check(alloc, &tree)?)
}
