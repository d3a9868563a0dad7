//! The files of a plan's run: its interface, its script and the plan itself.

ghost use Rattle.std.specs.Prelude.{◌≡◌, IfOk, IfErr, IsSomeAnd, Ok, true};
ghost use Rattle.rx_base.specs.Count.{one_more};
ghost use Rattle.rx_script.specs.Saying.{blocks_of, plan_rows};
ghost use Rattle.xg_check.specs.Meaning.{interface_of};
ghost use Rattle.xg_compile.specs.Means.{Means};
ghost use Rattle.rx_top.specs.Inputs.{BadPlan, BadScript, BadXg, EndsAt, Gives, IsFaultAt, IsInterface, IsScript};
ghost use Rattle.rx_top.specs.Inputs.{RefusesText, plan_given, read_on, script_given, status_in, status_of};
ghost use Rattle.rx_top.specs.Outside.{Counts, OnlyFiles, is_plain, reads_of};

use crate::around::Surroundings;
use crate::cause::Cause;
use crate::outcome::SimOutcome;
use rx_base::ReadFault;
use rx_script::{LineFault, Plan, Script, read_plan, read_script};
use std::alloc::Global;
use std::str;
use xdr_value::Interface;
use xg_compile::{CompileFault, compile};
use xg_lex::Text;

/// The interface of the named file, or the empty one where none is named.
pub fn named_interface<'a, X: Surroundings>(
    alloc: Global,
    xg: &'a Option<Text>,
    x: &mut X,
) -> Result<Interface, SimOutcome<'a>>
    ensures ok { IfOk result (λ i. IsInterface (X.told x.old).files.contents xg.now (interface_of i)) }
    ensures err { IfErr result (λ o. IsSomeAnd xg.now (λ name. EndsAt o name BadXg
        (reads_of (X.told x.old) (X.told x.new)))) }
    ensures counts { Counts (status_in result) (X.told x.old) (X.told x.new) }
    ensures only { OnlyFiles (X.told x.old) (X.told x.new) }
    ensures reads { (X.told x.new).files.reads ≡ read_on xg.now (X.told x.old).files.reads }
{
    match xg {
        Some(name) => read_interface(alloc, name.as_str(), x),
        None => Ok(Interface::make(None, None, Vec::new(alloc), Vec::new(alloc))),
    }
}

/// The interface of a file.
pub fn read_interface<'a, X: Surroundings>(
    alloc: Global,
    name: &'a str,
    x: &mut X,
) -> Result<Interface, SimOutcome<'a>>
    ensures ok { IfOk result (λ i. Gives (X.told x.old).files.contents name.now
        (λ text. Means text (interface_of i))) }
    ensures err { IfErr result (λ o. EndsAt o name.now BadXg
        (reads_of (X.told x.old) (X.told x.new))) }
    ensures counts { Counts (status_in result) (X.told x.old) (X.told x.new) }
    ensures only { OnlyFiles (X.told x.old) (X.told x.new) }
    ensures reads { (X.told x.new).files.reads ≡ one_more (X.told x.old).files.reads }
{
    match x.read(alloc, name) {
        Ok(bytes) => interface_in(alloc, name, bytes.as_slice()),
        Err(ReadFault::Failed) => Err(SimOutcome::FileFault { file: name }),
        Err(ReadFault::OutOfMemory) => Err(SimOutcome::OutOfMemory),
    }
}

fn interface_in<'a>(alloc: Global, name: &'a str, bytes: &[u8]) -> Result<Interface, SimOutcome<'a>>
    ensures ok { IfOk result (λ i. Means bytes.now (interface_of i)) }
    ensures err { IfErr result (λ o. RefusesText o name.now (BadXg bytes.now)) }
    ensures plain { is_plain (status_in result) ≡ true }
{
    match str::from_utf8(bytes) {
        Ok(text) => compiled(alloc, name, text),
        Err(_) => Err(SimOutcome::Refused {
            file: name,
            line: 0,
            cause: Cause::NoText,
        }),
    }
}

fn compiled<'a>(alloc: Global, name: &'a str, text: &str) -> Result<Interface, SimOutcome<'a>>
    ensures ok { IfOk result (λ i. Means text.now (interface_of i)) }
    ensures err { IfErr result (λ o. RefusesText o name.now (BadXg text.now)) }
    ensures plain { is_plain (status_in result) ≡ true }
{
    match compile(alloc, text) {
        Ok(iface) => Ok(iface),
        Err(fault) => Err(refused_at(alloc, name, &fault)),
    }
}

/// The outcome of an interface file with this fault.
fn refused_at<'a>(alloc: Global, name: &'a str, fault: &CompileFault) -> SimOutcome<'a>
    ensures refused { RefusesText result name.now (IsFaultAt fault.now) }
    ensures plain { is_plain (status_of result) ≡ true }
{
    let line = fault.line();
    match fault {
        CompileFault::OutOfMemory => SimOutcome::OutOfMemory,
        CompileFault::Lex(_) | CompileFault::Parse(_) | CompileFault::Check(_) => {
            match fault.to_string(alloc) {
                Ok(why) => SimOutcome::Refused {
                    file: name,
                    line,
                    cause: Cause::Xg(Text::of(why)),
                },
                Err(_) => SimOutcome::OutOfMemory,
            }
        }
    }
}

/// The script of the named file over an interface, or the empty one where none is named.
pub fn named_script<'a, X: Surroundings>(
    alloc: Global,
    iface: &Interface,
    script: &'a Option<Text>,
    x: &mut X,
) -> Result<Script, SimOutcome<'a>>
    ensures ok { IfOk result (λ s. IsScript (X.told x.old).files.contents (interface_of iface.now) script.now
        (blocks_of s.blocks.items)) }
    ensures err { IfErr result (λ o. IsSomeAnd script.now (λ name. EndsAt o name (BadScript (interface_of iface.now))
        (reads_of (X.told x.old) (X.told x.new)))) }
    ensures counts { Counts (status_in result) (X.told x.old) (X.told x.new) }
    ensures only { OnlyFiles (X.told x.old) (X.told x.new) }
    ensures reads { (X.told x.new).files.reads ≡ read_on script.now (X.told x.old).files.reads }
{
    match script {
        Some(name) => script_file(alloc, iface, name.as_str(), x),
        None => Ok(Script {
            blocks: Vec::new(alloc),
        }),
    }
}

/// The script of a file over an interface.
pub fn script_file<'a, X: Surroundings>(
    alloc: Global,
    iface: &Interface,
    name: &'a str,
    x: &mut X,
) -> Result<Script, SimOutcome<'a>>
    ensures ok { IfOk result (λ it. Gives (X.told x.old).files.contents name.now (λ text.
        script_given (interface_of iface.now) text ≡ Ok (blocks_of it.blocks.items))) }
    ensures err { IfErr result (λ o. EndsAt o name.now (BadScript (interface_of iface.now))
        (reads_of (X.told x.old) (X.told x.new))) }
    ensures counts { Counts (status_in result) (X.told x.old) (X.told x.new) }
    ensures only { OnlyFiles (X.told x.old) (X.told x.new) }
    ensures reads { (X.told x.new).files.reads ≡ one_more (X.told x.old).files.reads }
{
    match x.read(alloc, name) {
        Ok(bytes) => script_in(alloc, iface, name, bytes.as_slice()),
        Err(ReadFault::Failed) => Err(SimOutcome::FileFault { file: name }),
        Err(ReadFault::OutOfMemory) => Err(SimOutcome::OutOfMemory),
    }
}

fn script_in<'a>(
    alloc: Global,
    iface: &Interface,
    name: &'a str,
    bytes: &[u8],
) -> Result<Script, SimOutcome<'a>>
    ensures ok { IfOk result (λ it. script_given (interface_of iface.now) bytes.now
        ≡ Ok (blocks_of it.blocks.items)) }
    ensures err { IfErr result (λ o. RefusesText o name.now (BadScript (interface_of iface.now) bytes.now)) }
    ensures plain { is_plain (status_in result) ≡ true }
{
    match str::from_utf8(bytes) {
        Ok(text) => script_text(alloc, iface, name, text),
        Err(_) => Err(SimOutcome::Refused {
            file: name,
            line: 0,
            cause: Cause::NoText,
        }),
    }
}

fn script_text<'a>(
    alloc: Global,
    iface: &Interface,
    name: &'a str,
    text: &str,
) -> Result<Script, SimOutcome<'a>>
    ensures ok { IfOk result (λ it. script_given (interface_of iface.now) text.now
        ≡ Ok (blocks_of it.blocks.items)) }
    ensures err { IfErr result (λ o. RefusesText o name.now (BadScript (interface_of iface.now) text.now)) }
    ensures plain { is_plain (status_in result) ≡ true }
{
    match read_script(alloc, iface, text) {
        Ok(script) => Ok(script),
        Err(LineFault::BadLine { line, why }) => Err(SimOutcome::Refused {
            file: name,
            line,
            cause: Cause::Line(why),
        }),
        Err(LineFault::OutOfMemory) => Err(SimOutcome::OutOfMemory),
    }
}

/// The plan of a file over an interface.
pub fn plan_file<'a, X: Surroundings>(
    alloc: Global,
    iface: &Interface,
    name: &'a str,
    x: &mut X,
) -> Result<Plan, SimOutcome<'a>>
    ensures ok { IfOk result (λ it. Gives (X.told x.old).files.contents name.now (λ text.
        plan_given (interface_of iface.now) text ≡ Ok (plan_rows it.lines.items))) }
    ensures err { IfErr result (λ o. EndsAt o name.now (BadPlan (interface_of iface.now))
        (reads_of (X.told x.old) (X.told x.new))) }
    ensures counts { Counts (status_in result) (X.told x.old) (X.told x.new) }
    ensures only { OnlyFiles (X.told x.old) (X.told x.new) }
    ensures reads { (X.told x.new).files.reads ≡ one_more (X.told x.old).files.reads }
{
    match x.read(alloc, name) {
        Ok(bytes) => plan_in(alloc, iface, name, bytes.as_slice()),
        Err(ReadFault::Failed) => Err(SimOutcome::FileFault { file: name }),
        Err(ReadFault::OutOfMemory) => Err(SimOutcome::OutOfMemory),
    }
}

fn plan_in<'a>(
    alloc: Global,
    iface: &Interface,
    name: &'a str,
    bytes: &[u8],
) -> Result<Plan, SimOutcome<'a>>
    ensures ok { IfOk result (λ it. plan_given (interface_of iface.now) bytes.now
        ≡ Ok (plan_rows it.lines.items)) }
    ensures err { IfErr result (λ o. RefusesText o name.now (BadPlan (interface_of iface.now) bytes.now)) }
    ensures plain { is_plain (status_in result) ≡ true }
{
    match str::from_utf8(bytes) {
        Ok(text) => plan_text(alloc, iface, name, text),
        Err(_) => Err(SimOutcome::Refused {
            file: name,
            line: 0,
            cause: Cause::NoText,
        }),
    }
}

fn plan_text<'a>(
    alloc: Global,
    iface: &Interface,
    name: &'a str,
    text: &str,
) -> Result<Plan, SimOutcome<'a>>
    ensures ok { IfOk result (λ it. plan_given (interface_of iface.now) text.now
        ≡ Ok (plan_rows it.lines.items)) }
    ensures err { IfErr result (λ o. RefusesText o name.now (BadPlan (interface_of iface.now) text.now)) }
    ensures plain { is_plain (status_in result) ≡ true }
{
    match read_plan(alloc, iface, text) {
        Ok(plan) => Ok(plan),
        Err(LineFault::BadLine { line, why }) => Err(SimOutcome::Refused {
            file: name,
            line,
            cause: Cause::Line(why),
        }),
        Err(LineFault::OutOfMemory) => Err(SimOutcome::OutOfMemory),
    }
}
