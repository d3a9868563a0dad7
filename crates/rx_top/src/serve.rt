//! The command that serves a node over a wire.

ghost use Rattle.std.specs.Prelude.{◌≡◌, true, Err};
ghost use Rattle.rx_script.specs.Saying.{blocks_of};
ghost use Rattle.rx_token.specs.Chosen.{chosen, secret_of};
ghost use Rattle.xg_check.specs.Meaning.{interface_of};
ghost use Rattle.rx_top.specs.Outside.{Counts, reads_of, wire_told};
ghost use Rattle.rx_top.specs.Serves.{CanServe, EndsByServing, ServesAtKey, ServesAtScript, ServesAtXg, ServesNode};
ghost use Rattle.rx_top.specs.Wires.{wire_status};

use crate::around::Surroundings;
use crate::inputs::{read_interface, script_file};
use crate::keys::named_class;
use crate::wire_outcome::WireOutcome;
use rx_script::Script;
use rx_token::Chosen;
use rx_wire_loop::{ServeEnd, Serving, Stop};
use rx_words::ServeFiles;
use std::alloc::Global;
use xdr_value::Interface;

/// Serves a node: its interface is read first, then its script, and then its key, each checked before the next.
pub fn serve_files<'a, X: Surroundings>(
    alloc: Global,
    names: &'a ServeFiles,
    serving: &Serving,
    x: &mut X,
) -> WireOutcome<'a>
    requires { CanServe serving.now }
    ensures serve { ServesAtXg names.now serving.now result (reads_of (X.told x.old) (X.told x.new))
        (wire_told (X.told x.old)) (wire_told (X.told x.new)) }
    ensures counts { Counts (wire_status result) (X.told x.old) (X.told x.new) }
    ensures unnoted { result ≡ WireOutcome.Unnoted → X.may_want ≡ true }
    ensures silent { (X.told x.new).err ≡ (X.told x.old).err }
{
    match read_interface(alloc, names.xg.as_str(), x) {
        Ok(iface) => serve_over(alloc, &iface, names, serving, x),
        Err(outcome) => WireOutcome::Input(outcome),
    }
}

/// Goes on with an interface.
fn serve_over<'a, X: Surroundings>(
    alloc: Global,
    iface: &Interface,
    names: &'a ServeFiles,
    serving: &Serving,
    x: &mut X,
) -> WireOutcome<'a>
    requires { CanServe serving.now }
    ensures serve { ServesAtScript (interface_of iface.now) names.now serving.now result
        (reads_of (X.told x.old) (X.told x.new)) (wire_told (X.told x.old)) (wire_told (X.told x.new)) }
    ensures counts { Counts (wire_status result) (X.told x.old) (X.told x.new) }
    ensures unnoted { result ≡ WireOutcome.Unnoted → X.may_want ≡ true }
    ensures silent { (X.told x.new).err ≡ (X.told x.old).err }
{
    match script_file(alloc, iface, names.script.as_str(), x) {
        Ok(script) => serve_script(alloc, iface, script, names, serving, x),
        Err(outcome) => WireOutcome::Input(outcome),
    }
}

/// Goes on with a script.
fn serve_script<'a, X: Surroundings>(
    alloc: Global,
    iface: &Interface,
    script: Script,
    names: &'a ServeFiles,
    serving: &Serving,
    x: &mut X,
) -> WireOutcome<'a>
    requires { CanServe serving.now }
    ensures serve { ServesAtKey (interface_of iface.now) (blocks_of script.blocks.items) names.now serving.now result
        (reads_of (X.told x.old) (X.told x.new)) (wire_told (X.told x.old)) (wire_told (X.told x.new)) }
    ensures counts { Counts (wire_status result) (X.told x.old) (X.told x.new) }
    ensures unnoted { result ≡ WireOutcome.Unnoted → X.may_want ≡ true }
    ensures silent { (X.told x.new).err ≡ (X.told x.old).err }
{
    match named_class(alloc, &names.key, x) {
        Ok(class) => serve_with(alloc, iface, script, serving, class, x),
        Err(outcome) => outcome,
    }
}

/// Serves a node with what the files give.
fn serve_with<'a, X: Surroundings>(
    alloc: Global,
    iface: &Interface,
    script: Script,
    serving: &Serving,
    class: Chosen,
    x: &mut X,
) -> WireOutcome<'a>
    requires { CanServe serving.now }
    ensures serve { ServesNode (interface_of iface.now) (blocks_of script.blocks.items) (chosen (secret_of class))
        serving.now result
        (wire_told (X.told x.old)) (wire_told (X.told x.new)) }
    ensures counts { Counts (wire_status result) (X.told x.old) (X.told x.new) }
    ensures unnoted { result ≡ WireOutcome.Unnoted → X.may_want ≡ true }
    ensures silent { (X.told x.new).err ≡ (X.told x.old).err }
    ensures same_files { (X.told x.new).files ≡ (X.told x.old).files }
{
    let result = x.serve(alloc, iface, script, serving, class);
    served(result, serving.turns)
}

/// The outcome of serving with so many takes at most.
fn served<'a>(got: Result<ServeEnd, Stop>, turns: u64) -> WireOutcome<'a>
    ensures ends { EndsByServing turns got result }
    ensures unnoted { result ≡ WireOutcome.Unnoted → got ≡ Err Stop.Unnoted }
{
    match got {
        Ok(ServeEnd::TimeUp) => WireOutcome::Done,
        Ok(ServeEnd::TurnsSpent) => WireOutcome::TurnsSpent { turns },
        Err(Stop::SinkFault) => WireOutcome::SinkFault,
        Err(Stop::WireFault) => WireOutcome::WireFault,
        Err(Stop::OutOfMemory | Stop::Unformatted | Stop::Endless) => WireOutcome::OutOfMemory,
        Err(Stop::Unnoted) => WireOutcome::Unnoted,
    }
}
