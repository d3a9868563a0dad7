//! The command that runs a plan.

ghost use Rattle.std.specs.Prelude.{◌≡◌, ◌<◌, ◌^◌, All};
ghost use Rattle.rx_script.specs.Saying.{blocks_of};
ghost use Rattle.rx_plan.specs.Answering.{AreServable, WaitsShort};
ghost use Rattle.xg_check.specs.Meaning.{interface_of};
ghost use Rattle.rx_top.specs.Inputs.{status_of};
ghost use Rattle.rx_top.specs.Outside.{Counts, plan_told, reads_of};
ghost use Rattle.rx_top.specs.Sims.{EndsAs, InterfaceIs, IsRead, PlanIs, Played, ScriptIs, handlers_with};

use crate::around::Surroundings;
use crate::cause::Cause;
use crate::inputs::{named_interface, named_script, plan_file};
use crate::outcome::SimOutcome;
use rx_plan::{
    plans_answer_as_served, plans_are_well, scripts_answer_no_zero, scripts_wait_shortly,
};
use rx_script::{Outcome, Plan, Script};
use rx_words::SimFiles;
use std::alloc::Global;
use xdr_value::Interface;

/// Runs the plan of a file: its interface is read first, then its script, and then the plan, each checked before the
/// next.
pub fn sim<'a, X: Surroundings>(alloc: Global, names: &'a SimFiles, x: &mut X) -> SimOutcome<'a>
    ensures sim { InterfaceIs names.now result (reads_of (X.told x.old) (X.told x.new))
        (plan_told (X.told x.old)) (plan_told (X.told x.new)) }
    ensures counts { Counts (status_of result) (X.told x.old) (X.told x.new) }
    ensures silent { (X.told x.new).err ≡ (X.told x.old).err }
    ensures same_wire { (X.told x.new).wire ≡ (X.told x.old).wire }
{
    match named_interface(alloc, &names.xg, x) {
        Ok(iface) => sim_over(alloc, &iface, names, x),
        Err(outcome) => outcome,
    }
}

/// Goes on with an interface.
fn sim_over<'a, X: Surroundings>(
    alloc: Global,
    iface: &Interface,
    names: &'a SimFiles,
    x: &mut X,
) -> SimOutcome<'a>
    requires { All (λ p. p.opcode < 2 ^ 32) (interface_of iface.now).procs }
    ensures sim { ScriptIs (interface_of iface.now) names.now result (reads_of (X.told x.old) (X.told x.new))
        (plan_told (X.told x.old)) (plan_told (X.told x.new)) }
    ensures counts { Counts (status_of result) (X.told x.old) (X.told x.new) }
    ensures silent { (X.told x.new).err ≡ (X.told x.old).err }
    ensures same_wire { (X.told x.new).wire ≡ (X.told x.old).wire }
{
    scripts_answer_no_zero();
    scripts_wait_shortly();
    match named_script(alloc, iface, &names.script, x) {
        Ok(script) => sim_with(alloc, iface, script, names.plan.as_str(), x),
        Err(outcome) => outcome,
    }
}

/// Goes on with a script, at the file of the plan.
fn sim_with<'a, X: Surroundings>(
    alloc: Global,
    iface: &Interface,
    script: Script,
    name: &'a str,
    x: &mut X,
) -> SimOutcome<'a>
    requires servable { AreServable (handlers_with (interface_of iface.now) (blocks_of script.blocks.items)) }
    requires short { WaitsShort (handlers_with (interface_of iface.now) (blocks_of script.blocks.items)) }
    ensures sim { PlanIs (interface_of iface.now) (blocks_of script.blocks.items) name.now result
        (reads_of (X.told x.old) (X.told x.new)) (plan_told (X.told x.old)) (plan_told (X.told x.new)) }
    ensures counts { Counts (status_of result) (X.told x.old) (X.told x.new) }
    ensures silent { (X.told x.new).err ≡ (X.told x.old).err }
    ensures same_wire { (X.told x.new).wire ≡ (X.told x.old).wire }
{
    match plan_file(alloc, iface, name, x) {
        Ok(plan) => play(alloc, iface, script, &plan, name, x),
        Err(outcome) => outcome,
    }
}

/// Runs a plan that was read from a text.
fn play<'a, X: Surroundings>(
    alloc: Global,
    iface: &Interface,
    script: Script,
    plan: &Plan,
    name: &'a str,
    x: &mut X,
) -> SimOutcome<'a>
    requires servable { AreServable (handlers_with (interface_of iface.now) (blocks_of script.blocks.items)) }
    requires short { WaitsShort (handlers_with (interface_of iface.now) (blocks_of script.blocks.items)) }
    requires read { IsRead (interface_of iface.now) plan.now.lines.items }
    ensures played { EndsAs result name.now (λ ran. Played
        (handlers_with (interface_of iface.now) (blocks_of script.blocks.items)) plan.now.lines.items ran
        (plan_told (X.told x.old)) (plan_told (X.told x.new))) }
    ensures counts { Counts (status_of result) (X.told x.old) (X.told x.new) }
    ensures silent { (X.told x.new).err ≡ (X.told x.old).err }
    ensures same_wire { (X.told x.new).wire ≡ (X.told x.old).wire }
    ensures same_files { (X.told x.new).files ≡ (X.told x.old).files }
{
    plans_are_well();
    plans_answer_as_served();
    match x.run(alloc, iface, script, plan) {
        Outcome::Ran => SimOutcome::Ran,
        Outcome::Refused { line, why } => SimOutcome::Refused {
            file: name,
            line,
            cause: Cause::Run(why),
        },
        Outcome::SinkFault => SimOutcome::SinkFault,
        Outcome::OutOfMemory => SimOutcome::OutOfMemory,
    }
}
