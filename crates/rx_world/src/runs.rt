//! The run of a plan, and the laws of what it makes.
ghost use Rattle.std.specs.List.{All};
ghost use Rattle.rx_script.specs.Saying.{blocks_of};
ghost use Rattle.rx_jobs.specs.Handlers.{handlers_of};
ghost use Rattle.rx_plan.specs.Lines.{IsWell};
ghost use Rattle.rx_stage.specs.Runs.{KeepsPromises, RunIs};
ghost use Rattle.rx_stage.specs.Tells.{told};
ghost use Rattle.rx_world.specs.Runs.{AllClose, Arrives, Closes, Completes};

use rx_base::Sink;
use rx_closing::{all_close, calls_close};
use rx_rounds::{plans_arrive, plans_complete};
use rx_script::{Outcome, Plan, Script};
use rx_wire::Journal;
use std::alloc::Global;
use xdr_value::Interface;

/// Makes the events of a plan's lines on one server and its clients. Each event is noted, and then its line put. Behind
/// the trace stands an answer line for each invoke that was given a call. The run is out of memory where memory was
/// wanted, or where one polling or turn went on for 2^64 - 1 events. A request that the plan writes by hand before
/// rounds arrives, or its handler refuses it; an invoke before so many rounds comes to its end, with what is served for
/// it; and behind whatever a driven plan lost, so many rounds end the one call that lives, and all that live, where
/// there is room for all.
pub fn run<O: Sink, J: Journal>(
    alloc: Global,
    iface: &Interface,
    script: Script,
    plan: &Plan,
    out: &mut O,
    book: &mut J,
) -> Outcome
    requires { All (λ n. IsWell (handlers_of iface.now (blocks_of script.blocks.items)) n.what) plan.now.lines.items }
    ensures run { RunIs (handlers_of iface.now (blocks_of script.blocks.items)) plan.now.lines.items result
        (told (J.told book.old) (O.told out.old) (O.faults out.old))
        (told (J.told book.new) (O.told out.new) (O.faults out.new)) }
    ensures headline { KeepsPromises (handlers_of iface.now (blocks_of script.blocks.items)) plan.now.lines.items result
        (told (J.told book.old) (O.told out.old) (O.faults out.old))
        (told (J.told book.new) (O.told out.new) (O.faults out.new)) }
    ensures arrives { Arrives (handlers_of iface.now (blocks_of script.blocks.items)) plan.now.lines.items result
        (told (J.told book.old) (O.told out.old) (O.faults out.old))
        (told (J.told book.new) (O.told out.new) (O.faults out.new)) }
    ensures completes { Completes (handlers_of iface.now (blocks_of script.blocks.items)) plan.now.lines.items result
        (told (J.told book.old) (O.told out.old) (O.faults out.old))
        (told (J.told book.new) (O.told out.new) (O.faults out.new)) }
    ensures closes { Closes (handlers_of iface.now (blocks_of script.blocks.items)) plan.now.lines.items result
        (told (J.told book.old) (O.told out.old) (O.faults out.old))
        (told (J.told book.new) (O.told out.new) (O.faults out.new)) }
    ensures all_close { AllClose (handlers_of iface.now (blocks_of script.blocks.items)) plan.now.lines.items result
        (told (J.told book.old) (O.told out.old) (O.faults out.old))
        (told (J.told book.new) (O.told out.new) (O.faults out.new)) }
{
    plans_arrive();
    plans_complete();
    calls_close();
    all_close();
    rx_stage::run(alloc, iface, script, plan, out, book)
}
