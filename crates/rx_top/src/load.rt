//! The command that makes a load.

ghost use Rattle.std.specs.Prelude.{◌≡◌, ◌≤◌, ◌++◌, IfOk, OnOk};
ghost use Rattle.std.specs.String.{string_bytes};
ghost use Rattle.rx_top.specs.LoadLines.{LoadPuts, calls_line, counted, load_said, load_status, rounds_line};
ghost use Rattle.rx_top.specs.LoadLines.{summary_text};
ghost use Rattle.rx_top.specs.Outside.{Counts, OnlyErr, Says, plan_told};

use crate::around::Surroundings;
use crate::status::Status;
use itoa::Buffer;
use rx_load::{Loaded, Summary};
use std::alloc::{AllocError, Global};

/// How `load` ended.
#[derive(Clone, Copy, Debug, PartialEq, Eq)]
pub enum LoadOutcome {
    /// What became of the load was put.
    Put,
    /// `out` takes no more bytes.
    SinkFault,
    OutOfMemory,
}

impl LoadOutcome {
    /// How the program ends then.
    pub fn status(self) -> Status
        ensures { result ≡ load_status self }
    {
        match self {
            LoadOutcome::Put => Status::Ok,
            LoadOutcome::SinkFault => Status::SinkFault,
            LoadOutcome::OutOfMemory => Status::Memory,
        }
    }
}

/// Makes a load of so many calls by words of the generator of a number, and puts what became of it. How far it is is
/// shown on `err`.
pub fn load_calls<X: Surroundings>(alloc: Global, number: u64, calls: u32, x: &mut X) -> LoadOutcome
    requires { (1 ≤ calls) × (calls ≤ 10000) }
    ensures load { LoadPuts number calls result (plan_told (X.told x.old)) (plan_told (X.told x.new)) }
    ensures counts { Counts (load_status result) (X.told x.old) (X.told x.new) }
    ensures silent { (X.told x.new).err ≡ (X.told x.old).err }
    ensures same_wire { (X.told x.new).wire ≡ (X.told x.old).wire }
    ensures same_files { (X.told x.new).files ≡ (X.told x.old).files }
{
    let Loaded::Ran(summary) = x.load(alloc, number, calls) else {
        return LoadOutcome::OutOfMemory;
    };
    let Ok(text) = summary_text(alloc, &summary) else {
        return LoadOutcome::OutOfMemory;
    };
    match x.put(text.as_bytes()) {
        Ok(()) => LoadOutcome::Put,
        Err(_) => LoadOutcome::SinkFault,
    }
}

/// The two lines of what became of a load.
fn summary_text(alloc: Global, summary: &Summary) -> Result<String, AllocError>
    ensures { IfOk result (λ text. string_bytes text ≡ summary_text summary.now) }
{
    let mut text = String::new(alloc);
    add_calls(&mut text, summary)?;
    add_rounds(&mut text, summary)?;
    Ok(text)
}

/// The line of its calls, behind a text.
fn add_calls(text: &mut String, summary: &Summary) -> Result<(), AllocError>
    ensures { OnOk result (string_bytes text.new ≡ string_bytes text.old ++ calls_line summary.now) }
{
    add_count(text, "calls ", u64::from(summary.calls))?;
    add_count(text, " ok ", u64::from(summary.ok))?;
    add_count(text, " abort ", u64::from(summary.aborted))?;
    add_count(text, " dead ", u64::from(summary.dead))?;
    add_count(text, " open ", u64::from(summary.unended))?;
    text.push_str("\n")
}

/// The line of its rounds, and of the datagrams that were given in them, behind a text.
fn add_rounds(text: &mut String, summary: &Summary) -> Result<(), AllocError>
    ensures { OnOk result (string_bytes text.new ≡ string_bytes text.old ++ rounds_line summary.now) }
{
    add_count(text, "rounds ", u64::from(summary.rounds))?;
    add_count(text, " given ", summary.given)?;
    add_count(text, " lost ", summary.lost)?;
    add_count(text, " repeated ", summary.repeated)?;
    add_count(text, " held ", summary.held)?;
    text.push_str("\n")
}

/// A count with its name before it, behind a text.
fn add_count(text: &mut String, name: &str, count: u64) -> Result<(), AllocError>
    ensures { OnOk result (string_bytes text.new ≡ string_bytes text.old ++ counted name.now count) }
{
    let mut digits = Buffer::new();
    text.push_str(name)?;
    text.push_str(digits.format(count))
}

/// Says the line of an outcome.
pub fn say_loaded<X: Surroundings>(x: &mut X, outcome: LoadOutcome)
    ensures said { Says (X.told x.old) (X.told x.new) (load_said outcome) }
    ensures quiet { outcome ≡ LoadOutcome.Put → (X.told x.new).err ≡ (X.told x.old).err }
    ensures only { OnlyErr (X.told x.old) (X.told x.new) }
{
    match outcome {
        LoadOutcome::Put => {}
        LoadOutcome::SinkFault => x.say(&["rx: cannot write\n"]),
        LoadOutcome::OutOfMemory => x.say(&["rx: out of memory\n"]),
    }
}
