//! The command that prints the table of an interface file.

ghost use Rattle.std.specs.Prelude.{◌≡◌};
ghost use Rattle.rx_base.specs.Count.{one_more};
ghost use Rattle.rx_top.specs.Compiles.{CompileIs, IsRefusalOf, compile_said, compile_status};
ghost use Rattle.rx_top.specs.Outside.{Counts, OnlyErr, Says, seen_of};

use crate::around::Surroundings;
use crate::saying::say_refused;
use crate::status::Status;
use rx_base::ReadFault;
use std::alloc::Global;
use std::str;
use xg_compile::{CompileFault, compile, table};

/// How `compile XG` ended.
#[derive(Debug, Drop)]
pub enum CompileOutcome {
    /// The table was put.
    Put,
    /// The bytes of the file are no text in UTF-8; nothing was put.
    NoText,
    /// The text means no interface, for this cause at this line, which is 0 where it is of no line; nothing was put.
    Refused { line: u32, why: String },
    /// The file can't be read.
    FileFault,
    /// `out` takes no more bytes.
    SinkFault,
    OutOfMemory,
}

impl CompileOutcome {
    /// How the program ends then.
    pub fn status(&self) -> Status
        ensures { result ≡ compile_status self.now }
    {
        match self {
            CompileOutcome::Put => Status::Ok,
            CompileOutcome::NoText | CompileOutcome::Refused { .. } => Status::Refused,
            CompileOutcome::FileFault => Status::FileFault,
            CompileOutcome::SinkFault => Status::SinkFault,
            CompileOutcome::OutOfMemory => Status::Memory,
        }
    }
}

/// Puts the table of an interface file.
pub fn compile_file<X: Surroundings>(alloc: Global, name: &str, x: &mut X) -> CompileOutcome
    ensures compile { CompileIs result name.now (seen_of (X.told x.old) (X.told x.new)) }
    ensures reads { (X.told x.new).files.reads ≡ one_more (X.told x.old).files.reads }
    ensures counts { Counts (compile_status result) (X.told x.old) (X.told x.new) }
    ensures silent { (X.told x.new).err ≡ (X.told x.old).err }
    ensures same_wire { (X.told x.new).wire ≡ (X.told x.old).wire }
    ensures no_events { (X.told x.new).noted ≡ (X.told x.old).noted }
{
    let bytes = match x.read(alloc, name) {
        Ok(bytes) => bytes,
        Err(ReadFault::Failed) => return CompileOutcome::FileFault,
        Err(ReadFault::OutOfMemory) => return CompileOutcome::OutOfMemory,
    };
    let Ok(text) = str::from_utf8(bytes.as_slice()) else {
        return CompileOutcome::NoText;
    };
    let iface = match compile(alloc, text) {
        Ok(iface) => iface,
        Err(fault) => return refused(alloc, &fault),
    };
    let Ok(table) = table(alloc, &iface) else {
        return CompileOutcome::OutOfMemory;
    };
    match x.put(table.as_bytes()) {
        Ok(()) => CompileOutcome::Put,
        Err(_) => CompileOutcome::SinkFault,
    }
}

/// The outcome of a text with this fault.
fn refused(alloc: Global, fault: &CompileFault) -> CompileOutcome
    ensures { IsRefusalOf fault.now result }
{
    let line = fault.line();
    match fault {
        CompileFault::OutOfMemory => CompileOutcome::OutOfMemory,
        CompileFault::Lex(_) | CompileFault::Parse(_) | CompileFault::Check(_) => {
            match fault.to_string(alloc) {
                Ok(why) => CompileOutcome::Refused { line, why },
                Err(_) => CompileOutcome::OutOfMemory,
            }
        }
    }
}

/// Says the line of an outcome.
pub fn say_compiled<X: Surroundings>(x: &mut X, name: &str, outcome: &CompileOutcome)
    ensures said { Says (X.told x.old) (X.told x.new) (compile_said outcome.now name.now) }
    ensures quiet { outcome.now ≡ CompileOutcome.Put → (X.told x.new).err ≡ (X.told x.old).err }
    ensures only { OnlyErr (X.told x.old) (X.told x.new) }
{
    match outcome {
        CompileOutcome::Put => {}
        CompileOutcome::NoText => say_refused(x, name, 0, "word"),
        CompileOutcome::Refused { line, why } => say_refused(x, name, *line, why.as_str()),
        CompileOutcome::FileFault => x.say(&["rx: cannot read ", name, "\n"]),
        CompileOutcome::SinkFault => x.say(&["rx: cannot write\n"]),
        CompileOutcome::OutOfMemory => x.say(&["rx: out of memory\n"]),
    }
}
