//! How the run of a plan's file ended, and what is said of it.

ghost use Rattle.std.specs.Prelude.{◌≡◌};
ghost use Rattle.rx_top.specs.Inputs.{said_of, status_of};
ghost use Rattle.rx_top.specs.Outside.{OnlyErr, Says};

use crate::around::Surroundings;
use crate::cause::Cause;
use crate::saying::say_refused;
use crate::status::Status;

/// How `sim` ended.
#[derive(Debug, Drop)]
pub enum SimOutcome<'a> {
    /// Every line of the plan was made, and its trace put.
    Ran,
    /// The file is refused, at this line of its text or, at 0, as a whole. Of a plan that ran, the lines before it were
    /// made, and their trace put.
    Refused {
        file: &'a str,
        line: u32,
        cause: Cause,
    },
    /// The file can't be read.
    FileFault {
        file: &'a str,
    },
    /// `out` takes no more bytes.
    SinkFault,
    OutOfMemory,
}

impl<'a> SimOutcome<'a> {
    /// How the program ends then.
    pub fn status(&self) -> Status
        ensures { result ≡ status_of self.now }
    {
        match self {
            SimOutcome::Ran => Status::Ok,
            SimOutcome::Refused { .. } => Status::Refused,
            SimOutcome::FileFault { .. } => Status::FileFault,
            SimOutcome::SinkFault => Status::SinkFault,
            SimOutcome::OutOfMemory => Status::Memory,
        }
    }
}

/// Says the line of an outcome.
pub fn say_outcome<X: Surroundings>(x: &mut X, outcome: &SimOutcome<'_>)
    ensures said { Says (X.told x.old) (X.told x.new) (said_of outcome.now) }
    ensures quiet { outcome.now ≡ SimOutcome.Ran → (X.told x.new).err ≡ (X.told x.old).err }
    ensures only { OnlyErr (X.told x.old) (X.told x.new) }
{
    match outcome {
        SimOutcome::Ran => {}
        SimOutcome::Refused { file, line, cause } => say_refused(x, file, *line, cause.as_str()),
        SimOutcome::FileFault { file } => x.say(&["rx: cannot read ", *file, "\n"]),
        SimOutcome::SinkFault => x.say(&["rx: cannot write\n"]),
        SimOutcome::OutOfMemory => x.say(&["rx: out of memory\n"]),
    }
}
