//! How a command over a wire ended, and what is said of it.

ghost use Rattle.std.specs.Prelude.{◌≡◌, ◌++◌, codes, decimal};
ghost use Rattle.std.specs.Fmt.{signed_decimal};
ghost use Rattle.rx_top.specs.Outside.{OnlyErr, Says};
ghost use Rattle.rx_top.specs.Wires.{args_text, wire_said, wire_status};

use crate::around::Surroundings;
use crate::outcome::{SimOutcome, say_outcome};
use crate::saying::say_refused;
use crate::status::Status;
use itoa::Buffer;

/// Why the arguments of a call are refused.
#[derive(Debug, Drop)]
pub enum ArgsFault {
    /// There is no such procedure.
    Proc,
    /// The procedure has no streams.
    Kind,
    NotJson,
    /// The value at the path is none of the type `want`.
    Mismatch { path: String, want: String },
    /// The upload is too long.
    Number,
    /// There is no request with these values.
    Code(i32),
}

/// How `serve` or `call` ended.
#[derive(Debug, Drop)]
pub enum WireOutcome<'a> {
    /// The time of the server was up, or the reply of the call was put.
    Done,
    /// A file can't be read or is refused, or memory was wanted for it.
    Input(SimOutcome<'a>),
    /// A key file hasn't exactly the bytes of a key.
    BadKey { file: &'a str },
    BadArgs(ArgsFault),
    /// The reply isn't spelled, or is too long.
    BadReply,
    Aborted { code: i32 },
    Dead { silence: u64 },
    /// `out` takes no more bytes.
    SinkFault,
    WireFault,
    TurnsSpent { turns: u64 },
    OutOfMemory,
    /// The journal has no memory for a note.
    Unnoted,
}

impl<'a> WireOutcome<'a> {
    /// How the program ends then.
    pub fn status(&self) -> Status
        ensures { result ≡ wire_status self.now }
    {
        match self {
            WireOutcome::Done => Status::Ok,
            WireOutcome::Input(outcome) => outcome.status(),
            WireOutcome::BadKey { .. } | WireOutcome::BadArgs(_) | WireOutcome::BadReply =>
                Status::Refused,
            WireOutcome::Aborted { .. } => Status::Aborted,
            WireOutcome::Dead { .. } => Status::Dead,
            WireOutcome::SinkFault => Status::SinkFault,
            WireOutcome::WireFault => Status::WireFault,
            WireOutcome::TurnsSpent { .. } => Status::TurnsSpent,
            WireOutcome::OutOfMemory => Status::Memory,
            WireOutcome::Unnoted => Status::Memory,
        }
    }
}

/// Says the line of an outcome.
pub fn say_ended<X: Surroundings>(x: &mut X, outcome: &WireOutcome<'_>)
    ensures said { Says (X.told x.old) (X.told x.new) (wire_said outcome.now) }
    ensures quiet { wire_status outcome.now ≡ Status.Ok → (X.told x.new).err ≡ (X.told x.old).err }
    ensures only { OnlyErr (X.told x.old) (X.told x.new) }
{
    match outcome {
        WireOutcome::Done => {}
        WireOutcome::Input(outcome) => say_outcome(x, outcome),
        WireOutcome::BadKey { file } => say_refused(x, file, 0, "key"),
        WireOutcome::BadArgs(fault) => say_args(x, fault),
        WireOutcome::BadReply => x.say(&["rx: reply: -451\n"]),
        WireOutcome::Aborted { code } => say_number(x, "rx: aborted ", *code),
        WireOutcome::Dead { silence } => say_count(x, "rx: dead ", *silence),
        WireOutcome::SinkFault => x.say(&["rx: cannot write\n"]),
        WireOutcome::WireFault => x.say(&["rx: network fault\n"]),
        WireOutcome::TurnsSpent { turns } => say_count(x, "rx: turns spent ", *turns),
        WireOutcome::OutOfMemory => x.say(&["rx: out of memory\n"]),
        WireOutcome::Unnoted => x.say(&["rx: out of memory\n"]),
    }
}

/// Says why arguments are refused.
fn say_args<X: Surroundings>(x: &mut X, fault: &ArgsFault)
    ensures said { Says (X.told x.old) (X.told x.new) (args_text fault.now) }
    ensures only { OnlyErr (X.told x.old) (X.told x.new) }
{
    match fault {
        ArgsFault::Proc => x.say(&["rx: args: proc\n"]),
        ArgsFault::Kind => x.say(&["rx: args: kind\n"]),
        ArgsFault::NotJson => x.say(&["rx: args: notjson\n"]),
        ArgsFault::Mismatch { path, want } => x.say(&[
            "rx: args: mismatch ",
            path.as_str(),
            " ",
            want.as_str(),
            "\n",
        ]),
        ArgsFault::Number => x.say(&["rx: args: number\n"]),
        ArgsFault::Code(code) => say_number(x, "rx: args: ", *code),
    }
}

/// Says a text and a number behind it.
fn say_number<X: Surroundings>(x: &mut X, text: &str, number: i32)
    ensures said { Says (X.told x.old) (X.told x.new) (text.now ++ (signed_decimal number ++ codes "\n")) }
    ensures only { OnlyErr (X.told x.old) (X.told x.new) }
{
    let mut digits = Buffer::new();
    x.say(&[text, digits.format(number), "\n"]);
}

/// Says a text and a count behind it.
fn say_count<X: Surroundings>(x: &mut X, text: &str, count: u64)
    ensures said { Says (X.told x.old) (X.told x.new) (text.now ++ (decimal count ++ codes "\n")) }
    ensures only { OnlyErr (X.told x.old) (X.told x.new) }
{
    let mut digits = Buffer::new();
    x.say(&[text, digits.format(count), "\n"]);
}
