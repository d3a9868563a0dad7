use crate::options::{CallOptions, ServeOptions};
use xg_lex::Text;

/// A command of the program, with every default filled in.
#[derive(Debug, Drop)]
pub enum Command {
    /// Runs a plan.
    Sim(SimFiles),
    /// Serves one node over the wire.
    Serve(ServeFiles, ServeOptions),
    /// Makes one call.
    Call(CallWords, CallOptions),
    /// Prints the table of the interface of a file.
    Compile(Text),
    /// Makes so many calls over a network that loses, by a generator that begins with the number.
    Load { number: u64, calls: u32 },
    /// Runs the plan of peers of a file.
    Peers { xg: Text, script: Text, plan: Text },
}

/// The files that `sim` names: a plan, and the interface and the script that it runs with.
#[derive(Debug, Drop)]
pub struct SimFiles {
    pub plan: Text,
    pub xg: Option<Text>,
    pub script: Option<Text>,
}

/// The files that `serve` names.
#[derive(Debug, Drop)]
pub struct ServeFiles {
    pub xg: Text,
    pub script: Text,
    pub key: Option<Text>,
}

/// What `call` is asked for: the files that it names, the procedure, the values as JSON, and whether a download comes.
#[derive(Debug, Drop)]
pub struct CallWords {
    pub xg: Text,
    pub proc: Text,
    pub args: Text,
    pub up: Option<Text>,
    pub down: bool,
    pub key: Option<Text>,
}
