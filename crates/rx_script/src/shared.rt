//! The lines that plans and plans of peers have in common.

ghost use Rattle.std.specs.Prelude.{◌≡◌, None, false, drop};
ghost use Rattle.std.specs.List.{Contains};
ghost use Rattle.xdr_value.specs.View.{types_of, procs_of, proc_of};
ghost use Rattle.rx_script.specs.Reading.{IsAnswer, IsSeen};
ghost use Rattle.rx_script.specs.Rows.{up_value, down_value, invoke_rest, invoke_line, rounds_word, shared_line};
ghost use Rattle.rx_script.specs.Words.{first_as, end};
ghost use Rattle.rx_script.specs.Views.{invocation_of};

use crate::bytes_word::bytes_in;
use crate::fault::{LineWhy, Refusal};
use crate::limits::MAX_ROUNDS;
use crate::marks::{CALLED, PACKET};
use crate::pieces::Pieces;
use crate::procs::{args_in, proc_word};
use crate::spelled::Spelled;
use crate::verb::Verb;
use crate::words::{
    Names, caller_word, cid_word, fault_word, moment_word, name_word, no_more, node_word,
    nodes_word, number_word, seed_word,
};
use std::alloc::Global;
use xdr_value::{Interface, Proc, Value};

/// The text in front of what is sent up.
const UP_HEAD: &str = "up=";

/// A line that both kinds of plans have and that holds no value. A `call` or a `packet` is the K of
/// its name, a `node` that of the plan.
#[derive(Clone, Copy, Debug, PartialEq, Eq)]
pub enum SharedLine {
    Cancel { call: u32, code: i32 },
    Ask { call: u32 },
    Poll { node: u32 },
    Deliver { packet: u32 },
    Clock { node: Option<u32>, now: u64 },
    Turn { node: u32 },
    Rounds { rounds: u32 },
    Lossy { number: u64, rounds: u32 },
}

/// A call that is made with its caller.
#[derive(Debug, Drop)]
pub struct Invocation {
    pub node: u32,
    pub cid: u32,
    pub proc: String,
    pub up: Option<Spelled>,
    pub down: bool,
    pub args: Vec<Value>,
}

/// How many rounds a line makes.
fn rounds_word(words: &mut Pieces) -> Result<u32, LineWhy>
    ensures read { result ≡ first_as rounds_word words.old }
    ensures rest { words.new ≡ drop 1 words.old }
{
    number_word(words, 1, MAX_ROUNDS)
}

fn ended(line: SharedLine, words: &mut Pieces) -> Result<SharedLine, LineWhy>
    ensures { result ≡ end line words.old }
{
    no_more(words)?;
    Ok(line)
}

/// The lines that both kinds of plans have, a row for each.
pub fn shared_line(names: Names, verb: Verb, words: &mut Pieces) -> Result<SharedLine, LineWhy>
    ensures { result ≡ shared_line names verb words.old }
{
    match verb {
        Verb::Cancel => {
            let call = name_word(words, CALLED)?;
            let code = fault_word(words)?;
            ended(SharedLine::Cancel { call, code }, words)
        }
        Verb::Ask => {
            let call = name_word(words, CALLED)?;
            ended(SharedLine::Ask { call }, words)
        }
        Verb::Poll => {
            let node = node_word(words, names)?;
            ended(SharedLine::Poll { node }, words)
        }
        Verb::Deliver => {
            let packet = name_word(words, PACKET)?;
            ended(SharedLine::Deliver { packet }, words)
        }
        Verb::Clock => {
            let node = nodes_word(words, names)?;
            let now = moment_word(words)?;
            ended(SharedLine::Clock { node, now }, words)
        }
        Verb::Turn => {
            let node = node_word(words, names)?;
            ended(SharedLine::Turn { node }, words)
        }
        Verb::Round => ended(SharedLine::Rounds { rounds: 1 }, words),
        Verb::Rounds => {
            let rounds = rounds_word(words)?;
            ended(SharedLine::Rounds { rounds }, words)
        }
        Verb::Lossy => {
            let number = seed_word(words)?;
            let rounds = rounds_word(words)?;
            ended(SharedLine::Lossy { number, rounds }, words)
        }
        Verb::On | Verb::Wait | Verb::Up | Verb::Down | Verb::When | Verb::Fail => Err(
            LineWhy::Word,
        ),
        Verb::Set | Verb::Copy | Verb::Size | Verb::Count | Verb::Echo => Err(LineWhy::Word),
        Verb::Send | Verb::Server | Verb::Client | Verb::Peer => Err(LineWhy::Word),
        Verb::Connect | Verb::Call | Verb::Write | Verb::Shut => Err(LineWhy::Word),
        Verb::Read | Verb::Accept | Verb::Finish | Verb::Jumbo => Err(LineWhy::Word),
        Verb::Forge | Verb::Invoke => Err(LineWhy::Word),
    }
}

// ---- calls with their callers

/// The upload of a split procedure, once.
fn up_value(
    alloc: Global,
    split: bool,
    given: &Option<Spelled>,
    text: &str,
) -> Result<Spelled, Refusal>
    ensures { IsAnswer (up_value split given.now text.now) result }
{
    let Some(bytes) = bytes_in(alloc, text)? else {
        return Err(Refusal::Bad(LineWhy::Number));
    };
    if !split {
        return Err(Refusal::Bad(LineWhy::Kind));
    }
    if given.is_some() {
        return Err(Refusal::Bad(LineWhy::Twice));
    }
    Ok(bytes)
}

/// Whether the download of a split procedure is asked for, once.
fn down_value(split: bool, given: bool) -> Result<bool, LineWhy>
    ensures { result ≡ down_value split given }
{
    if !split {
        return Err(LineWhy::Kind);
    }
    if given {
        return Err(LineWhy::Twice);
    }
    Ok(true)
}

/// What stands behind the procedure of a call: its streams and its values.
fn invoke_rest(
    alloc: Global,
    iface: &Interface,
    node: u32,
    cid: u32,
    p: &Proc,
    words: &mut Pieces,
) -> Result<Invocation, Refusal>
    requires { Contains (procs_of iface.now.procs.items) (proc_of p.now) }
    ensures { IsSeen invocation_of
        (invoke_rest (types_of iface.now.types.items) node cid (proc_of p.now) None false words.old) result }
{
    let mut up = None;
    let mut down = false;
    while let Some(word) = words.next() {
        if let Some(text) = word.strip_prefix(UP_HEAD) {
            up = Some(up_value(alloc, p.split, &up, text)?);
        } else if word == "down" {
            down = down_value(p.split, down)?;
        } else {
            let args = args_in(alloc, iface, p, word)?;
            no_more(words)?;
            let proc = String::from_str(alloc, p.name.as_str())?;
            return Ok(Invocation {
                node,
                cid,
                proc,
                up,
                down,
                args,
            });
        }
    }
    Err(Refusal::Bad(LineWhy::Word))
}

/// A call with its caller.
pub fn invoke_line(
    alloc: Global,
    iface: &Interface,
    names: Names,
    words: &mut Pieces,
) -> Result<Invocation, Refusal>
    ensures { IsSeen invocation_of
        (invoke_line (types_of iface.now.types.items) (procs_of iface.now.procs.items) names words.old) result }
{
    let node = caller_word(words, names)?;
    let cid = cid_word(words)?;
    let p = proc_word(iface, words)?;
    invoke_rest(alloc, iface, node, cid, p, words)
}
