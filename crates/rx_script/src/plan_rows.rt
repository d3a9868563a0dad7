//! The lines of plans, a row for each.

ghost use Rattle.std.specs.Prelude.{◌≡◌, drop};
ghost use Rattle.xdr_value.specs.View.{types_of, procs_of};
ghost use Rattle.rx_script.specs.Hosts.{is_host};
ghost use Rattle.rx_script.specs.Reading.{IsAnswer, IsSeen};
ghost use Rattle.rx_script.specs.Rows.{client_line, connect_line, forge_line, new_host, numbers_line, plain_line};
ghost use Rattle.rx_script.specs.Rows.{plan_by, plan_line, plan_of_shared, read_of, server_line, write_line};
ghost use Rattle.rx_script.specs.Saying.{plan_said, invoked};
ghost use Rattle.rx_script.specs.Views.{invocation_of};
ghost use Rattle.rx_script.specs.Words.{first_as, end};

use crate::fault::{LineWhy, Refusal};
use crate::marks::{ACCEPTED, CALLED, CLIENT, PACKET};
use crate::options::{CLIENT_OPTIONS, CONNECT_OPTIONS, SERVER_OPTIONS, options_word};
use crate::pieces::Pieces;
use crate::plan::PlanLine;
use crate::shared::{Invocation, SharedLine, invoke_line, shared_line};
use crate::verb::{Verb, verb_in};
use crate::words::{
    CallWord, Names, bytes_word, call_word, cid_word, code_word, epoch_word, host_word, max_word,
    name_word, no_more, node_word,
};
use rx_model::Host;
use std::alloc::Global;
use xdr_value::Interface;

fn ended(line: PlanLine, words: &mut Pieces) -> Result<PlanLine, LineWhy>
    ensures { result ≡ end line words.old }
{
    no_more(words)?;
    Ok(line)
}

fn plan_of_shared(line: SharedLine) -> PlanLine
    ensures { result ≡ plan_of_shared line }
{
    match line {
        SharedLine::Cancel { call, code } => PlanLine::Cancel { call, code },
        SharedLine::Ask { call } => PlanLine::Ask { call },
        SharedLine::Poll { node } => PlanLine::Poll { node },
        SharedLine::Deliver { packet } => PlanLine::Deliver { packet },
        SharedLine::Clock { node, now } => PlanLine::Clock { node, now },
        SharedLine::Turn { node } => PlanLine::Turn { node },
        SharedLine::Rounds { rounds } => PlanLine::Rounds { rounds },
        SharedLine::Lossy { number, rounds } => PlanLine::Lossy { number, rounds },
    }
}

// ---- lines that make a node or a connection

fn server_line(words: &mut Pieces) -> Result<PlanLine, LineWhy>
    ensures { result ≡ server_line words.old }
{
    let host = host_word(words)?;
    let given = options_word(&SERVER_OPTIONS, words)?;
    Ok(PlanLine::Server {
        host,
        service: given.service(),
        limits: given.limits(),
        key: given.key,
        nonce: given.nonce(),
    })
}

/// Whether this is the host, where there is one.
pub fn is_host(server: Option<Host>, host: Host) -> bool
    ensures { result ≡ is_host server host }
{
    match server {
        None => false,
        Some(other) => other == host,
    }
}

/// The host of a client, which isn't that of the server.
fn client_host(server: Option<Host>, words: &mut Pieces) -> Result<Host, LineWhy>
    ensures read { result ≡ first_as (new_host (is_host server)) words.old }
    ensures rest { words.new ≡ drop 1 words.old }
{
    let host = host_word(words)?;
    if is_host(server, host) {
        return Err(LineWhy::Twice);
    }
    Ok(host)
}

fn client_line(server: Option<Host>, words: &mut Pieces) -> Result<PlanLine, LineWhy>
    ensures { result ≡ client_line (is_host server) words.old }
{
    let host = client_host(server, words)?;
    let epoch = epoch_word(words)?;
    let given = options_word(&CLIENT_OPTIONS, words)?;
    Ok(PlanLine::Client {
        host,
        epoch,
        limits: given.limits(),
        key: given.key,
    })
}

fn connect_line(words: &mut Pieces) -> Result<PlanLine, LineWhy>
    ensures { result ≡ connect_line words.old }
{
    let client = name_word(words, CLIENT)?;
    let given = options_word(&CONNECT_OPTIONS, words)?;
    Ok(PlanLine::Connect {
        client,
        first: given.first(),
    })
}

// ---- lines with bytes

fn write_line(alloc: Global, words: &mut Pieces) -> Result<PlanLine, Refusal>
    ensures { IsAnswer (write_line words.old) result }
{
    let call = call_word(words)?;
    let bytes = bytes_word(alloc, words)?;
    no_more(words)?;
    match call {
        CallWord::Called(call) => Ok(PlanLine::Write { call, bytes }),
        CallWord::Accepted(call) => Ok(PlanLine::HandlerWrite { call, bytes }),
    }
}

fn forge_line(alloc: Global, words: &mut Pieces) -> Result<PlanLine, Refusal>
    ensures { IsAnswer (forge_line words.old) result }
{
    let node = node_word(words, Names::Plan)?;
    let host = host_word(words)?;
    let bytes = bytes_word(alloc, words)?;
    no_more(words)?;
    Ok(PlanLine::Forge { node, host, bytes })
}

// ---- lines of names and numbers

fn read_of(call: CallWord, max: u32) -> PlanLine
    ensures { result ≡ read_of call max }
{
    match call {
        CallWord::Called(call) => PlanLine::Read { call, max },
        CallWord::Accepted(call) => PlanLine::HandlerRead { call, max },
    }
}

fn numbers_line(verb: Verb, words: &mut Pieces) -> Result<PlanLine, LineWhy>
    ensures { result ≡ numbers_line verb words.old }
{
    match verb {
        Verb::Call => {
            let client = name_word(words, CLIENT)?;
            let cid = cid_word(words)?;
            ended(PlanLine::Call { client, cid }, words)
        }
        Verb::Shut => {
            let call = name_word(words, CALLED)?;
            ended(PlanLine::Shut { call }, words)
        }
        Verb::Read => {
            let call = call_word(words)?;
            let max = max_word(words)?;
            ended(read_of(call, max), words)
        }
        Verb::Accept => ended(PlanLine::Accept, words),
        Verb::Finish => {
            let call = name_word(words, ACCEPTED)?;
            let code = code_word(words)?;
            ended(PlanLine::Finish { call, code }, words)
        }
        Verb::Jumbo => {
            let first = name_word(words, PACKET)?;
            let last = name_word(words, PACKET)?;
            ended(PlanLine::Jumbo { first, last }, words)
        }
        other => Ok(plan_of_shared(shared_line(Names::Plan, other, words)?)),
    }
}

// ---- all lines

/// A line that holds no value, by its first word, where the server has this host.
fn plain_line(
    alloc: Global,
    server: Option<Host>,
    verb: Verb,
    words: &mut Pieces,
) -> Result<PlanLine, Refusal>
    ensures { IsAnswer (plain_line (is_host server) verb words.old) result }
{
    match verb {
        Verb::Server => Ok(server_line(words)?),
        Verb::Client => Ok(client_line(server, words)?),
        Verb::Connect => Ok(connect_line(words)?),
        Verb::Write => write_line(alloc, words),
        Verb::Forge => forge_line(alloc, words),
        other => Ok(numbers_line(other, words)?),
    }
}

fn invoke_of(call: Invocation) -> PlanLine
    ensures { plan_said result ≡ invoked (invocation_of call) }
{
    let Invocation {
        node,
        cid,
        proc,
        up,
        down,
        args,
    } = call;
    PlanLine::Invoke {
        client: node,
        cid,
        proc,
        up,
        down,
        args,
    }
}

/// A line, by its first word.
fn plan_by(
    alloc: Global,
    iface: &Interface,
    server: Option<Host>,
    verb: Verb,
    words: &mut Pieces,
) -> Result<PlanLine, Refusal>
    ensures { IsSeen plan_said (plan_by (types_of iface.now.types.items) (procs_of iface.now.procs.items)
        (is_host server) verb words.old) result }
{
    match verb {
        Verb::Invoke => Ok(invoke_of(invoke_line(alloc, iface, Names::Plan, words)?)),
        other => plain_line(alloc, server, other, words),
    }
}

/// The line that words say, where the server has this host.
pub fn plan_line(
    alloc: Global,
    iface: &Interface,
    server: Option<Host>,
    words: &mut Pieces,
) -> Result<PlanLine, Refusal>
    ensures { IsSeen plan_said (plan_line (types_of iface.now.types.items) (procs_of iface.now.procs.items)
        (is_host server) words.old) result }
{
    let first = words.next().ok_or(LineWhy::Word)?;
    let verb = verb_in(first).ok_or(LineWhy::Word)?;
    plan_by(alloc, iface, server, verb, words)
}
