//! The lines of plans of peers, a row for each.

ghost use Rattle.std.specs.Prelude.{◌≡◌, drop};
ghost use Rattle.xdr_value.specs.View.{types_of, procs_of};
ghost use Rattle.rx_script.specs.Hosts.{has_host};
ghost use Rattle.rx_script.specs.Reading.{IsAnswer, IsSeen};
ghost use Rattle.rx_script.specs.Rows.{peer_node_line, new_host, plain_peer_line, peer_by, peer_line, peer_of_shared};
ghost use Rattle.rx_script.specs.Saying.{peer_said, invoked};
ghost use Rattle.rx_script.specs.Views.{invocation_of};
ghost use Rattle.rx_script.specs.Words.{first_as, end};

use crate::fault::{LineWhy, Refusal};
use crate::marks::PEER;
use crate::options::{PEER_OPTIONS, options_word};
use crate::pieces::Pieces;
use crate::plan::PeerLine;
use crate::shared::{Invocation, SharedLine, invoke_line, shared_line};
use crate::taken::Taken;
use crate::verb::{Verb, verb_in};
use crate::words::{Names, epoch_word, host_word, name_word, no_more};
use rx_model::Host;
use std::alloc::Global;
use xdr_value::Interface;

fn peer_of_shared(line: SharedLine) -> PeerLine
    ensures { result ≡ peer_of_shared line }
{
    match line {
        SharedLine::Cancel { call, code } => PeerLine::Cancel { call, code },
        SharedLine::Ask { call } => PeerLine::Ask { call },
        SharedLine::Poll { node } => PeerLine::Poll { peer: node },
        SharedLine::Deliver { packet } => PeerLine::Deliver { packet },
        SharedLine::Clock { node, now } => PeerLine::Clock { peer: node, now },
        SharedLine::Turn { node } => PeerLine::Turn { peer: node },
        SharedLine::Rounds { rounds } => PeerLine::Rounds { rounds },
        SharedLine::Lossy { number, rounds } => PeerLine::Lossy { number, rounds },
    }
}

/// The host of a peer, which no other has.
fn peer_host(taken: &Taken, words: &mut Pieces) -> Result<Host, LineWhy>
    ensures read { result ≡ first_as (new_host (has_host taken.now)) words.old }
    ensures rest { words.new ≡ drop 1 words.old }
{
    let host = host_word(words)?;
    if taken.has(host) {
        return Err(LineWhy::Twice);
    }
    Ok(host)
}

fn peer_node_line(taken: &Taken, words: &mut Pieces) -> Result<PeerLine, LineWhy>
    ensures { result ≡ peer_node_line (has_host taken.now) words.old }
{
    let host = peer_host(taken, words)?;
    let epoch = epoch_word(words)?;
    let given = options_word(&PEER_OPTIONS, words)?;
    Ok(PeerLine::Peer {
        host,
        epoch,
        service: given.service(),
        limits: given.limits(),
    })
}

/// A line that holds no value, by its first word, where these hosts are taken.
fn plain_peer_line(taken: &Taken, verb: Verb, words: &mut Pieces) -> Result<PeerLine, LineWhy>
    ensures { result ≡ plain_peer_line (has_host taken.now) verb words.old }
{
    match verb {
        Verb::Peer => peer_node_line(taken, words),
        Verb::Connect => {
            let peer = name_word(words, PEER)?;
            let to = name_word(words, PEER)?;
            no_more(words)?;
            Ok(PeerLine::Connect { peer, to })
        }
        other => Ok(peer_of_shared(shared_line(Names::Peers, other, words)?)),
    }
}

fn invoke_of(call: Invocation) -> PeerLine
    ensures { peer_said result ≡ invoked (invocation_of call) }
{
    let Invocation {
        node,
        cid,
        proc,
        up,
        down,
        args,
    } = call;
    PeerLine::Invoke {
        peer: node,
        cid,
        proc,
        up,
        down,
        args,
    }
}

/// A line, by its first word.
fn peer_by(
    alloc: Global,
    iface: &Interface,
    taken: &Taken,
    verb: Verb,
    words: &mut Pieces,
) -> Result<PeerLine, Refusal>
    ensures { IsSeen peer_said (peer_by (types_of iface.now.types.items) (procs_of iface.now.procs.items)
        (has_host taken.now) verb words.old) result }
{
    match verb {
        Verb::Invoke => Ok(invoke_of(invoke_line(alloc, iface, Names::Peers, words)?)),
        other => Ok(plain_peer_line(taken, other, words)?),
    }
}

/// The line that words say, where these hosts are taken.
pub fn peer_line(
    alloc: Global,
    iface: &Interface,
    taken: &Taken,
    words: &mut Pieces,
) -> Result<PeerLine, Refusal>
    ensures { IsSeen peer_said (peer_line (types_of iface.now.types.items) (procs_of iface.now.procs.items)
        (has_host taken.now) words.old) result }
{
    let first = words.next().ok_or(LineWhy::Word)?;
    let verb = verb_in(first).ok_or(LineWhy::Word)?;
    peer_by(alloc, iface, taken, verb, words)
}
