//! The reader of plans of peers.

ghost use Rattle.std.specs.Prelude.{◌≡◌, ◌≤◌, ◌++◌, ◌∷◌, [], IfOk, IfErr, OnOk};
ghost use Rattle.xdr_value.specs.View.{types_of, procs_of};
ghost use Rattle.std.specs.Option.{option_to_list};
ghost use Rattle.rx_script.specs.Plans.{peer_plan_of, peer_step, peer_hosts, peer_in};
ghost use Rattle.rx_script.specs.Reading.{IsFaultOf};
ghost use Rattle.rx_script.specs.Saying.{peer_rows, peer_said};
ghost use Rattle.rx_script.specs.Texts.{with_line};

use crate::fault::{LineFault, LineWhy, Refusal};
use crate::limits::MAX_LINES;
use crate::marks::SPACE;
use crate::peer_rows::peer_line;
use crate::pieces::{Lines, Pieces};
use crate::plan::{PeerLine, PeerNumbered, PeerPlan};
use crate::skipped::is_skipped;
use crate::taken::Taken;
use rx_model::Host;
use std::alloc::{AllocError, Global};
use xdr_value::Interface;

/// The lines so far, with the hosts of the peers among them.
#[derive(Drop)]
struct Draft {
    lines: Vec<PeerNumbered>,
    taken: Taken,
    ghost hosts: { taken ≡ peer_hosts (peer_rows lines.items) },
}

/// The host that a line names, if it makes a peer.
fn peer_in(what: &PeerLine) -> Option<Host>
    ensures { option_to_list result ≡ peer_in (peer_said what.now) }
{
    match what {
        PeerLine::Peer { host, .. } => Some(*host),
        PeerLine::Connect { .. } | PeerLine::Invoke { .. } | PeerLine::Cancel { .. } => None,
        PeerLine::Ask { .. } | PeerLine::Poll { .. } | PeerLine::Deliver { .. } => None,
        PeerLine::Clock { .. } | PeerLine::Turn { .. } | PeerLine::Rounds { .. } => None,
        PeerLine::Lossy { .. } => None,
    }
}

/// These hosts, and that of one more line.
fn taken_with(taken: Taken, what: &PeerLine) -> Result<Taken, AllocError>
    ensures { IfOk result (λ next. next ≡ taken ++ peer_in (peer_said what.now)) }
{
    match peer_in(what) {
        None => Ok(taken),
        Some(host) => Ok(taken.with(host)?),
    }
}

fn no_lines(alloc: Global) -> Draft
    ensures { peer_rows result.lines.items ≡ [] }
{
    Draft {
        lines: Vec::new(alloc),
        taken: Taken::new(alloc),
    }
}

/// These lines, and one more.
fn with(draft: Draft, line: u32, what: PeerLine) -> Result<Draft, AllocError>
    ensures { IfOk result (λ next.
        peer_rows next.lines.items ≡ peer_rows draft.lines.items ++ (line, peer_said what) ∷ []) }
{
    let Draft { mut lines, taken } = draft;
    let taken = taken_with(taken, &what)?;
    lines.push(PeerNumbered { line, what })?;
    Ok(Draft { lines, taken })
}

/// The lines so far and one more of the text, which has this number.
fn with_line(
    alloc: Global,
    iface: &Interface,
    number: u32,
    line: &str,
    draft: Draft,
) -> Result<Draft, LineFault>
    ensures ok { IfOk result (λ next. with_line
        (peer_step (types_of iface.now.types.items) (procs_of iface.now.procs.items)) number line.now
        (peer_rows draft.lines.items) ≡ Ok (peer_rows next.lines.items)) }
    ensures within { OnOk result (number ≤ MAX_LINES) }
    ensures err { IfErr result (IsFaultOf (with_line
        (peer_step (types_of iface.now.types.items) (procs_of iface.now.procs.items)) number line.now
        (peer_rows draft.lines.items))) }
{
    if number > MAX_LINES {
        return Err(LineFault::BadLine {
            line: number,
            why: LineWhy::TooMany,
        });
    }
    if is_skipped(line) {
        return Ok(draft);
    }
    match peer_line(alloc, iface, &draft.taken, &mut Pieces::of(line, SPACE)) {
        Ok(what) => Ok(with(draft, number, what)?),
        Err(Refusal::Bad(why)) => Err(LineFault::BadLine { line: number, why }),
        Err(Refusal::OutOfMemory) => Err(LineFault::OutOfMemory),
    }
}

/// Reads a plan of peers, whose calls are those of the interface. It answers the first line that
/// isn't taken, and why.
pub fn read_peer_plan(alloc: Global, iface: &Interface, text: &str) -> Result<PeerPlan, LineFault>
    ensures ok { IfOk result (λ plan. peer_plan_of (types_of iface.now.types.items) (procs_of iface.now.procs.items)
        text.now ≡ Ok (peer_rows plan.lines.items)) }
    ensures err { IfErr result (IsFaultOf
        (peer_plan_of (types_of iface.now.types.items) (procs_of iface.now.procs.items) text.now)) }
{
    let mut draft = no_lines(alloc);
    let mut lines = Lines::of(text);
    let mut number = 0;
    while let Some(line) = lines.next() {
        number += 1;
        draft = with_line(alloc, iface, number, line, draft)?;
    }
    let Draft { lines, taken: _ } = draft;
    Ok(PeerPlan { lines })
}
