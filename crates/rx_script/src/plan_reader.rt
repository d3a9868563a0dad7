//! The reader of plans.

ghost use Rattle.std.specs.Prelude.{◌≡◌, ◌≤◌, ◌++◌, ◌∷◌, [], IfOk, IfErr, OnOk};
ghost use Rattle.xdr_value.specs.View.{types_of, procs_of};
ghost use Rattle.rx_script.specs.Plans.{plan_of, plan_step, server_host, server_in};
ghost use Rattle.rx_script.specs.Reading.{IsFaultOf};
ghost use Rattle.rx_script.specs.Saying.{plan_rows, plan_said};
ghost use Rattle.rx_script.specs.Texts.{with_line};

use crate::fault::{LineFault, LineWhy, Refusal};
use crate::limits::MAX_LINES;
use crate::marks::SPACE;
use crate::pieces::{Lines, Pieces};
use crate::plan::{Numbered, Plan, PlanLine};
use crate::plan_rows::plan_line;
use crate::skipped::is_skipped;
use rx_model::Host;
use std::alloc::{AllocError, Global};
use xdr_value::Interface;

/// The lines so far, with the host of the first server line among them.
#[derive(Drop)]
struct Draft {
    lines: Vec<Numbered>,
    server: Option<Host>,
    ghost served: { server ≡ server_host (plan_rows lines.items) },
}

/// The host that a line names, if it makes the server.
fn server_in(what: &PlanLine) -> Option<Host>
    ensures { result ≡ server_in (plan_said what.now) }
{
    match what {
        PlanLine::Server { host, .. } => Some(*host),
        PlanLine::Client { .. } | PlanLine::Connect { .. } | PlanLine::Call { .. } => None,
        PlanLine::Write { .. } | PlanLine::Shut { .. } | PlanLine::Read { .. } => None,
        PlanLine::Ask { .. } | PlanLine::Cancel { .. } | PlanLine::Accept => None,
        PlanLine::HandlerRead { .. } | PlanLine::HandlerWrite { .. } => None,
        PlanLine::Finish { .. } | PlanLine::Poll { .. } | PlanLine::Deliver { .. } => None,
        PlanLine::Jumbo { .. } | PlanLine::Forge { .. } | PlanLine::Clock { .. } => None,
        PlanLine::Invoke { .. } | PlanLine::Turn { .. } | PlanLine::Rounds { .. } => None,
        PlanLine::Lossy { .. } => None,
    }
}

fn no_lines(alloc: Global) -> Draft
    ensures { plan_rows result.lines.items ≡ [] }
{
    Draft {
        lines: Vec::new(alloc),
        server: None,
    }
}

/// These lines, and one more.
fn with(draft: Draft, line: u32, what: PlanLine) -> Result<Draft, AllocError>
    ensures { IfOk result (λ next.
        plan_rows next.lines.items ≡ plan_rows draft.lines.items ++ (line, plan_said what) ∷ []) }
{
    let Draft { mut lines, server } = draft;
    let server = server.or(server_in(&what));
    lines.push(Numbered { line, what })?;
    Ok(Draft { lines, server })
}

/// The lines so far and one more of the text, which has this number.
fn with_line(
    alloc: Global,
    iface: &Interface,
    number: u32,
    line: &str,
    draft: Draft,
) -> Result<Draft, LineFault>
    ensures ok { IfOk result (λ next. with_line
        (plan_step (types_of iface.now.types.items) (procs_of iface.now.procs.items)) number line.now
        (plan_rows draft.lines.items) ≡ Ok (plan_rows next.lines.items)) }
    ensures within { OnOk result (number ≤ MAX_LINES) }
    ensures err { IfErr result (IsFaultOf (with_line
        (plan_step (types_of iface.now.types.items) (procs_of iface.now.procs.items)) number line.now
        (plan_rows draft.lines.items))) }
{
    if number > MAX_LINES {
        return Err(LineFault::BadLine {
            line: number,
            why: LineWhy::TooMany,
        });
    }
    if is_skipped(line) {
        return Ok(draft);
    }
    match plan_line(alloc, iface, draft.server, &mut Pieces::of(line, SPACE)) {
        Ok(what) => Ok(with(draft, number, what)?),
        Err(Refusal::Bad(why)) => Err(LineFault::BadLine { line: number, why }),
        Err(Refusal::OutOfMemory) => Err(LineFault::OutOfMemory),
    }
}

/// Reads a plan of a server and its clients, whose calls are those of the interface. It answers the
/// first line that isn't taken, and why.
pub fn read_plan(alloc: Global, iface: &Interface, text: &str) -> Result<Plan, LineFault>
    ensures ok { IfOk result (λ plan. plan_of (types_of iface.now.types.items) (procs_of iface.now.procs.items) text.now
        ≡ Ok (plan_rows plan.lines.items)) }
    ensures err { IfErr result (IsFaultOf
        (plan_of (types_of iface.now.types.items) (procs_of iface.now.procs.items) text.now)) }
{
    let mut draft = no_lines(alloc);
    let mut lines = Lines::of(text);
    let mut number = 0;
    while let Some(line) = lines.next() {
        number += 1;
        draft = with_line(alloc, iface, number, line, draft)?;
    }
    let Draft { lines, server: _ } = draft;
    Ok(Plan { lines })
}
