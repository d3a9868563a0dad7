//! The answer lines: what became of each invoke.
ghost use Rattle.std.specs.Prelude.{◌≡◌, List, IfOk, Option, None, Some, option_map};
ghost use Rattle.std.specs.String.{string_bytes};
ghost use Rattle.rx_model.specs.Text.{end_text};
ghost use Rattle.rx_model.specs.declared.event.Noted.{Noted};
ghost use Rattle.xdr_value.specs.View.{procs_of, types_of};
ghost use Rattle.rx_plan.specs.Answers.{answer_line, answer_lines, answer_of, asked_by, asked_of, line_for, ok_text};
ghost use Rattle.rx_plan.specs.Answers.{said};
ghost use Rattle.rx_stage.specs.Showing.{PutsBy};
ghost use Rattle.rx_stage.specs.Tells.{told};

use crate::invokes::Invoked;
use crate::world::World;
use rx_base::Sink;
use rx_model::End;
use rx_reply::{proc_named, reply_text};
use rx_script::{Numbered, Outcome, PlanLine};
use std::alloc::{AllocError, Global};
use xdr_value::Interface;

impl World {
    /// Puts the answer line of each caller, by call number.
    pub fn answers<O: Sink>(
        &self,
        iface: &Interface,
        plan: &[Numbered],
        out: &mut O,
    ) -> Result<(), Outcome>
        ensures { (noted : Option (List Noted)) → PutsBy result (told noted (O.told out.old) (O.faults out.old))
            (told noted (O.told out.new) (O.faults out.new))
            (answer_lines (types_of iface.now.types.items) (procs_of iface.now.procs.items) plan.now self.now.callers) }
    {
        for invoked in self.callers.as_slice() {
            put_answer(self.alloc, iface, plan, invoked, out)?;
        }
        Ok(())
    }
}

/// Puts the answer line of a caller.
fn put_answer<O: Sink>(
    alloc: Global,
    iface: &Interface,
    plan: &[Numbered],
    invoked: &Invoked,
    out: &mut O,
) -> Result<(), Outcome>
    ensures { (noted : Option (List Noted)) → PutsBy result (told noted (O.told out.old) (O.faults out.old))
        (told noted (O.told out.new) (O.faults out.new))
        (answer_line (types_of iface.now.types.items) (procs_of iface.now.procs.items) plan.now invoked.now) }
{
    let Ok(text) = answer_line(alloc, iface, plan, invoked) else {
        return Err(Outcome::OutOfMemory);
    };
    match out.put(text.as_bytes()) {
        Ok(()) => Ok(()),
        Err(_) => Err(Outcome::SinkFault),
    }
}

/// The answer line of a caller, with its line feed.
fn answer_line(
    alloc: Global,
    iface: &Interface,
    plan: &[Numbered],
    invoked: &Invoked,
) -> Result<String, AllocError>
    ensures { IfOk result (λ text. string_bytes text
        ≡ answer_line (types_of iface.now.types.items) (procs_of iface.now.procs.items) plan.now invoked.now) }
{
    let says = said(alloc, iface, plan.get(invoked.line), invoked.caller.reply())?;
    match invoked.caller.ended() {
        None => open_line(alloc, invoked.call),
        Some(end) => ended_line(alloc, invoked.call, says, end),
    }
}

/// That of a call that didn't end.
fn open_line(alloc: Global, call: usize) -> Result<String, AllocError>
    ensures { IfOk result (λ text. string_bytes text ≡ line_for call (answer_of None None)) }
{
    format!(in alloc; "answer #{call} open\n")
}

/// That of a call that ended, whose reply says something or doesn't.
fn ended_line(
    alloc: Global,
    call: usize,
    says: Option<String>,
    end: End,
) -> Result<String, AllocError>
    ensures { IfOk result (λ text. string_bytes text
        ≡ line_for call (answer_of (option_map string_bytes says) (Some end))) }
{
    match end {
        End::Ok => ok_line(alloc, call, says),
        End::Abort(_) | End::Dead(_) | End::Cancelled(_) => end_line(alloc, call, end),
    }
}

/// That of a call with its end.
fn end_line(alloc: Global, call: usize, end: End) -> Result<String, AllocError>
    ensures { IfOk result (λ text. string_bytes text ≡ line_for call (end_text end)) }
{
    format!(in alloc; "answer #{call} {end}\n")
}

/// That of a call whose reply was read to its end.
fn ok_line(alloc: Global, call: usize, says: Option<String>) -> Result<String, AllocError>
    ensures { IfOk result (λ text. string_bytes text ≡ line_for call (ok_text (option_map string_bytes says))) }
{
    match says {
        Some(text) => said_line(alloc, call, text.as_str()),
        None => bad_line(alloc, call),
    }
}

/// That of a call whose reply says this.
fn said_line(alloc: Global, call: usize, says: &str) -> Result<String, AllocError>
    ensures { IfOk result (λ text. string_bytes text ≡ line_for call (ok_text (Some says.now))) }
{
    format!(in alloc; "answer #{call} ok {says}\n")
}

/// That of a call whose reply says nothing.
fn bad_line(alloc: Global, call: usize) -> Result<String, AllocError>
    ensures { IfOk result (λ text. string_bytes text ≡ line_for call (ok_text None)) }
{
    format!(in alloc; "answer #{call} bad -451\n")
}

/// What the reply of an invoke says, if it says something.
fn said(
    alloc: Global,
    iface: &Interface,
    numbered: Option<&Numbered>,
    reply: &[u8],
) -> Result<Option<String>, AllocError>
    ensures { IfOk result (λ text. option_map string_bytes text ≡ said (types_of iface.now.types.items)
        (procs_of iface.now.procs.items) reply.now (asked_of (option_map (λ n. n.now) numbered.entry))) }
{
    match numbered {
        Some(numbered) => said_by(alloc, iface, &numbered.what, reply),
        None => Ok(None),
    }
}

/// The same, where its line is this one.
fn said_by(
    alloc: Global,
    iface: &Interface,
    line: &PlanLine,
    reply: &[u8],
) -> Result<Option<String>, AllocError>
    ensures { IfOk result (λ text. option_map string_bytes text ≡ said (types_of iface.now.types.items)
        (procs_of iface.now.procs.items) reply.now (asked_by line.now)) }
{
    let PlanLine::Invoke { proc, down, .. } = line else {
        return Ok(None);
    };
    said_of(alloc, iface, proc.as_str(), *down, reply)
}

/// The same, where this procedure was asked for.
fn said_of(
    alloc: Global,
    iface: &Interface,
    proc: &str,
    down: bool,
    reply: &[u8],
) -> Result<Option<String>, AllocError>
    ensures { IfOk result (λ text. option_map string_bytes text ≡ said (types_of iface.now.types.items)
        (procs_of iface.now.procs.items) reply.now (Some (record { proc = proc.now; down = down }))) }
{
    match proc_named(&iface.procs, proc) {
        Some(p) => reply_text(alloc, iface, p, down, reply),
        None => Ok(None),
    }
}
