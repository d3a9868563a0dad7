//! The call itself, and what is put of its reply.

ghost use Rattle.std.specs.Prelude.{◌≡◌, ◌≢◌, ◌++◌, codes, is_some, true, Err, IfOk};
ghost use Rattle.rx_base.specs.Sink.{HasRisen};
ghost use Rattle.rx_reply.specs.Replies.{printed_line, printed_of};
ghost use Rattle.rx_token.specs.Chosen.{chosen, secret_of};
ghost use Rattle.rx_top.specs.Asked.{HasProc, asked_by};
ghost use Rattle.rx_top.specs.Calls.{CallsServer, CanCall, EndsByCall, EndsByCaller, EndsByPut, EndsByReply};
ghost use Rattle.rx_top.specs.Calls.{IsFinished};
ghost use Rattle.rx_top.specs.Outside.{Counts, CountsPut, OnlyOut, wire_told};
ghost use Rattle.rx_top.specs.Wires.{wire_status};

use crate::around::Surroundings;
use crate::asked::Asked;
use crate::status::Status;
use crate::wire_outcome::WireOutcome;
use rx_base::Failed;
use rx_caller::Caller;
use rx_model::End;
use rx_reply::{ReplyParts, reply_parts};
use rx_token::Chosen;
use rx_wire_loop::{CallEnd, Calling, Stop, calls_tell};
use std::alloc::{AllocError, Global};

/// Makes the call with this request.
pub fn call_with<'a, X: Surroundings>(
    alloc: Global,
    what: &Asked<'_>,
    request: Vec<u8>,
    calling: &Calling,
    class: Chosen,
    x: &mut X,
) -> WireOutcome<'a>
    requires calling { CanCall calling.now }
    requires one { HasProc what.now }
    ensures call { CallsServer (asked_by what.now) calling.now request.items (chosen (secret_of class)) result
        (wire_told (X.told x.old)) (wire_told (X.told x.new)) }
    ensures counts { Counts (wire_status result) (X.told x.old) (X.told x.new) }
    ensures unnoted { result ≡ WireOutcome.Unnoted → X.may_want ≡ true }
    ensures silent { (X.told x.new).err ≡ (X.told x.old).err }
    ensures same_files { (X.told x.new).files ≡ (X.told x.old).files }
{
    calls_tell();
    let result = x.call(alloc, request, calling, class);
    called(alloc, what, result, calling.turns, x)
}

/// The outcome of a call with so many takes at most.
fn called<'a, X: Surroundings>(
    alloc: Global,
    what: &Asked<'_>,
    got: Result<CallEnd, Stop>,
    turns: u64,
    x: &mut X,
) -> WireOutcome<'a>
    requires one { HasProc what.now }
    requires no_sink { got ≢ Err Stop.SinkFault }
    requires no_line { got ≢ Err Stop.Unformatted }
    requires finished { IfOk got IsFinished }
    ensures ends { EndsByCall (asked_by what.now) turns got result (X.told x.old).out (X.told x.new).out }
    ensures unnoted { result ≡ WireOutcome.Unnoted → got ≡ Err Stop.Unnoted }
    ensures wire_fault { wire_status result ≡ Status.WireFault → got ≡ Err Stop.WireFault }
    ensures no_wire_fault { wire_status result ≢ Status.WireFault → got ≢ Err Stop.WireFault }
    ensures no_file_fault { wire_status result ≢ Status.FileFault }
    ensures sink_fault { wire_status result ≡ Status.SinkFault
        → HasRisen (X.told x.old).out.faults (X.told x.new).out.faults }
    ensures no_sink_fault { wire_status result ≢ Status.SinkFault
        → (X.told x.new).out.faults ≡ (X.told x.old).out.faults }
    ensures only { OnlyOut (X.told x.old) (X.told x.new) }
{
    match got {
        Ok(CallEnd::Ended(caller)) => ended(alloc, what, &caller, x),
        Ok(CallEnd::TurnsSpent) => WireOutcome::TurnsSpent { turns },
        Err(Stop::SinkFault | Stop::Unformatted) => unreachable!(),
        Err(Stop::WireFault) => WireOutcome::WireFault,
        Err(Stop::OutOfMemory | Stop::Endless) => WireOutcome::OutOfMemory,
        Err(Stop::Unnoted) => WireOutcome::Unnoted,
    }
}

/// The outcome of a call that ended.
fn ended<'a, X: Surroundings>(
    alloc: Global,
    what: &Asked<'_>,
    caller: &Caller,
    x: &mut X,
) -> WireOutcome<'a>
    requires one { HasProc what.now }
    requires finished { is_some caller.now.end ≡ true }
    ensures ended { EndsByCaller (asked_by what.now) caller.now result (X.told x.old).out (X.told x.new).out }
    ensures counts { CountsPut (wire_status result) (X.told x.old) (X.told x.new) }
    ensures noted { result ≢ WireOutcome.Unnoted }
{
    match caller.ended() {
        Some(End::Ok) => put_reply(alloc, what, caller.reply(), x),
        Some(End::Abort(code)) => WireOutcome::Aborted { code },
        Some(End::Dead(silence)) => WireOutcome::Dead { silence },
        Some(End::Cancelled(_)) => WireOutcome::BadReply,
        None => unreachable!(),
    }
}

/// Puts what a reply says.
fn put_reply<'a, X: Surroundings>(
    alloc: Global,
    what: &Asked<'_>,
    reply: &[u8],
    x: &mut X,
) -> WireOutcome<'a>
    requires { HasProc what.now }
    ensures put { EndsByReply (asked_by what.now) reply.now result (X.told x.old).out (X.told x.new).out }
    ensures counts { CountsPut (wire_status result) (X.told x.old) (X.told x.new) }
    ensures noted { result ≢ WireOutcome.Unnoted }
{
    match reply_parts(alloc, what.iface, what.proc, what.down, reply) {
        Ok(Some(parts)) => put_line(&parts, x),
        Ok(None) => WireOutcome::BadReply,
        Err(AllocError) => WireOutcome::OutOfMemory,
    }
}

/// Puts the line of a reply with these parts.
fn put_line<'a, X: Surroundings>(parts: &ReplyParts<'_>, x: &mut X) -> WireOutcome<'a>
    ensures put { EndsByPut result (codes "ok " ++ printed_line (printed_of parts.now) ++ codes "\n")
        (X.told x.old).out (X.told x.new).out }
    ensures counts { CountsPut (wire_status result) (X.told x.old) (X.told x.new) }
    ensures noted { result ≢ WireOutcome.Unnoted }
{
    match x.put_reply(parts) {
        Ok(()) => WireOutcome::Done,
        Err(Failed) => WireOutcome::SinkFault,
    }
}
