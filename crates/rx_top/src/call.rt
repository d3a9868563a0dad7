//! The command that makes one call over a wire.

ghost use Rattle.std.specs.Prelude.{◌≡◌, true};
ghost use Rattle.xg_check.specs.Meaning.{interface_of};
ghost use Rattle.rx_top.specs.Asked.{HasProc, asked_by};
ghost use Rattle.rx_top.specs.Calls.{CallsAtKey, CallsAtProc, CallsAtStreams, CallsAtUpload, CallsAtValues, CallsAtXg};
ghost use Rattle.rx_top.specs.Calls.{CanCall};
ghost use Rattle.rx_top.specs.Outside.{Counts, reads_of, wire_told};
ghost use Rattle.rx_top.specs.Wires.{wire_status};

use crate::around::Surroundings;
use crate::asked::Asked;
use crate::inputs::read_interface;
use crate::keys::named_class;
use crate::reply::call_with;
use crate::request::{said_by, sent_with};
use crate::wire_outcome::{ArgsFault, WireOutcome};
use rx_reply::proc_named;
use rx_wire_loop::Calling;
use rx_words::CallWords;
use std::alloc::Global;
use xdr_value::Interface;

/// Makes a call: its interface is read first, then its procedure and its values are judged, then the upload and the key
/// are read, each checked before the next.
pub fn call_files<'a, X: Surroundings>(
    alloc: Global,
    asked: &'a CallWords,
    calling: &Calling,
    x: &mut X,
) -> WireOutcome<'a>
    requires { CanCall calling.now }
    ensures call { CallsAtXg asked.now calling.now result (reads_of (X.told x.old) (X.told x.new))
        (wire_told (X.told x.old)) (wire_told (X.told x.new)) }
    ensures counts { Counts (wire_status result) (X.told x.old) (X.told x.new) }
    ensures unnoted { result ≡ WireOutcome.Unnoted → X.may_want ≡ true }
    ensures silent { (X.told x.new).err ≡ (X.told x.old).err }
{
    match read_interface(alloc, asked.xg.as_str(), x) {
        Ok(iface) => call_over(alloc, &iface, asked, calling, x),
        Err(outcome) => WireOutcome::Input(outcome),
    }
}

/// Goes on with an interface.
fn call_over<'a, X: Surroundings>(
    alloc: Global,
    iface: &Interface,
    asked: &'a CallWords,
    calling: &Calling,
    x: &mut X,
) -> WireOutcome<'a>
    requires { CanCall calling.now }
    ensures call { CallsAtProc (interface_of iface.now) asked.now calling.now result
        (reads_of (X.told x.old) (X.told x.new)) (wire_told (X.told x.old)) (wire_told (X.told x.new)) }
    ensures counts { Counts (wire_status result) (X.told x.old) (X.told x.new) }
    ensures unnoted { result ≡ WireOutcome.Unnoted → X.may_want ≡ true }
    ensures silent { (X.told x.new).err ≡ (X.told x.old).err }
{
    match proc_named(&iface.procs, asked.proc.as_str()) {
        Some(proc) => {
            let what = Asked {
                iface,
                proc,
                down: asked.down,
            };
            call_proc(alloc, &what, asked, calling, x)
        }
        None => WireOutcome::BadArgs(ArgsFault::Proc),
    }
}

/// Goes on with a procedure.
fn call_proc<'a, X: Surroundings>(
    alloc: Global,
    what: &Asked<'_>,
    asked: &'a CallWords,
    calling: &Calling,
    x: &mut X,
) -> WireOutcome<'a>
    requires calling { CanCall calling.now }
    requires one { HasProc what.now }
    ensures call { CallsAtStreams (asked_by what.now) asked.now calling.now result
        (reads_of (X.told x.old) (X.told x.new)) (wire_told (X.told x.old)) (wire_told (X.told x.new)) }
    ensures counts { Counts (wire_status result) (X.told x.old) (X.told x.new) }
    ensures unnoted { result ≡ WireOutcome.Unnoted → X.may_want ≡ true }
    ensures silent { (X.told x.new).err ≡ (X.told x.old).err }
{
    if !what.proc.split && (asked.up.is_some() || asked.down) {
        return WireOutcome::BadArgs(ArgsFault::Kind);
    }
    call_streams(alloc, what, asked, calling, x)
}

/// Goes on with a procedure that has the streams that are asked for.
fn call_streams<'a, X: Surroundings>(
    alloc: Global,
    what: &Asked<'_>,
    asked: &'a CallWords,
    calling: &Calling,
    x: &mut X,
) -> WireOutcome<'a>
    requires calling { CanCall calling.now }
    requires one { HasProc what.now }
    ensures call { CallsAtValues (asked_by what.now) asked.now calling.now result
        (reads_of (X.told x.old) (X.told x.new)) (wire_told (X.told x.old)) (wire_told (X.told x.new)) }
    ensures counts { Counts (wire_status result) (X.told x.old) (X.told x.new) }
    ensures unnoted { result ≡ WireOutcome.Unnoted → X.may_want ≡ true }
    ensures silent { (X.told x.new).err ≡ (X.told x.old).err }
{
    match said_by(alloc, what.iface, what.proc, asked.args.as_str()) {
        Ok(request) => call_said(alloc, what, request, asked, calling, x),
        Err(outcome) => outcome,
    }
}

/// Goes on with the request of the values.
fn call_said<'a, X: Surroundings>(
    alloc: Global,
    what: &Asked<'_>,
    request: Vec<u8>,
    asked: &'a CallWords,
    calling: &Calling,
    x: &mut X,
) -> WireOutcome<'a>
    requires calling { CanCall calling.now }
    requires one { HasProc what.now }
    ensures call { CallsAtUpload (asked_by what.now) asked.now calling.now request.items result
        (reads_of (X.told x.old) (X.told x.new)) (wire_told (X.told x.old)) (wire_told (X.told x.new)) }
    ensures counts { Counts (wire_status result) (X.told x.old) (X.told x.new) }
    ensures unnoted { result ≡ WireOutcome.Unnoted → X.may_want ≡ true }
    ensures silent { (X.told x.new).err ≡ (X.told x.old).err }
{
    match sent_with(request, &asked.up, x) {
        Ok(sent) => call_sent(alloc, what, sent, asked, calling, x),
        Err(outcome) => outcome,
    }
}

/// Goes on with the bytes that are sent.
fn call_sent<'a, X: Surroundings>(
    alloc: Global,
    what: &Asked<'_>,
    sent: Vec<u8>,
    asked: &'a CallWords,
    calling: &Calling,
    x: &mut X,
) -> WireOutcome<'a>
    requires calling { CanCall calling.now }
    requires one { HasProc what.now }
    ensures call { CallsAtKey (asked_by what.now) asked.now calling.now sent.items result
        (reads_of (X.told x.old) (X.told x.new)) (wire_told (X.told x.old)) (wire_told (X.told x.new)) }
    ensures counts { Counts (wire_status result) (X.told x.old) (X.told x.new) }
    ensures unnoted { result ≡ WireOutcome.Unnoted → X.may_want ≡ true }
    ensures silent { (X.told x.new).err ≡ (X.told x.old).err }
{
    match named_class(alloc, &asked.key, x) {
        Ok(class) => call_with(alloc, what, sent, calling, class, x),
        Err(outcome) => outcome,
    }
}
