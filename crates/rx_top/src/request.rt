//! The request of a call: the values that a text says, and the upload behind them.

ghost use Rattle.std.specs.Prelude.{◌≡◌, ◌≢◌, ◌≤◌, ◌+◌, List, ℕ, IfErr, IfOk, IsSomeAnd, None, Ok, Err, drop, take};
ghost use Rattle.std.specs.Prelude.{true, vec_len};
ghost use Rattle.std.specs.List.{Contains};
ghost use Rattle.rx_base.specs.Count.{one_more};
ghost use Rattle.xdr_json.specs.Args.{AreArgs, args_in};
ghost use Rattle.xdr_value.specs.Data.{Procedure, Types};
ghost use Rattle.xdr_value.specs.View.{proc_of, procs_of, types_of, values_of};
ghost use Rattle.rx_top.specs.Calls.{EndsAtUpload, EndsAtValues, HasUpload, IsSent, RefusesUpload, SaysRequest};
ghost use Rattle.rx_top.specs.Inputs.{Gives, read_on};
ghost use Rattle.rx_top.specs.Outside.{Counts, OnlyFiles, is_plain, reads_of};
ghost use Rattle.rx_top.specs.Wires.{wire_status, wire_status_in};

use crate::around::Surroundings;
use crate::outcome::SimOutcome;
use crate::wire_outcome::{ArgsFault, WireOutcome};
use rx_base::ReadFault;
use rx_reply::{MAX_COUNTED_BYTES, request_bytes, set_count};
use std::alloc::Global;
use stub_table::StubFault;
use xdr_json::{JsonFault, args_from_json};
use xdr_value::{Interface, Proc, Value};
use xg_lex::Text;

/// The request of the values that a text says for a procedure, without an upload, where they are those of a request.
pub fn said_by<'a>(
    alloc: Global,
    iface: &Interface,
    p: &Proc,
    text: &str,
) -> Result<Vec<u8>, WireOutcome<'a>>
    requires { Contains (procs_of iface.now.procs.items) (proc_of p.now) }
    ensures ok { IfOk result (λ request. SaysRequest (types_of iface.now.types.items) (proc_of p.now) text.now
        request.items) }
    ensures err { IfErr result (λ o. EndsAtValues o (types_of iface.now.types.items) (proc_of p.now) text.now) }
    ensures plain { is_plain (wire_status_in result) ≡ true }
    ensures noted { result ≢ Err WireOutcome.Unnoted }
{
    match args_from_json(alloc, iface, &p.args, text) {
        Ok(values) => spelled(alloc, iface, p, &values),
        Err(fault) => Err(misfit(fault)),
    }
}

/// The same of values that a text says.
fn spelled<'a>(
    alloc: Global,
    iface: &Interface,
    p: &Proc,
    values: &[Value],
) -> Result<Vec<u8>, WireOutcome<'a>>
    requires { Contains (procs_of iface.now.procs.items) (proc_of p.now) }
    ensures ok { (text : List ℕ)
        → args_in (types_of iface.now.types.items) (proc_of p.now).params text ≡ Some (Ok (values_of values.now))
        → IfOk result (λ request. SaysRequest (types_of iface.now.types.items) (proc_of p.now) text request.items) }
    ensures err { (text : List ℕ)
        → args_in (types_of iface.now.types.items) (proc_of p.now).params text ≡ Some (Ok (values_of values.now))
        → IfErr result (λ o. EndsAtValues o (types_of iface.now.types.items) (proc_of p.now) text) }
    ensures plain { is_plain (wire_status_in result) ≡ true }
    ensures noted { result ≢ Err WireOutcome.Unnoted }
{
    match request_bytes(alloc, iface, p, values, None) {
        Ok(request) => Ok(request),
        Err(StubFault::Code(code)) => Err(WireOutcome::BadArgs(ArgsFault::Code(code))),
        Err(StubFault::OutOfMemory) => Err(WireOutcome::OutOfMemory),
    }
}

/// The outcome of values that don't fit.
fn misfit<'a>(fault: JsonFault) -> WireOutcome<'a>
    ensures ends { (t : Types) (p : Procedure) (text : List ℕ) → AreArgs t p.params text (Err fault)
        → EndsAtValues result t p text }
    ensures plain { is_plain (wire_status result) ≡ true }
    ensures noted { result ≢ WireOutcome.Unnoted }
{
    match fault {
        JsonFault::NotJson => WireOutcome::BadArgs(ArgsFault::NotJson),
        JsonFault::Mismatch { path, want } => WireOutcome::BadArgs(ArgsFault::Mismatch {
            path,
            want,
        }),
        JsonFault::OutOfMemory => WireOutcome::OutOfMemory,
    }
}

/// The bytes of a request, with the upload behind it that the named file is, if one is named.
pub fn sent_with<'a, X: Surroundings>(
    request: Vec<u8>,
    up: &'a Option<Text>,
    x: &mut X,
) -> Result<Vec<u8>, WireOutcome<'a>>
    ensures ok { IfOk result (λ bytes. IsSent (X.told x.old).files.contents up.now request.items bytes.items) }
    ensures err { IfErr result (λ o. IsSomeAnd up.now (λ name. EndsAtUpload o name
        (reads_of (X.told x.old) (X.told x.new)))) }
    ensures counts { Counts (wire_status_in result) (X.told x.old) (X.told x.new) }
    ensures only { OnlyFiles (X.told x.old) (X.told x.new) }
    ensures noted { result ≢ Err WireOutcome.Unnoted }
    ensures reads { IfOk result (λ bytes. (X.told x.new).files.reads ≡ read_on up.now (X.told x.old).files.reads) }
{
    match up {
        None => Ok(request),
        Some(name) => upload_file(request, name.as_str(), x),
    }
}

/// The bytes of a request, with the upload behind it that this file is.
fn upload_file<'a, X: Surroundings>(
    mut request: Vec<u8>,
    name: &'a str,
    x: &mut X,
) -> Result<Vec<u8>, WireOutcome<'a>>
    ensures ok { IfOk result (λ bytes. Gives (X.told x.old).files.contents name.now
        (λ upload. HasUpload request.items upload bytes.items)) }
    ensures err { IfErr result
        (λ o. EndsAtUpload o name.now (reads_of (X.told x.old) (X.told x.new))) }
    ensures counts { Counts (wire_status_in result) (X.told x.old) (X.told x.new) }
    ensures only { OnlyFiles (X.told x.old) (X.told x.new) }
    ensures noted { result ≢ Err WireOutcome.Unnoted }
    ensures reads { IfOk result (λ bytes. (X.told x.new).files.reads ≡ one_more (X.told x.old).files.reads) }
{
    let at = request.len();
    // Room for the upload's count, which is known once it is read: so it is read to where it is sent from.
    if request.extend_from_slice(&[0; 4]).is_err() {
        return Err(WireOutcome::OutOfMemory);
    }
    match x.read_behind(request, name) {
        Ok(bytes) => uploaded(bytes, at),
        Err(ReadFault::Failed) => Err(WireOutcome::Input(SimOutcome::FileFault { file: name })),
        Err(ReadFault::OutOfMemory) => Err(WireOutcome::OutOfMemory),
    }
}

/// The same bytes, the upload behind room for its count from this place on.
fn uploaded<'a>(mut bytes: Vec<u8>, at: usize) -> Result<Vec<u8>, WireOutcome<'a>>
    requires { at + 4 ≤ vec_len bytes }
    ensures ok { IfOk result (λ sent. HasUpload (take at bytes.items) (drop (at + 4) bytes.items) sent.items) }
    ensures err { IfErr result (λ o. RefusesUpload o (drop (at + 4) bytes.items)) }
    ensures plain { is_plain (wire_status_in result) ≡ true }
    ensures noted { result ≢ Err WireOutcome.Unnoted }
{
    if bytes.len() - (at + 4) > MAX_COUNTED_BYTES as usize {
        return Err(WireOutcome::BadArgs(ArgsFault::Number));
    }
    set_count(bytes.as_mut_slice(), at);
    Ok(bytes)
}
