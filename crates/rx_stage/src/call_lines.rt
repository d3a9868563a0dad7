//! Lines that start calls.
ghost use Rattle.std.specs.Prelude.{◌≡◌, [], IfErr, IfOk, OnOk, option_copied, option_map};
ghost use Rattle.std.specs.List.{Contains};
ghost use Rattle.hex.specs.Hex.{IsBytes};
ghost use Rattle.xdr_value.specs.View.{proc_of, procs_of, types_of, values_of};
ghost use Rattle.rx_jobs.specs.Handlers.{handlers_of};
ghost use Rattle.rx_reply.specs.Sent.{CanSend, sent_spelling};
ghost use Rattle.rx_script.specs.Procs.{proc_named};
ghost use Rattle.rx_plan.specs.Finds.{at_client};
ghost use Rattle.rx_plan.specs.Lines.{TakesArguments, bytes_of, calls, invokes};
ghost use Rattle.rx_stage.specs.LinesPlayed.{keeps_caller};
ghost use Rattle.rx_stage.specs.Ran.{stop_of};
ghost use Rattle.rx_stage.specs.Shown.{Plays, script_of};
ghost use Rattle.rx_plan.specs.Stages.{name_called, with_some};
ghost use Rattle.rx_stage.specs.Tells.{told};

use crate::invokes::Invoked;
use crate::stop::Stop;
use crate::world::World;
use rx_base::Sink;
use rx_caller::Caller;
use rx_model::{Bytes, CallName, Event};
use rx_plan::ClientCall;
use rx_reply::{proc_named, request_bytes};
use rx_script::Spelled;
use rx_wire::Journal;
use std::alloc::{AllocError, Global};
use stub_table::StubFault;
use xdr_value::{Interface, Proc, Value};

/// What an `invoke` line asks for: a call of a client, and a caller for it.
#[derive(Debug, Drop)]
pub struct Invoke {
    pub client: u32,
    pub cid: u32,
    /// The line's place in the plan.
    pub line: usize,
    /// What the caller says.
    pub bytes: Vec<u8>,
}

impl World {
    /// The client starts a call, whose name is kept.
    pub fn call_line<O: Sink, J: Journal>(
        &mut self,
        client: u32,
        cid: u32,
        out: &mut O,
        book: &mut J,
    ) -> Result<(), Stop>
        ensures plays { Plays (at_client client (calls cid)) self.old self.new (stop_of result)
            (told (J.told book.old) (O.told out.old) (O.faults out.old))
            (told (J.told book.new) (O.told out.new) (O.faults out.new)) }
        ensures script { script_of self.new ≡ script_of self.old }
    {
        let node = self.client(client)?;
        let event = self.nodes.call(node, cid);
        self.tell(node, &event, out, book)?;
        keep_called(&mut self.calls, node, &event)?;
        Ok(())
    }

    /// The client starts a call, and has a caller for it that says the bytes.
    pub fn invoke_line<O: Sink, J: Journal>(
        &mut self,
        invoke: Invoke,
        out: &mut O,
        book: &mut J,
    ) -> Result<(), Stop>
        ensures plays { Plays (at_client invoke.client (invokes invoke.line invoke.cid invoke.bytes.items))
            self.old self.new (stop_of result)
            (told (J.told book.old) (O.told out.old) (O.faults out.old))
            (told (J.told book.new) (O.told out.new) (O.faults out.new)) }
        ensures script { script_of self.new ≡ script_of self.old }
    {
        let node = self.client(invoke.client)?;
        are_bytes(&invoke.bytes);
        let event = self.nodes.call(node, invoke.cid);
        self.tell(node, &event, out, book)?;
        keep_called(&mut self.calls, node, &event)?;
        self.keep_caller(node, invoke.line, invoke.bytes, &event)
    }

    /// Keeps a caller for the call that was answered.
    fn keep_caller(
        &mut self,
        node: u32,
        line: usize,
        bytes: Vec<u8>,
        event: &Event,
    ) -> Result<(), Stop>
        ensures kept { OnOk result (self.new ≡ keeps_caller node line bytes.items (name_called event.now) self.old) }
        ensures wanting { IfErr result (λ stop. stop ≡ Stop.OutOfMemory) }
        ensures script { script_of self.new ≡ script_of self.old }
    {
        let Some(name) = called(event) else {
            return Ok(());
        };
        let caller = Caller::make(self.alloc, name, bytes);
        let call = self.calls.len();
        self.callers.push(Invoked {
            call,
            node,
            line,
            caller,
        })?;
        Ok(())
    }
}

/// The name that a call answered.
fn called(event: &Event) -> Option<CallName>
    ensures { result ≡ name_called event.now }
{
    match event {
        Event::Called { got, .. } => match got {
            Ok(name) => Some(*name),
            Err(_) => None,
        },
        Event::Linked { .. } | Event::Wrote { .. } | Event::Shut { .. } | Event::HasRead { .. } =>
            None,
        Event::Ended { .. } | Event::Cancelled { .. } | Event::Accepted { .. } => None,
        Event::Finished { .. } | Event::Taken { .. } | Event::Polled { .. } => None,
        Event::Clocked { .. } => None,
    }
}

/// Keeps the name that a call answered.
fn keep_called(calls: &mut Vec<ClientCall>, node: u32, event: &Event) -> Result<(), AllocError>
    ensures { OnOk result (calls.new.items ≡ with_some calls.old.items
        (option_map (λ c. record { node = node; name = c }) (name_called event.now))) }
{
    if let Some(name) = called(event) {
        calls.push(ClientCall { node, name })?;
    }
    Ok(())
}

/// The bytes of an invoke: its request, and behind it the counted stream that goes up.
pub fn invoked_bytes(
    alloc: Global,
    iface: &Interface,
    name: &str,
    args: &[Value],
    up: &Option<Spelled>,
) -> Result<Vec<u8>, AllocError>
    requires { TakesArguments (handlers_of iface.now []) (proc_named name.now (procs_of iface.now.procs.items))
        (values_of args.now) up.now }
    ensures { IfOk result (λ bytes. bytes.items ≡ bytes_of (handlers_of iface.now [])
        (proc_named name.now (procs_of iface.now.procs.items)) (values_of args.now) up.now) }
{
    match proc_named(&iface.procs, name) {
        Some(p) => bytes_with_upload(alloc, iface, p, args, up),
        None => Ok(Vec::new(alloc)),
    }
}

/// The elements of a slice of bytes are bytes: what the law of answers rests on.
fn are_bytes(bytes: &[u8])
    ensures { IsBytes bytes.now }
{}

/// The bytes of a request that can be sent, for which its upload is spelled out.
fn bytes_with_upload(
    alloc: Global,
    iface: &Interface,
    p: &Proc,
    args: &[Value],
    up: &Option<Spelled>,
) -> Result<Vec<u8>, AllocError>
    requires there { Contains (procs_of iface.now.procs.items) (proc_of p.now) }
    requires fits { CanSend (types_of iface.now.types.items) (proc_of p.now) (values_of args.now) up.now }
    ensures { IfOk result (λ bytes. bytes.items ≡ sent_spelling (types_of iface.now.types.items) (proc_of p.now)
        (values_of args.now) up.now) }
{
    match up {
        None => sent_bytes(alloc, iface, p, args, None),
        Some(up) => {
            let up = up.spell_out(alloc)?;
            sent_bytes(alloc, iface, p, args, Some(up.as_slice()))
        }
    }
}

/// The bytes of a request that can be sent.
fn sent_bytes(
    alloc: Global,
    iface: &Interface,
    p: &Proc,
    args: &[Value],
    up: Option<&[u8]>,
) -> Result<Vec<u8>, AllocError>
    requires there { Contains (procs_of iface.now.procs.items) (proc_of p.now) }
    requires fits { CanSend (types_of iface.now.types.items) (proc_of p.now) (values_of args.now) (option_copied up) }
    ensures { IfOk result (λ bytes. bytes.items ≡ sent_spelling (types_of iface.now.types.items) (proc_of p.now)
        (values_of args.now) (option_copied up.entry)) }
{
    match request_bytes(alloc, iface, p, args, up) {
        Ok(bytes) => Ok(bytes),
        Err(StubFault::Code(_)) => Ok(Vec::new(alloc)),
        Err(StubFault::OutOfMemory) => Err(AllocError),
    }
}
