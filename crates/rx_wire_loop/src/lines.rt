//! The lines of a server that serves.
ghost use Rattle.std.specs.Prelude.{◌≡◌, List, ℕ, [], OnOk};
ghost use Rattle.std.specs.String.{string_bytes};
ghost use Rattle.rx_wire_loop.specs.Lines.{PutsLine, PutsText};
ghost use Rattle.rx_drive.specs.Ran.{stop_of};
ghost use Rattle.rx_wire_loop.specs.Tells.{sink_tells};
ghost use Rattle.rx_wire_loop.specs.Texts.{accept_line, event_line, finish_line, ready_line, time_up_line};

use rx_base::Sink;
use rx_drive::Stop;
use rx_model::{CallName, Event, Host, ServeRefused};
use std::alloc::{AllocError, Global};
use std::fmt::Write;

/// The number of a server in the journal.
pub const SERVER: u32 = 0;

/// The number of the client that makes a call.
pub const CLIENT: u32 = 1;

/// The text of one line, which is used again for the next.
#[derive(Debug, Drop)]
pub struct Lines {
    line: String,
}

impl Lines {
    /// No line yet.
    pub fn make(alloc: Global) -> Lines {
        // No clause says what the text holds, since each line that is written takes its place.
        Lines {
            line: String::new(alloc),
        }
    }

    /// Puts that a host is served.
    pub fn ready<O: Sink>(&mut self, host: Host, out: &mut O) -> Result<(), Stop>
        ensures { PutsLine (sink_tells (O.told out.old) (O.faults out.old))
            (sink_tells (O.told out.new) (O.faults out.new)) (ready_line host) (stop_of result) }
    {
        match self.write_ready(host) {
            Ok(()) => put(out, self.line.as_str()),
            Err(_) => Err(Stop::Unformatted),
        }
    }

    /// Puts the line of an event of the handlers, if it has one.
    pub fn tell<O: Sink>(&mut self, event: &Event, out: &mut O) -> Result<(), Stop>
        ensures { PutsLine (sink_tells (O.told out.old) (O.faults out.old))
            (sink_tells (O.told out.new) (O.faults out.new)) (event_line event.now) (stop_of result) }
    {
        match event {
            Event::Accepted { got } => self.accepted(*got, out),
            Event::Finished { call, code, got } => self.finished(call, *code, *got, out),
            Event::Linked { .. } | Event::Called { .. } | Event::Wrote { .. } => Ok(()),
            Event::Shut { .. } | Event::HasRead { .. } | Event::Ended { .. } => Ok(()),
            Event::Cancelled { .. } | Event::Taken { .. } => Ok(()),
            Event::Polled { .. } | Event::Clocked { .. } => Ok(()),
        }
    }

    /// Puts that a call was accepted, if one was.
    fn accepted<O: Sink>(&mut self, got: Option<CallName>, out: &mut O) -> Result<(), Stop>
        ensures { PutsLine (sink_tells (O.told out.old) (O.faults out.old))
            (sink_tells (O.told out.new) (O.faults out.new)) (event_line (Event.Accepted got)) (stop_of result) }
    {
        match got {
            Some(call) => self.accepted_call(&call, out),
            None => Ok(()),
        }
    }

    fn accepted_call<O: Sink>(&mut self, call: &CallName, out: &mut O) -> Result<(), Stop>
        ensures { PutsLine (sink_tells (O.told out.old) (O.faults out.old))
            (sink_tells (O.told out.new) (O.faults out.new)) (accept_line call.now) (stop_of result) }
    {
        match self.write_accept(call) {
            Ok(()) => put(out, self.line.as_str()),
            Err(_) => Err(Stop::Unformatted),
        }
    }

    fn finished<O: Sink>(
        &mut self,
        call: &CallName,
        code: i32,
        got: Result<(), ServeRefused>,
        out: &mut O,
    ) -> Result<(), Stop>
        ensures { PutsLine (sink_tells (O.told out.old) (O.faults out.old))
            (sink_tells (O.told out.new) (O.faults out.new)) (finish_line call.now code got) (stop_of result) }
    {
        match self.write_finish(call, code, got) {
            Ok(()) => put(out, self.line.as_str()),
            Err(_) => Err(Stop::Unformatted),
        }
    }

    fn write_ready(&mut self, host: Host) -> Result<(), AllocError>
        ensures { OnOk result (string_bytes self.new.line ≡ ready_line host) }
    {
        self.line.clear();
        write!(self.line, "ready {host}\n")
    }

    fn write_accept(&mut self, call: &CallName) -> Result<(), AllocError>
        ensures { OnOk result (string_bytes self.new.line ≡ accept_line call.now) }
    {
        self.line.clear();
        write!(self.line, "accept {call}\n")
    }

    fn write_finish(
        &mut self,
        call: &CallName,
        code: i32,
        got: Result<(), ServeRefused>,
    ) -> Result<(), AllocError>
        ensures { OnOk result (string_bytes self.new.line ≡ finish_line call.now code got) }
    {
        self.line.clear();
        match got {
            Ok(()) => write!(self.line, "finish {call} {code}\n"),
            Err(ServeRefused::Gone(told)) => write!(self.line, "finish {call} gone {told}\n"),
            Err(ServeRefused::NotOpen) => write!(self.line, "finish {call} {code}\n"),
            Err(ServeRefused::Unread) => write!(self.line, "finish {call} {code}\n"),
        }
    }
}

/// Puts that the time of a server is up.
pub fn put_time_up<O: Sink>(out: &mut O) -> Result<(), Stop>
    ensures { PutsText (sink_tells (O.told out.old) (O.faults out.old))
        (sink_tells (O.told out.new) (O.faults out.new)) time_up_line (stop_of result) }
{
    put(out, "time up\n")
}

/// Puts a text.
fn put<O: Sink>(out: &mut O, text: &str) -> Result<(), Stop>
    ensures { PutsText (sink_tells (O.told out.old) (O.faults out.old))
        (sink_tells (O.told out.new) (O.faults out.new)) text.now (stop_of result) }
{
    match out.put(text.as_bytes()) {
        Ok(()) => Ok(()),
        Err(_) => Err(Stop::SinkFault),
    }
}
