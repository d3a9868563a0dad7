//! The lines of a trace.
ghost use Rattle.std.specs.Prelude.{◌≡◌, ◌∷◌, ◌++◌, [], OnOk, Some};
ghost use Rattle.std.specs.String.{string_bytes};
ghost use Rattle.rx_model.specs.Text.{node_name};
ghost use Rattle.rx_model.specs.declared.event.Event.TheVariants as events;
ghost use Rattle.rx_wire.specs.Turns.{noted};
ghost use Rattle.rx_stage.specs.Tells.{event_line};

use rx_joint::SERVER;
use rx_model::{Bytes, Event, Host, Took};
use std::alloc::{AllocError, Global};
use std::fmt::Write;

/// The text of one line, which is used again for the next, and room for a datagram that it tells.
#[derive(Debug, Drop)]
pub struct Trace {
    line: String,
    datagram: Bytes,
}

impl Trace {
    /// A trace without a line.
    pub fn make(alloc: Global) -> Trace {
        Trace {
            line: String::new(alloc),
            datagram: Bytes::of(Vec::new(alloc)),
        }
    }

    /// The text of the line that was written last.
    pub fn text(&self) -> &[u8]
        ensures { result.now ≡ string_bytes self.now.line }
    {
        self.line.as_bytes()
    }

    /// The line of an event, with its line feed.
    pub fn write(&mut self, node: u32, event: &Event) -> Result<(), AllocError>
        ensures { OnOk result (string_bytes self.new.line ≡ event_line (noted node event.now)) }
    {
        self.line.clear();
        if node == SERVER {
            return write!(self.line, "s {event}\n");
        }
        write!(self.line, "c{node} {event}\n")
    }

    /// That of a poll that gave these bytes for a host.
    pub fn write_polled(&mut self, node: u32, to: Host, bytes: &[u8]) -> Result<(), AllocError>
        ensures { OnOk result (string_bytes self.new.line
            ≡ event_line (noted node (events.Polled (Some (to, bytes.now))))) }
    {
        self.datagram.copy_from(bytes)?;
        self.line.clear();
        let datagram = &self.datagram;
        if node == SERVER {
            return write!(self.line, "s poll -> {to} {datagram}\n");
        }
        write!(self.line, "c{node} poll -> {to} {datagram}\n")
    }

    /// That of these bytes from a host, which were taken and judged so.
    pub fn write_taken(
        &mut self,
        node: u32,
        from: Host,
        bytes: &[u8],
        got: Took,
    ) -> Result<(), AllocError>
        ensures { OnOk result (string_bytes self.new.line ≡ event_line (noted node (events.Taken from bytes.now got))) }
    {
        self.datagram.copy_from(bytes)?;
        self.line.clear();
        let datagram = &self.datagram;
        if node == SERVER {
            return write!(self.line, "s take {from} {datagram} -> {got}\n");
        }
        write!(self.line, "c{node} take {from} {datagram} -> {got}\n")
    }
}
