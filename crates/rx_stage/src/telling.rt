//! Where a run of a plan tells its events, as the driver of its nodes has it.
ghost use Rattle.std.specs.Prelude.{◌≡◌, Some, option_map, true};
ghost use Rattle.rx_drive.specs.Ran.{stop_of};
ghost use Rattle.rx_model.specs.declared.event.Event.TheVariants as events;
ghost use Rattle.rx_stage.specs.Driving.{PutsLine, outside, plan_stop};
ghost use Rattle.rx_stage.specs.Ran.{stop_of as plan_stop_of};
ghost use Rattle.rx_stage.specs.Tells.{event_line};
ghost use Rattle.rx_wire.specs.Turns.{noted};

use crate::stop::Stop as PlanStop;
use crate::trace::Trace;
use rx_base::Sink;
use rx_drive::{Outside, Stop};
use rx_model::{Event, Host, Took};
use rx_wire::Journal;

/// A journal, and the sink of a trace with the text of its lines.
#[derive(Drop)]
pub struct Telling<'a, O: Sink, J: Journal> {
    pub trace: &'a mut Trace,
    pub out: &'a mut O,
    pub book: &'a mut J,
}

impl<'a, O: Sink, J: Journal> Outside for Telling<'a, O, J> {
    ghost use Rattle.std.specs.Prelude.{◌∷◌, []};
    ghost use Rattle.rx_stage.specs.Driving.{outside};
    ghost use Rattle.rx_stage.specs.Tells.{event_line};

    ghost told = { λ s. outside (J.told s.book.now) (O.told s.out.now) (O.faults s.out.now) };

    ghost ways = { λ s. record {
      line = event_line;
      names = s.trace.ghost_name ∷ s.out.ghost_name ∷ s.book.ghost_name ∷ [];
    } };

    ghost may_want = { J.may_want };

    fn tell(&mut self, node: u32, event: &Event) -> Result<(), Stop> {
        match self.book.note(node, event) {
            Ok(()) => put_line(node, event, self.trace, self.out),
            Err(_) => Err(Stop::Unnoted),
        }
    }

    fn tell_polled(&mut self, node: u32, to: Host, bytes: &[u8]) -> Result<(), Stop> {
        match self.book.note_polled(node, to, bytes) {
            Ok(()) => put_polled(node, to, bytes, self.trace, self.out),
            Err(_) => Err(Stop::Unnoted),
        }
    }

    fn tell_taken(&mut self, node: u32, from: Host, bytes: &[u8], got: Took) -> Result<(), Stop> {
        match self.book.note_taken(node, from, bytes, got) {
            Ok(()) => put_taken(node, from, bytes, got, self.trace, self.out),
            Err(_) => Err(Stop::Unnoted),
        }
    }
}

/// Puts the line of an event, unless the sink throws it away.
fn put_line<O: Sink>(node: u32, event: &Event, trace: &mut Trace, out: &mut O) -> Result<(), Stop>
    ensures { PutsLine (event_line (noted node event.now)) (O.told out.old) (O.told out.new) (O.faults out.old)
        (O.faults out.new) (stop_of result) }
{
    if out.discards() {
        return Ok(());
    }
    match trace.write(node, event) {
        Ok(()) => put_text(trace.text(), out),
        Err(_) => Err(Stop::Unformatted),
    }
}

/// Puts the line of a poll that gave these bytes for a host.
fn put_polled<O: Sink>(
    node: u32,
    to: Host,
    bytes: &[u8],
    trace: &mut Trace,
    out: &mut O,
) -> Result<(), Stop>
    ensures { PutsLine (event_line (noted node (events.Polled (Some (to, bytes.now))))) (O.told out.old)
        (O.told out.new) (O.faults out.old) (O.faults out.new) (stop_of result) }
{
    if out.discards() {
        return Ok(());
    }
    match trace.write_polled(node, to, bytes) {
        Ok(()) => put_text(trace.text(), out),
        Err(_) => Err(Stop::Unformatted),
    }
}

/// Puts the line of these bytes from a host, which were taken and judged so.
fn put_taken<O: Sink>(
    node: u32,
    from: Host,
    bytes: &[u8],
    got: Took,
    trace: &mut Trace,
    out: &mut O,
) -> Result<(), Stop>
    ensures { PutsLine (event_line (noted node (events.Taken from bytes.now got))) (O.told out.old)
        (O.told out.new) (O.faults out.old) (O.faults out.new) (stop_of result) }
{
    if out.discards() {
        return Ok(());
    }
    match trace.write_taken(node, from, bytes, got) {
        Ok(()) => put_text(trace.text(), out),
        Err(_) => Err(Stop::Unformatted),
    }
}

/// Puts a text.
fn put_text<O: Sink>(text: &[u8], out: &mut O) -> Result<(), Stop>
    ensures { PutsLine text.now (O.told out.old) (O.told out.new) (O.faults out.old) (O.faults out.new)
        (stop_of result) }
{
    match out.put(text) {
        Ok(()) => Ok(()),
        Err(_) => Err(Stop::SinkFault),
    }
}

/// How a run of a plan ends, where its driver ends so.
pub fn plan_end(driven: Result<(), Stop>) -> Result<(), PlanStop>
    ensures { plan_stop_of result ≡ option_map plan_stop (stop_of driven) }
{
    match driven {
        Ok(()) => Ok(()),
        Err(Stop::SinkFault | Stop::WireFault) => Err(PlanStop::SinkFault),
        Err(Stop::OutOfMemory | Stop::Unformatted | Stop::Unnoted) => Err(PlanStop::OutOfMemory),
        Err(Stop::Endless) => Err(PlanStop::Endless),
    }
}
