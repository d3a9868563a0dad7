//! Where the turns of a pass tell their events: in a journal, and in the lines of a server.
ghost use Rattle.std.specs.Prelude.{◌≡◌, Some, true};
ghost use Rattle.rx_drive.specs.Ran.{stop_of};
ghost use Rattle.rx_drive.specs.Tells.{TellsOf};
ghost use Rattle.rx_model.specs.declared.event.Event.TheVariants as events;
ghost use Rattle.rx_wire.specs.Turns.{noted};

use crate::lines::Lines;
use crate::notes::{note, note_polled, note_taken};
use rx_base::Sink;
use rx_drive::{Outside, Stop};
use rx_model::{Event, Host, Took};
use rx_wire::Journal;

/// The journal of a server, and the sink of its lines.
#[derive(Drop)]
pub struct Lined<'a, O: Sink, J: Journal> {
    pub lines: &'a mut Lines,
    pub out: &'a mut O,
    pub book: &'a mut J,
}

impl<'a, O: Sink, J: Journal> Outside for Lined<'a, O, J> {
    ghost use Rattle.std.specs.Prelude.{◌∷◌, []};
    ghost use Rattle.rx_wire_loop.specs.Tells.{outside, sink_tells};
    ghost use Rattle.rx_wire_loop.specs.Texts.{noted_line};

    ghost told = { λ s. outside (J.told s.book.now) (sink_tells (O.told s.out.now) (O.faults s.out.now)) };

    ghost ways = { λ s. record {
      line = noted_line;
      names = s.lines.ghost_name ∷ s.out.ghost_name ∷ s.book.ghost_name ∷ [];
    } };

    ghost may_want = { J.may_want };

    fn tell(&mut self, node: u32, event: &Event) -> Result<(), Stop> {
        match self.book.note(node, event) {
            Ok(()) => self.lines.tell(event, self.out),
            Err(_) => Err(Stop::Unnoted),
        }
    }

    fn tell_polled(&mut self, node: u32, to: Host, bytes: &[u8]) -> Result<(), Stop> {
        note_polled(node, to, bytes, self.book)
    }

    fn tell_taken(&mut self, node: u32, from: Host, bytes: &[u8], got: Took) -> Result<(), Stop> {
        note_taken(node, from, bytes, got, self.book)
    }
}

/// The journal of a client, whose events have no lines.
#[derive(Drop)]
pub struct Unlined<'a, J: Journal> {
    pub book: &'a mut J,
}

impl<'a, J: Journal> Outside for Unlined<'a, J> {
    ghost use Rattle.std.specs.Prelude.{◌∷◌, [], None};
    ghost use Rattle.rx_wire_loop.specs.Tells.{outside, sink_tells};
    ghost use Rattle.rx_wire_loop.specs.Texts.{noted_line};

    ghost told = { λ s. outside (J.told s.book.now) (sink_tells None 0) };

    ghost ways = { λ s. record { line = noted_line; names = s.book.ghost_name ∷ [] } };

    ghost may_want = { J.may_want };

    fn tell(&mut self, node: u32, event: &Event) -> Result<(), Stop> {
        note(node, event, self.book)
    }

    fn tell_polled(&mut self, node: u32, to: Host, bytes: &[u8]) -> Result<(), Stop> {
        note_polled(node, to, bytes, self.book)
    }

    fn tell_taken(&mut self, node: u32, from: Host, bytes: &[u8], got: Took) -> Result<(), Stop> {
        note_taken(node, from, bytes, got, self.book)
    }
}
