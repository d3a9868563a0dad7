//! Notes of events, which end passes where the journal refuses them.
ghost use Rattle.std.specs.Prelude.{◌≡◌, IfErr, OnErr, Some, true};
ghost use Rattle.rx_model.specs.declared.event.Event.TheVariants as events;
ghost use Rattle.rx_wire_loop.specs.Ports.{NotesOne};
ghost use Rattle.rx_drive.specs.Ran.{stop_of};

use rx_drive::Stop;
use rx_model::{Event, Host, Took};
use rx_wire::Journal;

/// Notes an event.
pub fn note<J: Journal>(number: u32, event: &Event, book: &mut J) -> Result<(), Stop>
    ensures told { NotesOne number (J.told book.old) (J.told book.new) event.now (stop_of result) }
    ensures refused { IfErr result (λ stop. stop ≡ Stop.Unnoted) }
    ensures wants { OnErr result (J.may_want ≡ true) }
{
    match book.note(number, event) {
        Ok(()) => Ok(()),
        Err(_) => Err(Stop::Unnoted),
    }
}

/// Notes that these bytes from a host were taken, and what was answered.
pub fn note_taken<J: Journal>(
    number: u32,
    from: Host,
    bytes: &[u8],
    got: Took,
    book: &mut J,
) -> Result<(), Stop>
    ensures told { NotesOne number (J.told book.old) (J.told book.new) (events.Taken from bytes.now got)
        (stop_of result) }
    ensures refused { IfErr result (λ stop. stop ≡ Stop.Unnoted) }
    ensures wants { OnErr result (J.may_want ≡ true) }
{
    match book.note_taken(number, from, bytes, got) {
        Ok(()) => Ok(()),
        Err(_) => Err(Stop::Unnoted),
    }
}

/// Notes that a poll gave these bytes for a host.
pub fn note_polled<J: Journal>(
    number: u32,
    to: Host,
    bytes: &[u8],
    book: &mut J,
) -> Result<(), Stop>
    ensures told { NotesOne number (J.told book.old) (J.told book.new) (events.Polled (Some (to, bytes.now)))
        (stop_of result) }
    ensures refused { IfErr result (λ stop. stop ≡ Stop.Unnoted) }
    ensures wants { OnErr result (J.may_want ≡ true) }
{
    match book.note_polled(number, to, bytes) {
        Ok(()) => Ok(()),
        Err(_) => Err(Stop::Unnoted),
    }
}
