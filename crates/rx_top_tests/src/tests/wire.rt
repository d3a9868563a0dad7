//! Wires in memory, what they carried, and what was noted.

ghost use Rattle.std.specs.Prelude.{◌≡◌, ◌<◌, ◌^◌, All, IfOk};

use super::row::bytes_of;
use rx_model::{Event, Host};
use rx_wire::{Arrival, LogEntry, MemJournal, MemWire};
use std::alloc::{AllocError, Global};
use std::process::Abort;

/// The host of the server.
pub const SERVER: Host = Host {
    addr: 0x0a00_0001,
    port: 7000,
};

/// The host of the client.
pub const CLIENT: Host = Host {
    addr: 0x0a00_0002,
    port: 7001,
};

/// A datagram that comes: when, from whom, and its bytes as a row.
pub type Comes = (u64, Host, &'static str);

/// Room of a wire's log.
const LOG_ROOM: usize = 400_000;

/// The end of moments.
const END: u64 = 1 << 62;

/// A datagram as it comes.
fn arrival(rt: &impl Abort, alloc: Global, comes: &Comes) -> Result<Arrival, AllocError>
    ensures { IfOk result (λ a. a.at < 2 ^ 62) }
{
    let (at, from, row) = comes;
    assert!(rt; *at < END);
    Ok(Arrival {
        at: *at,
        from: *from,
        bytes: bytes_of(alloc, row)?,
    })
}

/// The datagrams as they come.
fn arrivals(rt: &impl Abort, alloc: Global, all: &[Comes]) -> Result<Vec<Arrival>, AllocError>
    ensures { IfOk result (λ arrivals. All (λ a. a.at < 2 ^ 62) arrivals.items) }
{
    let mut arrivals = Vec::new(alloc);
    for comes in all {
        arrivals.push(arrival(rt, alloc, comes)?)?;
    }
    Ok(arrivals)
}

/// A wire on which these come and whose calls with these numbers fail.
pub fn wire(
    rt: &impl Abort,
    alloc: Global,
    comes: &[Comes],
    failing: &[u64],
) -> Result<MemWire, AllocError> {
    let arrivals = arrivals(rt, alloc, comes)?;
    MemWire::make(alloc, arrivals, LOG_ROOM, Vec::from_slice(alloc, failing)?)
}

/// Datagrams, each with the host that it came from or is for.
type Datagrams<'a> = Vec<(Host, &'a [u8])>;

/// What was carried: the datagrams that came on a wire, and those that were given; how many takes waited for none; and
/// the datagrams that a node took and polled, as it was noted.
#[derive(Drop)]
pub struct Carried<'a> {
    pub came: Datagrams<'a>,
    pub given: Datagrams<'a>,
    pub waited: usize,
    pub taken: Datagrams<'a>,
    pub polled: Datagrams<'a>,
}

/// What the log of a wire and the journal of its node have.
pub fn carried_by<'a>(
    alloc: Global,
    wire: &'a MemWire,
    book: &'a MemJournal,
) -> Result<Carried<'a>, AllocError> {
    let mut all = Carried {
        came: Vec::new(alloc),
        given: Vec::new(alloc),
        waited: 0,
        taken: Vec::new(alloc),
        polled: Vec::new(alloc),
    };
    add_logged(&mut all, wire)?;
    add_noted(&mut all, book)?;
    Ok(all)
}

fn add_logged<'a>(all: &mut Carried<'a>, wire: &'a MemWire) -> Result<(), AllocError> {
    for entry in wire.log() {
        match entry {
            LogEntry::Came { from, bytes, .. } => all.came.push((from, bytes))?,
            LogEntry::Given { to, bytes } => all.given.push((to, bytes))?,
            LogEntry::Waited { .. } => all.waited = all.waited.saturating_add(1),
        }
    }
    Ok(())
}

fn add_noted<'a>(all: &mut Carried<'a>, book: &'a MemJournal) -> Result<(), AllocError> {
    for noted in book.noted() {
        match &noted.event {
            Event::Taken { from, bytes, .. } => all.taken.push((*from, bytes.as_slice()))?,
            Event::Polled {
                got: Some((to, bytes)),
            } => all.polled.push((*to, bytes.as_slice()))?,
            _ => {}
        }
    }
    Ok(())
}
