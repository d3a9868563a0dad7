//! Cases: a command over a wire in memory, and what it leaves.

use super::files::files;
use super::row::bytes_of;
use super::wire::{Carried, Comes, carried_by, wire};
use rx_base::MemSink;
use rx_top::rx_main;
use rx_wire::MemJournal;
use std::alloc::{AllocError, Global};
use std::process::Abort;

/// A command, what comes on its wire, which calls of the wire, which puts on standard output and which reads of files
/// fail, and what is to be left.
#[derive(Clone, Copy)]
pub struct Case {
    pub line: &'static str,
    pub comes: &'static [Comes],
    pub wire_faults: &'static [u64],
    pub put_faults: &'static [u64],
    pub read_faults: &'static [u64],
    /// The room of standard output.
    pub room: usize,
    pub status: u8,
    pub out: &'static str,
    pub err: &'static str,
    /// How many datagrams are polled that aren't given.
    pub lost: usize,
    /// Whether datagrams are joined or split, or go over no wire; where they aren't, those that were noted are those of
    /// the log.
    pub is_joined: bool,
    /// A datagram that is given.
    pub gives: Option<&'static str>,
    /// How many datagrams came on the wire, how many takes waited for none, and how many datagrams were given.
    pub on_wire: Option<(usize, usize, usize)>,
    /// How many datagrams were noted as taken, and how many as polled.
    pub noted: Option<(usize, usize)>,
    /// How many events were noted.
    pub events: Option<usize>,
}

/// A command that does nothing.
pub const CASE: Case = Case {
    line: "sim none.txt",
    comes: &[],
    wire_faults: &[],
    put_faults: &[],
    read_faults: &[],
    room: 16_384,
    status: 0,
    out: "",
    err: "",
    lost: 0,
    is_joined: false,
    gives: None,
    on_wire: None,
    noted: None,
    events: None,
};

/// Room for the line on standard error.
const ERR_ROOM: usize = 16_384;

/// A command leaves what its case says.
pub fn check(rt: &impl Abort, alloc: Global, case: &Case) -> Result<(), AllocError> {
    let mut words = Vec::new(alloc);
    for word in case.line.split(' ') {
        words.push(String::from_str(alloc, word)?)?;
    }
    let mut out = MemSink::make(alloc, case.room, Vec::from_slice(alloc, case.put_faults)?)?;
    let mut err = MemSink::make(alloc, ERR_ROOM, Vec::new(alloc))?;
    let mut book = MemJournal::make(alloc);
    let mut wire = wire(rt, alloc, case.comes, case.wire_faults)?;
    let mut files = files(alloc, case.read_faults)?;
    let status = rx_main(
        alloc, &words, &mut files, &mut out, &mut err, &mut wire, &mut book,
    );
    let place = (case.line, case.wire_faults, case.put_faults);
    assert_eq!(rt; status.number(), case.status, "{place:?}");
    assert!(rt;
        out.as_slice() == case.out.as_bytes(),
        "{place:?} puts another text"
    );
    assert!(rt;
        err.as_slice() == case.err.as_bytes(),
        "{place:?} says another line"
    );
    if let Some(count) = case.events {
        assert_eq!(rt; book.noted().len(), count, "{place:?}");
    }
    check_carried(rt, alloc, case, &carried_by(alloc, &wire, &book)?)
}

/// What the wire of a command carried is what its case says.
fn check_carried(
    rt: &impl Abort,
    alloc: Global,
    case: &Case,
    all: &Carried<'_>,
) -> Result<(), AllocError> {
    let place = (case.line, case.wire_faults, case.put_faults);
    if !case.is_joined {
        assert!(rt; all.taken.as_slice() == all.came.as_slice(), "{place:?}");
        assert!(rt;
            all.polled.as_slice().starts_with(all.given.as_slice()),
            "{place:?}"
        );
        assert_eq!(rt;
            all.polled.len().saturating_sub(all.given.len()),
            case.lost,
            "{place:?}"
        );
    }
    if let Some(counts) = case.on_wire {
        let seen = (all.came.len(), all.waited, all.given.len());
        assert_eq!(rt; seen, counts, "{place:?}");
    }
    if let Some(counts) = case.noted {
        assert_eq!(rt; (all.taken.len(), all.polled.len()), counts, "{place:?}");
    }
    if let Some(row) = case.gives {
        let bytes = bytes_of(alloc, row)?;
        let is_given = all.given.iter().any(|one| one.1 == bytes.as_slice());
        assert!(rt; is_given, "{place:?}");
    }
    Ok(())
}
