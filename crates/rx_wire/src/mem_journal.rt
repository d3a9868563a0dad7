//! A journal in memory.
ghost use Rattle.std.specs.Prelude.{◌≡◌, ℕ, List, [], ◌∷◌, ◌++◌, Some, OnOk, OnErr, IfOk};

use crate::journal::Journal;
use rx_model::{Bytes, Event, Host, Noted, Took};
use std::alloc::{AllocError, Global};
use std::marker::Model;

/// A journal that keeps the events noted.
#[derive(Debug, Drop)]
pub struct MemJournal {
    noted: Vec<Noted>,
}

impl Model for MemJournal {
    ghost use Rattle.std.specs.Prelude.{List};
    ghost use Rattle.rx_model.specs.declared.event.Noted.{Noted};

    ghost Value = { List Noted };

    ghost view = { λ s. s.noted.items };
}

impl MemJournal {
    /// A journal in which nothing was noted.
    pub fn make(alloc: Global) -> MemJournal
        ensures { result ≡ [] }
    {
        MemJournal {
            noted: Vec::new(alloc),
        }
    }

    /// The events noted, the first one first.
    pub fn noted(&self) -> &[Noted]
        ensures { result.now ≡ self.now }
    {
        self.noted.as_slice()
    }
}

impl Journal for MemJournal {
    ghost use Rattle.std.specs.Prelude.{Some, true};

    ghost told = { λ s. Some s };

    ghost may_want = { true };

    fn note(&mut self, node: u32, event: &Event) -> Result<(), AllocError> {
        let event = copied(*self.noted.allocator(), event)?;
        self.noted.push(Noted { node, event })?;
        Ok(())
    }

    fn note_taken(
        &mut self,
        node: u32,
        from: Host,
        bytes: &[u8],
        got: Took,
    ) -> Result<(), AllocError> {
        let bytes = Bytes::copied(*self.noted.allocator(), bytes)?;
        let event = Event::Taken { from, bytes, got };
        self.noted.push(Noted { node, event })?;
        Ok(())
    }

    fn note_polled(&mut self, node: u32, to: Host, bytes: &[u8]) -> Result<(), AllocError> {
        let bytes = Bytes::copied(*self.noted.allocator(), bytes)?;
        let event = Event::Polled {
            got: Some((to, bytes)),
        };
        self.noted.push(Noted { node, event })?;
        Ok(())
    }
}

/// A copy of an event.
fn copied(alloc: Global, event: &Event) -> Result<Event, AllocError>
    ensures { IfOk result (λ e. e ≡ event.now) }
{
    Ok(match event {
        Event::Linked {
            to,
            service,
            first,
            got,
        } => Event::Linked {
            to: *to,
            service: *service,
            first: *first,
            got: *got,
        },
        Event::Called { cid, got } => Event::Called {
            cid: *cid,
            got: *got,
        },
        Event::Wrote {
            call,
            offered,
            got,
            bytes,
        } => Event::Wrote {
            call: *call,
            offered: *offered,
            got: *got,
            bytes: Bytes::copied(alloc, bytes.as_slice())?,
        },
        Event::Shut { call, got } => Event::Shut {
            call: *call,
            got: *got,
        },
        Event::HasRead {
            call,
            max,
            got,
            bytes,
        } => Event::HasRead {
            call: *call,
            max: *max,
            got: *got,
            bytes: Bytes::copied(alloc, bytes.as_slice())?,
        },
        Event::Ended { call, got } => Event::Ended {
            call: *call,
            got: *got,
        },
        Event::Cancelled { call, code, got } => Event::Cancelled {
            call: *call,
            code: *code,
            got: *got,
        },
        Event::Accepted { got } => Event::Accepted { got: *got },
        Event::Finished { call, code, got } => Event::Finished {
            call: *call,
            code: *code,
            got: *got,
        },
        Event::Taken { from, bytes, got } => Event::Taken {
            from: *from,
            bytes: Bytes::copied(alloc, bytes.as_slice())?,
            got: *got,
        },
        Event::Polled { got } => Event::Polled {
            got: copied_given(alloc, got)?,
        },
        Event::Clocked { now } => Event::Clocked { now: *now },
    })
}

/// A copy of a datagram with the host that it is for.
fn copied_given(
    alloc: Global,
    got: &Option<(Host, Bytes)>,
) -> Result<Option<(Host, Bytes)>, AllocError>
    ensures { IfOk result (λ g. g ≡ got.now) }
{
    match got {
        None => Ok(None),
        Some((host, bytes)) => Ok(Some((*host, Bytes::copied(alloc, bytes.as_slice())?))),
    }
}
