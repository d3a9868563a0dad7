//! Where the events of nodes are noted.
ghost use Rattle.std.specs.Prelude.{◌≡◌, ℕ, List, Bool, true, Option, Some, OnOk, OnErr};
ghost use Rattle.rx_model.specs.declared.event.Event.TheVariants as events;
ghost use Rattle.rx_model.specs.declared.event.Noted.{Noted};
ghost use Rattle.rx_wire.specs.Journal.{HasNoted};
ghost use Rattle.rx_wire.specs.Turns.{noted};

use rx_model::{Event, Host, Took};
use std::alloc::AllocError;

/// Where the events of nodes are noted, in their order. Where a note is refused, for want of memory, nothing was noted.
pub trait Journal {
    /// The events noted, the first one first, where they are told.
    ghost told: { Self → Option (List Noted) };

    /// Whether a note may want memory.
    ghost may_want: { Bool };

    /// Notes an event of a node: 0 is the server, k the k-th client.
    fn note(&mut self, node: u32, event: &Event) -> Result<(), AllocError>
        ensures ok { OnOk result (HasNoted (told self.old) (told self.new) (noted node event.now)) }
        ensures err { OnErr result (told self.new ≡ told self.old) }
        ensures wants { OnErr result (may_want ≡ true) };

    /// Notes that a node took these bytes from a host, and what it answered.
    fn note_taken(
        &mut self,
        node: u32,
        from: Host,
        bytes: &[u8],
        got: Took,
    ) -> Result<(), AllocError>
        ensures ok { OnOk result (HasNoted (told self.old) (told self.new)
            (noted node (events.Taken from bytes.now got))) }
        ensures err { OnErr result (told self.new ≡ told self.old) }
        ensures wants { OnErr result (may_want ≡ true) };

    /// Notes that a poll of a node gave these bytes for a host.
    fn note_polled(&mut self, node: u32, to: Host, bytes: &[u8]) -> Result<(), AllocError>
        ensures ok { OnOk result (HasNoted (told self.old) (told self.new)
            (noted node (events.Polled (Some (to, bytes.now))))) }
        ensures err { OnErr result (told self.new ≡ told self.old) }
        ensures wants { OnErr result (may_want ≡ true) };
}
