//! Where a run over nodes tells their events.
ghost use Rattle.std.specs.Prelude.{◌≡◌, IfErr, true};
ghost use Rattle.rx_drive.specs.Ran.{stop_of};
ghost use Rattle.rx_drive.specs.Tells.{TellsOf};
ghost use Rattle.rx_model.specs.declared.event.Event.TheVariants as events;
ghost use Rattle.rx_wire.specs.Turns.{noted};

use crate::stop::Stop;
use rx_model::{Event, Host, Took};

/// Where a run over nodes tells their events: each is noted, and then its line is put, if it has one.
pub trait Outside {
    ghost use Rattle.std.specs.Prelude.{Bool};
    ghost use Rattle.rx_drive.specs.Tells.{Told, Ways};

    /// What it tells.
    ghost told: { Self → Told };

    /// How it tells it: with which lines, and by which references.
    ghost ways: { Self → Ways };

    /// Whether a note may want memory.
    ghost may_want: { Bool };

    /// Tells an event of a node.
    fn tell(&mut self, node: u32, event: &Event) -> Result<(), Stop>
        ensures told { TellsOf (ways self.old).line (stop_of result) (told self.old) (told self.new)
            (noted node event.now) }
        ensures ways { ways self.new ≡ ways self.old }
        ensures wants { IfErr result (λ stop. stop ≡ Stop.Unnoted → may_want ≡ true) };

    /// Tells that a poll of a node gave these bytes for a host.
    fn tell_polled(&mut self, node: u32, to: Host, bytes: &[u8]) -> Result<(), Stop>
        ensures told { TellsOf (ways self.old).line (stop_of result) (told self.old) (told self.new)
            (noted node (events.Polled (Some (to, bytes.now)))) }
        ensures ways { ways self.new ≡ ways self.old }
        ensures wants { IfErr result (λ stop. stop ≡ Stop.Unnoted → may_want ≡ true) };

    /// Tells that a node took these bytes from a host, and what it answered.
    fn tell_taken(&mut self, node: u32, from: Host, bytes: &[u8], got: Took) -> Result<(), Stop>
        ensures told { TellsOf (ways self.old).line (stop_of result) (told self.old) (told self.new)
            (noted node (events.Taken from bytes.now got)) }
        ensures ways { ways self.new ≡ ways self.old }
        ensures wants { IfErr result (λ stop. stop ≡ Stop.Unnoted → may_want ≡ true) };
}
