//! What a node of a plan gives, kept for the network.
ghost use Rattle.std.specs.Prelude.{◌≡◌, ◌++◌, []};
ghost use Rattle.rx_stage.specs.Giving.{gives_both, gives_none, wants_behind};

use crate::stop::keep;
use crate::world::Datagram;
use rx_drive::{Carrier, Outside, Stop};
use rx_model::{Bytes, Host};
use std::alloc::Global;

/// The datagrams that nodes gave so far, to which one of this host gives more.
#[derive(Drop)]
pub struct Giving<'a> {
    pub alloc: Global,
    pub from: Host,
    pub given: &'a mut Vec<Datagram>,
}

impl<'a, X: Outside> Carrier<X> for Giving<'a> {
    ghost use Rattle.std.specs.Prelude.{◌≡◌, ◌∷◌, []};
    ghost use Rattle.rx_stage.specs.Giving.{GivingState, Gives, WantedAt};

    ghost carried = { λ k l xs ls. Gives
        (record { from = k.from; given = k.given.now.items; name = k.given.ghost_name })
        (record { from = l.from; given = l.given.now.items; name = l.given.ghost_name }) xs ls };

    ghost some = { λ k xs ls. ls ≡ [] };

    ghost lost = { λ why k xs ls. WantedAt why ls };

    ghost can = { λ d. Unit {0} };

    ghost names = { λ k. k.given.ghost_name ∷ [] };

    ghost none = { λ k. gives_none (record {
      from = k.from;
      given = k.given.now.items;
      name = k.given.ghost_name;
    }) };

    ghost both = { λ a b c xs ys ls ms first next. gives_both
        (record { from = a.from; given = a.given.now.items; name = a.given.ghost_name })
        (record { from = b.from; given = b.given.now.items; name = b.given.ghost_name })
        (record { from = c.from; given = c.given.now.items; name = c.given.ghost_name }) xs ys ls ms first next };

    ghost less = { λ a b xs ls first. first.none };

    ghost less_one = { λ a b xs d ls first. first.none };

    ghost lost_behind = { λ why a b xs ys ls ms first next. wants_behind why ls ms first.none next };

    fn carry(&mut self, to: Host, bytes: &[u8], outside: &mut X) -> Result<(), Stop> {
        let bytes = Bytes::copied(self.alloc, bytes)?;
        let from = self.from;
        keep(self.given, Datagram { from, to, bytes })?;
        Ok(())
    }
}
