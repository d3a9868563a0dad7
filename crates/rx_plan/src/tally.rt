//! What became of the datagrams of lossy rounds, in numbers.
ghost use Rattle.std.specs.Prelude.{◌≡◌};
ghost use Rattle.rx_plan.specs.Tallies.{with_fate, no_tally};

use crate::fate::Fate;

/// How many datagrams were given, and how many of these were lost, repeated and held. A count stands still at 2^64 - 1.
#[derive(Clone, Copy, Debug, PartialEq, Eq)]
pub struct Tally {
    pub given: u64,
    pub lost: u64,
    pub repeated: u64,
    pub held: u64,
}

impl Tally {
    /// No datagram.
    pub fn none() -> Tally
        ensures { result ≡ no_tally }
    {
        Tally {
            given: 0,
            lost: 0,
            repeated: 0,
            held: 0,
        }
    }

    /// One datagram more, of which this became.
    pub fn count(&mut self, fate: Fate)
        ensures { self.new ≡ with_fate fate self.old }
    {
        self.given = self.given.saturating_add(1);
        match fate {
            Fate::Lost => self.lost = self.lost.saturating_add(1),
            Fate::Twice => self.repeated = self.repeated.saturating_add(1),
            Fate::Held => self.held = self.held.saturating_add(1),
            Fate::Once => {}
        }
    }
}
