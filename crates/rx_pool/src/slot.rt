use std::marker::Model;

/// A slot that is held. It can't be copied; one that is dropped is never free again.
#[derive(Debug, Drop)]
pub struct Slot {
    number: u32,
}

impl Model for Slot {
    ghost use Rattle.std.specs.Prelude.{ℕ, ◌<◌, ◌^◌};

    ghost Value = { ℕ };

    ghost view = { λ s. s.number };
}

impl Slot {
    ghost use Rattle.std.specs.Prelude.{◌≡◌};

    /// The slot of a number. The pool alone makes slots.
    pub(crate) fn of(number: u32) -> Slot
        ensures { result ≡ number }
    {
        Slot { number }
    }

    pub(crate) fn number(&self) -> u32
        ensures { result ≡ self.now }
    {
        self.number
    }
}
