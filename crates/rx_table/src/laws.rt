//! The numbers of this crate.

ghost use Rattle.std.specs.Prelude.{◌≡◌};
ghost use Rattle.rx_table.specs.declared.seat.TheConstants.{CHANNELS};

/// What the constants of this crate are.
pub fn constants()
    ensures { CHANNELS ≡ 4 }
{}
