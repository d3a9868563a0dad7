ghost use Rattle.std.specs.Prelude.{◌+◌, ◌*◌, ℕ};
ghost use Rattle.rx_due.specs.Cost.{AtMost, AtMostForEntries, IsGreatestPower};

/// The bound of `DueBook::set` and `DueBook::clear` over a number of entries, by the greatest power of two.
pub fn bound_by_power()
    ensures { (n d old new : ℕ) → IsGreatestPower n d → AtMostForEntries n old new
        → AtMost (8 * d + 8) old new }
{}
