ghost use Rattle.std.specs.Prelude.{◌≡◌};
ghost use Rattle.rx_pool.specs.declared.pool.TheConstants.{SLOT_BYTES, MAX_SLOTS};

/// What the constants of this crate are.
pub fn constants()
    ensures slot_bytes { SLOT_BYTES ≡ 1444 }
    ensures most_slots { MAX_SLOTS ≡ 65536 }
{}
