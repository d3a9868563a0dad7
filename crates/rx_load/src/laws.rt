//! The law of loads.
ghost use Rattle.std.specs.Prelude.{◌≡◌, ◌⊎◌, ℕ, List, [], reverse};
ghost use Rattle.rx_law.specs.Worlds.{World};
ghost use Rattle.rx_load.specs.Keeping.{LoadPromises};
ghost use Rattle.rx_load.specs.Loads.{Load, load_nodes, load_part};
ghost use Rattle.rx_load.specs.Saying.{SaidOf};
ghost use Rattle.rx_model.specs.declared.event.Noted.{Noted};
ghost use Rattle.rx_plan.specs.Parts.{Came};

/// What a load makes is a world, in which the network invents nothing; and at every moment: where no record was
/// forgotten, no call enters its handler twice; and where none was, or where no datagram is old, each call enters its
/// handler at most once, what each side read begins what the other said, and a client's call that ended has what its
/// end says. The numbers of what a load comes to are those of its history.
pub fn loads_keep_promises()
    ensures world { (number calls : ℕ) (es : List Noted) (came : Came Load) → load_part number calls es came
        → World load_nodes (reverse es) }
    ensures promises { (number calls : ℕ) (es : List Noted) (came : Came Load) → load_part number calls es came
        → LoadPromises es }
    ensures says { (number calls : ℕ) (es : List Noted) (came : Came Load) → load_part number calls es came
        → SaidOf (reverse es) came }
{}
