//! Laws over the definitions that contracts cite.

ghost use Rattle.std.specs.Prelude.{◌≡◌, ◌↔◌, IsTrue};
ghost use Rattle.xdr_value.specs.Data.{Types, Procs};
ghost use Rattle.xdr_value.specs.Facts.{IsSound};
ghost use Rattle.xdr_value.specs.Tests.{is_sound};

use crate::hollow::MOST_HOLLOW;
use crate::levels::MAX_LEVELS;

/// The bounds of values: how many levels one that is written or read may have, and how many elements
/// without bytes a variable array may have.
pub fn numbers()
    ensures levels { MAX_LEVELS ≡ 64 }
    ensures hollow { MOST_HOLLOW ≡ 65536 }
{}

/// The test that `Interface` keeps says yes exactly where its facts hold.
pub fn sound_is()
    ensures { (t : Types) (ps : Procs) → IsTrue (is_sound t ps) ↔ IsSound t ps }
{}
