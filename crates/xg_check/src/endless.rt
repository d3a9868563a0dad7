//! Types that hold themselves.

ghost use Rattle.std.specs.Prelude.{◌≡◌, ◌<◌, ◌↔◌, length, IfOk, IsTrue};
ghost use Rattle.xg_check.specs.Graphs.{AreOrdered, AreRingless};
ghost use Rattle.xg_check.specs.Typed.{type_names, type_ways};
ghost use Rattle.xg_check.specs.Judged.{IsEndless};
ghost use Rattle.xg_check.specs.Answers.{IsFirstOf};

use crate::graph::Graph;
use crate::order::Order;
use crate::reach::returns;
use crate::ringless::ringless;
use crate::types::{Types, Ways, type_name};
use std::alloc::{AllocError, Global};

// Whether the type of this number holds itself.
fn is_endless(
    alloc: Global,
    types: &Types<'_>,
    held: &Graph,
    ringless: &[bool],
    place: usize,
) -> Result<bool, AllocError>
    requires there { place < length types.now }
    requires ways { held.now ≡ type_ways types.now Ways.Held }
    requires ringless { AreRingless held.now ringless.now }
    ensures { IfOk result (λ b. IsTrue b ↔ IsEndless types.now place) }
{
    if ringless[place] {
        return Ok(false);
    }
    returns(alloc, held, place)
}

/// The name of the first type of the text that holds itself other than through optional data or a
/// variable array.
pub fn endless<'a>(
    alloc: Global,
    types: &Types<'a>,
    held: &Graph,
    order: &Order,
) -> Result<Option<&'a str>, AllocError>
    requires ways { held.now ≡ type_ways types.now Ways.Held }
    requires order { AreOrdered held.now order.now.nodes.items order.now.ended.items }
    ensures { IfOk result (λ r. IsFirstOf (IsEndless types.now) (type_names types.now) r) }
{
    let ringless = ringless(alloc, held, order)?;
    for place in 0..held.len() {
        if is_endless(alloc, types, held, ringless.as_slice(), place)? {
            return Ok(Some(type_name(types.part(place)).unwrap_or("")));
        }
    }
    Ok(None)
}
