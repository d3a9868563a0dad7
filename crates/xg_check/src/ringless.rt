//! Nodes of which it is known that they don't lead to themselves.

ghost use Rattle.std.specs.Prelude.{◌≡◌, ◌⊎◌, ℕ, true, length, slice_get, Some, IfOk};
ghost use Rattle.xg_check.specs.Graphs.{AreOrdered, AreRingless};

use crate::graph::{Graph, reversed};
use crate::order::{Order, ordered};
use std::alloc::{AllocError, Global};

// Marks what the others mark too.
fn add_marks(marks: &mut Vec<bool>, others: &[bool])
    requires { length marks.old.items ≡ length others.now }
    ensures size { length marks.new.items ≡ length marks.old.items }
    ensures marked { (i : ℕ) → slice_get marks.new.items i ≡ Some true
        → (slice_get marks.old.items i ≡ Some true) ⊎ (slice_get others.now i ≡ Some true) }
{
    for at in 0..others.len() {
        if others[at] {
            marks[at] = true;
        }
    }
}

/// Marks nodes that don't lead to themselves: those from which all ways end, and those to which all ways begin. The
/// time grows with the nodes and the ways between them.
pub fn ringless(alloc: Global, graph: &Graph, order: &Order) -> Result<Vec<bool>, AllocError>
    requires { AreOrdered graph.now order.now.nodes.items order.now.ended.items }
    ensures { IfOk result (λ marks. AreRingless graph.now marks.items) }
{
    let mut marks = vec![in alloc; false; graph.len()]?;
    add_marks(&mut marks, order.ended.as_slice());
    if order.nodes.len() == graph.len() {
        return Ok(marks);
    }
    let back = ordered(alloc, &reversed(alloc, graph)?)?;
    add_marks(&mut marks, back.ended.as_slice());
    Ok(marks)
}
