//! Lists of one value.

ghost use Rattle.std.specs.Prelude.{◌≡◌, IfOk, replicate};

use std::alloc::{AllocError, Global};

/// So many times the value.
pub fn repeated<T: Copy>(alloc: Global, value: T, count: usize) -> Result<Vec<T>, AllocError>
    ensures { IfOk result (λ list. list.items ≡ replicate count value) }
{
    let mut list = Vec::new(alloc);
    for _ in 0..count {
        list.push(value)?;
    }
    Ok(list)
}
