//! Parts of buffers.
ghost use Rattle.std.specs.Prelude.{◌≡◌, take};

/// The first bytes, so many of them or all.
pub fn front(bytes: &[u8], count: usize) -> &[u8]
    ensures { result.now ≡ take count bytes.now }
{
    let (first, _) = bytes.split_at(count.min(bytes.len()));
    first
}
