ghost use Rattle.std.specs.Prelude.{◌≡◌, ◌≤◌, vec_capacity, IfOk};

use std::alloc::{AllocError, Global};

/// A copy of these items, in memory of its own with capacity for `room`.
pub(crate) fn copied_with_room<T: Copy>(
    alloc: Global,
    items: &[T],
    room: usize,
) -> Result<Vec<T>, AllocError>
    ensures same { IfOk result (λ v. v.items ≡ items.now) }
    ensures room { IfOk result (λ v. room ≤ vec_capacity v) }
{
    let mut copied = Vec::with_capacity(alloc, room)?;
    copied.extend_from_slice(items)?;
    Ok(copied)
}
