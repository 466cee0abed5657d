ghost use Rattle.std.specs.Prelude.{◌≡◌, ◌<◌, length, IfOk, OnErr};

use ft_base::NoMemory;
use std::alloc::Global;

/// A vector of these. It takes no memory for none.
pub fn vec_of<T: Copy>(alloc: Global, items: &[T]) -> Result<Vec<T>, NoMemory>
    ensures items { IfOk result (λ v. v.items ≡ items.now) }
    ensures some { OnErr result (0 < length items.now) }
{
    let mut vec = Vec::with_capacity(alloc, items.len())?;
    vec.extend_from_slice(items).unwrap();
    Ok(vec)
}
