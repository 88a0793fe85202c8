//! Lists.

ghost use Rattle.std.specs.Prelude.{◌≡◌, ◌∷◌, IfOk};

use sq_base::List;
use std::alloc::{AllocError, Global};

/// The list of a first item and the others.
pub fn list_with_first<T: Drop>(
    alloc: Global,
    first: T,
    more: List<T>,
) -> Result<List<T>, AllocError>
    ensures { IfOk result (λ all. all ≡ first ∷ more) }
{
    let mut all = Vec::new(alloc);
    all.push(first)?;
    let mut more = more.into_vec();
    all.append(&mut more)?;
    Ok(List::from_vec(all))
}
