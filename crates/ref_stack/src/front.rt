//! Lists that grow at the front.

ghost use Rattle.std.specs.Prelude.{◌≡◌, ◌∷◌, IfOk};

use std::alloc::AllocError;

/// One item in front of others.
pub fn in_front<T: Drop>(first: T, more: Vec<T>) -> Result<Vec<T>, AllocError>
    ensures { IfOk result (λ all. all.items ≡ first ∷ more.items) }
{
    let mut all = more;
    all.insert(0, first)?;
    Ok(all)
}
