ghost use Rattle.std.specs.Prelude.{◌≡◌, ◌++◌, IfOk};

use lists::ListOf;
use std::alloc::AllocError;

/// One list behind another.
pub fn joined<T: Drop>(one: ListOf<T>, other: ListOf<T>) -> Result<ListOf<T>, AllocError>
    ensures { IfOk result (λ both. both ≡ one ++ other) }
{
    let mut both = one.into_vec();
    let mut more = other.into_vec();
    both.append(&mut more)?;
    Ok(ListOf::new(both))
}
