ghost use Rattle.std.specs.Prelude.{◌≡◌, IfOk};

use crate::Name;
use dim_name::NameFault;
use indexmap::IndexSet;
use lists::{Numbered, TableKeys};
use std::alloc::{AllocError, Global};

/// The names of a finished dimension, numbered as the set numbers them.
pub fn kept_names(
    alloc: Global,
    names: IndexSet<Name, TableKeys>,
) -> Result<Numbered<Name>, AllocError>
    ensures { IfOk result (λ kept. kept ≡ names.keys) }
{
    let mut kept = Numbered::new(alloc, *names.hasher());
    for name in names {
        let copy = copy_of(alloc, &name)?;
        kept.insert(name, copy)?;
    }
    Ok(kept)
}

/// The same name once more.
pub fn copy_of(alloc: Global, name: &Name) -> Result<Name, AllocError>
    ensures { IfOk result (λ copy. copy ≡ name.now) }
{
    match Name::new(alloc, name.shown()) {
        Ok(copy) => Ok(copy),
        Err(NameFault::Memory) => Err(AllocError),
        Err(NameFault::NotAName) => unreachable!(),
    }
}
