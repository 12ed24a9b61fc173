ghost use Rattle.std.specs.Prelude.{◌≡◌, IfOk};
ghost use Rattle.script_cases.specs.Names as names_of;

use script_run::Text;
use std::alloc::{AllocError, Global};

/// A name and others, with a comma between them.
pub(crate) fn joined(
    alloc: Global,
    first: &[u8],
    others: &[Text<'_>],
) -> Result<Vec<u8>, AllocError>
    ensures { IfOk result (λ names. names.items ≡ names_of.joined first.now others.now) }
{
    let mut names = Vec::from_slice(alloc, first)?;
    'each: for other in others {
        names.push(b',')?;
        names.extend_from_slice(other.as_slice())?;
    }
    Ok(names)
}
