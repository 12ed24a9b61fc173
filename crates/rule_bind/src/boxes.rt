ghost use Rattle.std.specs.Prelude.{Ok};
ghost use Rattle.bind_areas.specs.Meaning.{Answers};

use bind_areas::BindCause;
use sqlite_items::Boxed;
use std::alloc::Global;

/// A formula or a truth behind a pointer. While its neighbours are bound it stands so: what is alive in a body costs
/// its proof the more, the larger its type is.
pub(crate) fn boxed<T: Drop>(alloc: Global, value: T) -> Result<Boxed<T>, BindCause>
    ensures { Answers (Ok value) result }
{
    Ok(Boxed::new(alloc, value)?)
}
