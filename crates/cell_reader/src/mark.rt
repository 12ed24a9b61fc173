ghost use Rattle.std.specs.Prelude.{◌≡◌, IfOk};
ghost use Rattle.std.specs.Arc.{arc_value};

use cell_versions::Version;
use std::alloc::{AllocError, Global};
use std::sync::Arc;

/// A version with the first writes of a load, to which the load may go back.
#[derive(Drop)]
pub(crate) struct Mark {
    pub(crate) version: Arc<Version, Global>,
    /// How many of the writes it has.
    pub(crate) made: usize,
}

impl Mark {
    /// The mark of a version with so many writes.
    pub(crate) fn of(version: &Arc<Version, Global>, made: usize) -> Result<Mark, AllocError>
        ensures version { IfOk result (λ mark. arc_value mark.version ≡ arc_value version.now) }
        ensures made { IfOk result (λ mark. mark.made ≡ made) }
    {
        let version = Arc::try_clone(version)?;
        Ok(Mark { version, made })
    }
}
