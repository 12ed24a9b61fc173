use std::alloc::{AllocError, AllocFailed};

/// Why a part of a rule text means nothing in its model. Where two causes stand at one place, the one that comes first
/// here is given.
#[derive(Clone, Copy, Debug, PartialEq, Eq)]
pub enum BindCause {
    /// A cube, a dimension, an element or an attribute isn't there.
    UnknownName,
    /// The elements of an entry that names no dimension are in several dimensions of the cube.
    Ambiguous,
    /// Two entries for one dimension, not one argument for each dimension of a cube, or a function with too many
    /// arguments or too few.
    WrongCount,
    /// What names an element depends on more than can be made a table of.
    DynamicReference,
    /// What stands there may stand in a rule of TM1, but not there, or not here.
    Unsupported,
    /// Out of memory. It may come in place of any answer.
    Memory,
}

impl From<AllocError> for BindCause {
    ghost use Rattle.std.specs.Prelude.{◌≡◌};
    ghost use Rattle.bind_areas.specs.declared.cause.BindCause.TheVariants.{Memory};

    ghost from_gives = { λ _ e. e ≡ Memory };

    fn from(_: AllocError) -> BindCause {
        BindCause::Memory
    }
}

impl<T: Drop> From<AllocFailed<T>> for BindCause {
    ghost use Rattle.std.specs.Prelude.{◌≡◌};
    ghost use Rattle.bind_areas.specs.declared.cause.BindCause.TheVariants.{Memory};

    ghost from_gives = { λ _ e. e ≡ Memory };

    fn from(_: AllocFailed<T>) -> BindCause {
        BindCause::Memory
    }
}
