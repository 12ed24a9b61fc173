use std::alloc::{AllocError, AllocFailed};

/// Why the text of a view is refused.
#[derive(Clone, Copy, Debug, PartialEq, Eq)]
pub enum ViewFault {
    /// The cube isn't there, or hasn't a dimension that the view names; or an element isn't there.
    UnknownName,
    /// A dimension of the cube doesn't stand in just one of rows, columns and points.
    WrongCount,
    /// There would be more than 250,000 cells, which are so many. Where they are more than 2^64 - 1, this number stands
    /// for them.
    ViewLimit(u64),
    /// Out of memory. It may come in place of any answer.
    Memory,
}

impl From<AllocError> for ViewFault {
    ghost use Rattle.std.specs.Prelude.{◌≡◌};
    ghost use Rattle.view_query.specs.declared.fault.ViewFault.TheVariants.{Memory};

    ghost from_gives = { λ _ e. e ≡ Memory };

    fn from(_: AllocError) -> ViewFault {
        ViewFault::Memory
    }
}

impl<T: Drop> From<AllocFailed<T>> for ViewFault {
    ghost use Rattle.std.specs.Prelude.{◌≡◌};
    ghost use Rattle.view_query.specs.declared.fault.ViewFault.TheVariants.{Memory};

    ghost from_gives = { λ _ e. e ≡ Memory };

    fn from(_: AllocFailed<T>) -> ViewFault {
        ViewFault::Memory
    }
}
