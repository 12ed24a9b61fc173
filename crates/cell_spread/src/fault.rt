use std::alloc::{AllocError, AllocFailed};

/// Why an amount isn't spread, in this order.
#[derive(Debug, Drop)]
pub enum SpreadFault {
    /// The cell is a leaf cell.
    IsALeaf,
    /// So many leaf cells are below the cell, which is more than [`crate::MAX_SPREAD`].
    SpreadLimit(u64),
    /// A leaf cell below doesn't count just once.
    Weighted,
    /// A statement governs the cell, or a leaf cell below it.
    RuleDerived,
    /// No leaf cell is below the cell, or the numbers to be in proportion to are 0 together.
    NothingThere,
    /// A number to be written is out of range.
    OverWrite,
    /// Out of memory.
    Memory,
}

impl From<AllocError> for SpreadFault {
    ghost use Rattle.std.specs.Prelude.{◌≡◌};
    ghost use Rattle.cell_spread.specs.declared.fault.SpreadFault.TheVariants.{Memory};

    ghost from_gives = { λ _ e. e ≡ Memory };

    fn from(_: AllocError) -> SpreadFault {
        SpreadFault::Memory
    }
}

impl<T: Drop> From<AllocFailed<T>> for SpreadFault {
    ghost use Rattle.std.specs.Prelude.{◌≡◌};
    ghost use Rattle.cell_spread.specs.declared.fault.SpreadFault.TheVariants.{Memory};

    ghost from_gives = { λ _ e. e ≡ Memory };

    fn from(_: AllocFailed<T>) -> SpreadFault {
        SpreadFault::Memory
    }
}
