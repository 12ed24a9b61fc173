use std::alloc::{AllocError, AllocFailed};

/// Why an order line means no order of its cube.
#[derive(Clone, Copy, Debug, PartialEq, Eq)]
pub enum BindOrderFault {
    /// The line of this cube has more than 8 positions, it names a dimension that isn't the cube's, it lists an element
    /// that isn't in the dimension, it lists an element twice, or it lists a consolidated element in a list for leaf
    /// cells or, in a text of version 1, in any. Or it writes a constant or a rank above 65,535. Or, in a line without
    /// the word `TOTALS`, a listed rank is smaller than that of a leaf which counts in the element. Or, in a line with
    /// it, a leaf cell has a greater number at a position than a consolidated cell in which it counts, and the same
    /// numbers before. Where a dimension stands alone, a leaf's rank is its index, which counts from 1; an index is
    /// never bad, whatever its size. Of a line for an order that is found: it has positions, or it names a dimension
    /// that isn't the cube's or is its last.
    BadOrder(u32),
    /// Out of memory. It may come in place of any answer.
    Memory,
}

impl From<AllocError> for BindOrderFault {
    ghost use Rattle.std.specs.Prelude.{◌≡◌};
    ghost use Rattle.bind_order.specs.declared.fault.BindOrderFault.TheVariants.{Memory};

    ghost from_gives = { λ _ e. e ≡ Memory };

    fn from(_: AllocError) -> BindOrderFault {
        BindOrderFault::Memory
    }
}

impl<T: Drop> From<AllocFailed<T>> for BindOrderFault {
    ghost use Rattle.std.specs.Prelude.{◌≡◌};
    ghost use Rattle.bind_order.specs.declared.fault.BindOrderFault.TheVariants.{Memory};

    ghost from_gives = { λ _ e. e ≡ Memory };

    fn from(_: AllocFailed<T>) -> BindOrderFault {
        BindOrderFault::Memory
    }
}
