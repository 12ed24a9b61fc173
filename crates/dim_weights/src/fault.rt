use std::alloc::{AllocError, AllocFailed};

/// Why a dimension has no table of coefficients. It is the fault of the first element that has one, where the elements
/// are taken by level and then by index. A leaf has level 0, another element one more than the greatest level of a
/// component.
#[derive(Debug, Drop)]
pub enum WeightFault {
    /// This element has a coefficient above [`crate::MAX_COEFFICIENT`] in size.
    CoefficientTooLarge(u32),
    /// So many pairs of an element and a leaf that counts in it there are up to and including the element, which is
    /// more than [`crate::MAX_PAIRS`].
    TooManyPairs(u64),
    /// Out of memory.
    Memory,
}

impl From<AllocError> for WeightFault {
    ghost use Rattle.std.specs.Prelude.{◌≡◌};
    ghost use Rattle.dim_weights.specs.declared.fault.WeightFault.TheVariants.{Memory};

    ghost from_gives = { λ _ e. e ≡ Memory };

    fn from(_: AllocError) -> WeightFault {
        WeightFault::Memory
    }
}

impl<T: Drop> From<AllocFailed<T>> for WeightFault {
    ghost use Rattle.std.specs.Prelude.{◌≡◌};
    ghost use Rattle.dim_weights.specs.declared.fault.WeightFault.TheVariants.{Memory};

    ghost from_gives = { λ _ e. e ≡ Memory };

    fn from(_: AllocFailed<T>) -> WeightFault {
        WeightFault::Memory
    }
}
