use std::alloc::{AllocError, AllocFailed};

/// Why a definition, or a whole dimension, was refused. Elements are named by their index, attribute calls from 1.
#[derive(Debug, Drop)]
pub enum DimFault {
    /// An element of the name is defined already.
    Duplicate,
    /// The first element by index with a component that isn't defined.
    UnknownComponent(u32),
    /// The element of least index that lies on a loop of components.
    Loop(u32),
    /// A component's weight is above 1,000,000 in size.
    WeightRange,
    /// There would be more than 100,000 elements or more than 1,000,000 components.
    TooMany,
    /// The first attribute call whose element isn't defined, or that repeats an element and attribute.
    BadAttribute(u64),
    /// Out of memory.
    Memory,
}

impl From<AllocError> for DimFault {
    ghost use Rattle.std.specs.Prelude.{◌≡◌};
    ghost use Rattle.dim_core.specs.declared.fault.DimFault.TheVariants.{Memory};

    ghost from_gives = { λ _ e. e ≡ Memory };

    fn from(_: AllocError) -> DimFault {
        DimFault::Memory
    }
}

impl<T: Drop> From<AllocFailed<T>> for DimFault {
    ghost use Rattle.std.specs.Prelude.{◌≡◌};
    ghost use Rattle.dim_core.specs.declared.fault.DimFault.TheVariants.{Memory};

    ghost from_gives = { λ _ e. e ≡ Memory };

    fn from(_: AllocFailed<T>) -> DimFault {
        DimFault::Memory
    }
}
