use std::alloc::{AllocError, AllocFailed};

/// Why dimensions and cubes are no space. Cubes are named by their number, from 0.
#[derive(Debug, Drop)]
pub enum SpaceFault {
    /// The cube has more than 2^62 cells.
    CubeTooLarge(u32),
    /// The cubes up to this one have more than 2^62 cells together.
    ModelTooLarge(u32),
    /// The cube has fewer than 2 or more than 16 dimensions.
    DimensionCount(u32),
    /// Out of memory.
    Memory,
}

impl From<AllocError> for SpaceFault {
    ghost use Rattle.std.specs.Prelude.{◌≡◌};
    ghost use Rattle.cube_space.specs.declared.fault.SpaceFault.TheVariants.{Memory};

    ghost from_gives = { λ _ e. e ≡ Memory };

    fn from(_: AllocError) -> SpaceFault {
        SpaceFault::Memory
    }
}

impl<T: Drop> From<AllocFailed<T>> for SpaceFault {
    ghost use Rattle.std.specs.Prelude.{◌≡◌};
    ghost use Rattle.cube_space.specs.declared.fault.SpaceFault.TheVariants.{Memory};

    ghost from_gives = { λ _ e. e ≡ Memory };

    fn from(_: AllocFailed<T>) -> SpaceFault {
        SpaceFault::Memory
    }
}
