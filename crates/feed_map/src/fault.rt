use std::alloc::{AllocError, AllocFailed};

/// Why the fed cells of a store were not given.
#[derive(Debug, Drop)]
pub enum FedFault {
    /// More than [`crate::MAX_FED`] cells are fed. The number is always one more than that.
    FedLimit(u64),
    /// Out of memory.
    Memory,
}

impl From<AllocError> for FedFault {
    ghost use Rattle.std.specs.Prelude.{◌≡◌};
    ghost use Rattle.feed_map.specs.declared.fault.FedFault.TheVariants.{Memory};

    ghost from_gives = { λ _ e. e ≡ Memory };

    fn from(_: AllocError) -> FedFault {
        FedFault::Memory
    }
}

impl<T: Drop> From<AllocFailed<T>> for FedFault {
    ghost use Rattle.std.specs.Prelude.{◌≡◌};
    ghost use Rattle.feed_map.specs.declared.fault.FedFault.TheVariants.{Memory};

    ghost from_gives = { λ _ e. e ≡ Memory };

    fn from(_: AllocFailed<T>) -> FedFault {
        FedFault::Memory
    }
}
