use cell_store::StoreFault;
use feed_map::FedFault;
use std::alloc::AllocError;

/// Why there is no next version.
#[derive(Debug, Drop)]
pub enum NextFault {
    /// It would store this many cells, more than 1,000,000.
    StoreLimit(u64),
    /// More than 4,000,000 cells would be fed. The number is always one more than that.
    FedLimit(u64),
    /// Out of memory.
    Memory,
}

impl From<AllocError> for NextFault {
    ghost use Rattle.std.specs.Prelude.{◌≡◌};
    ghost use Rattle.cell_versions.specs.declared.fault.NextFault.TheVariants.{Memory};

    ghost from_gives = { λ _ e. e ≡ Memory };

    fn from(_: AllocError) -> NextFault {
        NextFault::Memory
    }
}

impl From<StoreFault> for NextFault {
    ghost use Rattle.std.specs.Prelude.{◌≡◌};
    ghost use Rattle.cell_versions.specs.Inside.Faults.{of_store};

    ghost from_gives = { λ fault e. e ≡ of_store fault };

    fn from(fault: StoreFault) -> NextFault {
        match fault {
            StoreFault::StoreLimit(count) => NextFault::StoreLimit(count),
            StoreFault::Memory => NextFault::Memory,
        }
    }
}

impl From<FedFault> for NextFault {
    ghost use Rattle.std.specs.Prelude.{◌≡◌};
    ghost use Rattle.cell_versions.specs.Inside.Faults.{of_fed};

    ghost from_gives = { λ fault e. e ≡ of_fed fault };

    fn from(fault: FedFault) -> NextFault {
        match fault {
            FedFault::FedLimit(count) => NextFault::FedLimit(count),
            FedFault::Memory => NextFault::Memory,
        }
    }
}
