use std::alloc::AllocError;

/// Why a store was not changed.
#[derive(Debug, Drop)]
pub enum StoreFault {
    /// The store would hold this many cells, which is more than [`crate::MAX_CELLS`].
    StoreLimit(u64),
    /// Out of memory.
    Memory,
}

impl From<AllocError> for StoreFault {
    ghost use Rattle.std.specs.Prelude.{◌≡◌};
    ghost use Rattle.cell_store.specs.declared.fault.StoreFault.TheVariants.{Memory};

    ghost from_gives = { λ _ e. e ≡ Memory };

    fn from(_: AllocError) -> StoreFault {
        StoreFault::Memory
    }
}
