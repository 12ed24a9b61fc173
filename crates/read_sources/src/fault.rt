use std::alloc::AllocError;

/// Why what is read at the same lag isn't found.
#[derive(Drop)]
pub enum ReadFault {
    /// What a reference reads may have a greater lag than its cell. This is the first such reference of the model.
    Unlagged {
        /// The cube, counted from 0.
        cube: u32,
        /// The statement of the cube, counted from 1.
        statement: u32,
        /// The reference of the statement, counted from 1 in reading order. A `ConsolidateChildren` counts as one.
        reference: u32,
    },
    /// Out of memory.
    Memory,
}

impl From<AllocError> for ReadFault {
    ghost use Rattle.std.specs.Prelude.{◌≡◌};
    ghost use Rattle.read_sources.specs.declared.fault.ReadFault.TheVariants.{Memory};

    ghost from_gives = { λ _ e. e ≡ Memory };

    fn from(_: AllocError) -> ReadFault {
        ReadFault::Memory
    }
}
