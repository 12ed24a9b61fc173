use std::alloc::AllocError;

/// Why an element argument of a `DB` can't be bound. Where its form is wrong, its names don't matter.
#[derive(Debug, Drop)]
pub enum ArgumentFault {
    /// A text that is itself the argument and no element of the target's dimension, a dimension that isn't there, a
    /// dimension behind `!` that isn't the cube's, or an attribute that no element of its dimension has.
    UnknownName,
    /// The formula is no element argument.
    DynamicReference,
    /// Out of memory.
    Memory,
}

impl From<AllocError> for ArgumentFault {
    ghost use Rattle.std.specs.Prelude.{◌≡◌};
    ghost use Rattle.bind_arguments.specs.declared.fault.ArgumentFault.TheVariants.{Memory};

    ghost from_gives = { λ _ e. e ≡ Memory };

    fn from(_: AllocError) -> ArgumentFault {
        ArgumentFault::Memory
    }
}
