use crate::link::Link;
use read_sources::ReadFault;
use std::alloc::AllocError;

/// Why no order is found.
#[derive(Drop)]
pub enum FindFault {
    /// What a reference reads may have a greater lag than its cell. This is the first such reference of the model.
    Unlagged {
        /// The cube, counted from 0.
        cube: u32,
        /// The statement of the cube, counted from 1.
        statement: u32,
        /// The reference of the statement, counted from 1 in reading order. A `ConsolidateChildren` counts as one.
        reference: u32,
    },
    /// No ranks fit: a closed walk of arrows, of which at least one is strict. It begins with its reference of least
    /// cube, statement and number; which closed walk it is isn't said.
    Cycle(Vec<Link>),
    /// Out of memory.
    Memory,
}

impl From<AllocError> for FindFault {
    ghost use Rattle.std.specs.Prelude.{◌≡◌};
    ghost use Rattle.order_find.specs.declared.fault.FindFault.TheVariants.{Memory};

    ghost from_gives = { λ _ e. e ≡ Memory };

    fn from(_: AllocError) -> FindFault {
        FindFault::Memory
    }
}

impl From<ReadFault> for FindFault {
    ghost use Rattle.std.specs.Prelude.{◌≡◌};
    ghost use Rattle.order_find.specs.Unlagged.{find_fault};

    ghost from_gives = { λ fault e. e ≡ find_fault fault };

    fn from(fault: ReadFault) -> FindFault {
        match fault {
            ReadFault::Unlagged {
                cube,
                statement,
                reference,
            } => FindFault::Unlagged {
                cube,
                statement,
                reference,
            },
            ReadFault::Memory => FindFault::Memory,
        }
    }
}
