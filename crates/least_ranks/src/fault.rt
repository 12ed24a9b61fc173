use crate::Step;
use std::alloc::{AllocError, AllocFailed};

/// Why nodes have no ranks.
#[derive(Debug, Drop)]
pub enum RankFault {
    /// None fit: these steps, of which at least one is along a strict arrow, lead back to where the first begins.
    Cycle(Vec<Step>),
    /// Out of memory.
    Memory,
}

impl From<AllocError> for RankFault {
    ghost use Rattle.std.specs.Prelude.{◌≡◌};
    ghost use Rattle.least_ranks.specs.declared.fault.RankFault.TheVariants.{Memory};

    ghost from_gives = { λ _ e. e ≡ Memory };

    fn from(_: AllocError) -> RankFault {
        RankFault::Memory
    }
}

impl<T: Drop> From<AllocFailed<T>> for RankFault {
    ghost use Rattle.std.specs.Prelude.{◌≡◌};
    ghost use Rattle.least_ranks.specs.declared.fault.RankFault.TheVariants.{Memory};

    ghost from_gives = { λ _ e. e ≡ Memory };

    fn from(_: AllocFailed<T>) -> RankFault {
        RankFault::Memory
    }
}
