use crate::fault::FedFault;
use feed_sources::OutOfSteps;
use std::alloc::{AllocError, AllocFailed};

/// Why a change was not followed from the cells that went and came: it needed too many steps, or too much memory, or
/// too many cells are fed. What is fed is then found anew.
#[derive(Debug, Drop)]
pub struct GivenUp;

impl From<OutOfSteps> for GivenUp {
    fn from(_: OutOfSteps) -> GivenUp {
        GivenUp
    }
}

impl From<FedFault> for GivenUp {
    fn from(_: FedFault) -> GivenUp {
        GivenUp
    }
}

impl From<AllocError> for GivenUp {
    fn from(_: AllocError) -> GivenUp {
        GivenUp
    }
}

impl<T: Drop> From<AllocFailed<T>> for GivenUp {
    fn from(_: AllocFailed<T>) -> GivenUp {
        GivenUp
    }
}
