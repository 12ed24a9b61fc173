use crate::refusal::Refusal;
use cube_outside::FileFault;
use std::alloc::{AllocError, AllocFailed};

/// Why a run goes no further.
#[derive(Drop)]
pub enum Halt {
    /// The words aren't in the grammar.
    NotWords,
    /// A file couldn't be read. The files know its name.
    Unread,
    /// A file is refused.
    Refused(Refusal),
    Memory,
}

impl From<AllocError> for Halt {
    ghost use Rattle.std.specs.Prelude.{◌≡◌};
    ghost use Rattle.file_passes.specs.declared.halt.Halt.TheVariants.{Memory};

    ghost from_gives = { λ _ halt. halt ≡ Memory };

    fn from(_error: AllocError) -> Self {
        Halt::Memory
    }
}

impl<T: Drop> From<AllocFailed<T>> for Halt {
    ghost use Rattle.std.specs.Prelude.{◌≡◌};
    ghost use Rattle.file_passes.specs.declared.halt.Halt.TheVariants.{Memory};

    ghost from_gives = { λ _ halt. halt ≡ Memory };

    fn from(_error: AllocFailed<T>) -> Self {
        Halt::Memory
    }
}

impl From<FileFault> for Halt {
    ghost use Rattle.std.specs.Prelude.{◌≡◌};
    ghost use Rattle.file_passes.specs.Halting.{unread};

    ghost from_gives = { λ fault halt. halt ≡ unread fault };

    fn from(fault: FileFault) -> Self {
        match fault {
            FileFault::Failed => Halt::Unread,
            FileFault::Memory => Halt::Memory,
        }
    }
}
