ghost use Rattle.std.specs.Prelude.{◌≡◌, ℕ, ◌⊎◌, List, [], Option, OnOk, IsErrOf};
ghost use Rattle.std.specs.Io.KnownBytes.{Appends};
ghost use Rattle.cube_outside.specs.Bytes.{AppendsPart};
ghost use Rattle.cube_outside.specs.Counts.{Rose};
ghost use Rattle.cube_outside.specs.declared.sink.SinkFault.TheVariants.{Failed, Memory};

use std::alloc::{AllocError, AllocFailed};

/// Why a piece wasn't written whole.
#[derive(Clone, Copy, Debug, PartialEq, Eq)]
pub enum SinkFault {
    /// The stream took a front part of the piece at most.
    Failed,
    /// No memory for the piece, of which nothing was taken.
    Memory,
}

impl From<AllocError> for SinkFault {
    ghost from_gives = { λ _ fault. fault ≡ Memory };

    fn from(_error: AllocError) -> SinkFault {
        SinkFault::Memory
    }
}

impl<T: Drop> From<AllocFailed<T>> for SinkFault {
    ghost from_gives = { λ _ fault. fault ≡ Memory };

    fn from(_error: AllocFailed<T>) -> SinkFault {
        SinkFault::Memory
    }
}

/// A stream of bytes that is written piece by piece.
pub trait Sink {
    /// The bytes written so far, where they are known.
    ghost written: { Self → Option (List ℕ) };

    /// How many writes have failed. The count stands still at its last value.
    ghost faults: { Self → ℕ };

    /// Writes the whole piece. A stream that takes nothing of a piece that isn't empty has failed.
    fn write(&mut self, piece: &[u8]) -> Result<(), SinkFault>
        ensures all { OnOk result (Appends (written self.old) (written self.new) piece.now) }
        ensures part { IsErrOf result Failed → AppendsPart (written self.old) (written self.new) piece.now }
        ensures nothing { IsErrOf result Memory → Appends (written self.old) (written self.new) [] }
        ensures failed { IsErrOf result Failed → Rose (faults self.old) (faults self.new) }
        ensures no_write_failed { IsErrOf result Failed ⊎ (faults self.new ≡ faults self.old) };

    fn faults(&self) -> u64
        ensures { result ≡ faults self.now };
}
