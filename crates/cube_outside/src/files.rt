ghost use Rattle.std.specs.Prelude.{◌≡◌, ◌⊎◌, ◌∷◌, IfOk, IfSome, IsErrOf, length, option_map};
ghost use Rattle.cube_outside.specs.Counts.{Rose};
ghost use Rattle.cube_outside.specs.Extents.{part_of, IsWithin};
ghost use Rattle.cube_outside.specs.Seen.{Seen};
ghost use Rattle.cube_outside.specs.declared.files.FileFault.TheVariants.{Failed, Memory};

use std::alloc::{AllocError, AllocFailed, Global};

/// How much of a file is read.
#[derive(Clone, Copy, Debug, PartialEq, Eq)]
pub enum Extent {
    /// All its bytes.
    Whole,
    /// So many of its first bytes, or all where it has fewer.
    Front(usize),
}

/// Why a read gave no bytes.
#[derive(Clone, Copy, Debug, PartialEq, Eq)]
pub enum FileFault {
    /// The file isn't there or can't be read.
    Failed,
    /// No memory for the bytes or the name.
    Memory,
}

impl From<AllocError> for FileFault {
    ghost from_gives = { λ _ fault. fault ≡ Memory };

    fn from(_error: AllocError) -> FileFault {
        FileFault::Memory
    }
}

impl<T: Drop> From<AllocFailed<T>> for FileFault {
    ghost from_gives = { λ _ fault. fault ≡ Memory };

    fn from(_error: AllocFailed<T>) -> FileFault {
        FileFault::Memory
    }
}

/// Files that can be read by name, whole or their front. Nothing that is called here changes what a file holds.
pub trait Files {
    /// What the files hold, where it is known; how many reads have failed, and the name of the last; and each name
    /// that was asked for.
    ghost seen: { Self → Seen };

    /// The bytes of the file with this name: all of them, or its front. Whatever it has behind its front isn't read. A
    /// missing file is `Failed`. Where memory runs out before the file is looked for, the name isn't asked for.
    fn read(&mut self, alloc: Global, name: &str, extent: Extent) -> Result<Vec<u8>, FileFault>
        ensures known { (seen self.new).known ≡ (seen self.old).known }
        ensures bytes { IfOk result (λ bytes. IfSome (seen self.old).known
            (λ map. option_map (part_of extent) (map name.now) ≡ Some bytes.items)) }
        ensures within { IfOk result (λ bytes. IsWithin extent (length bytes.items)) }
        ensures failed { IsErrOf result Failed → Rose (seen self.old).faults (seen self.new).faults }
        ensures name { IsErrOf result Failed → (seen self.new).missed ≡ name.now }
        ensures no_read_failed { IsErrOf result Failed
            ⊎ ((seen self.new).faults ≡ (seen self.old).faults) × ((seen self.new).missed ≡ (seen self.old).missed) }
        ensures asked { ((seen self.new).asked ≡ name.now ∷ (seen self.old).asked)
            ⊎ IsErrOf result Memory × ((seen self.new).asked ≡ (seen self.old).asked) };

    /// How many reads have failed. The count stands still at its last value.
    fn faults(&self) -> u64
        ensures { result ≡ (seen self.now).faults };

    /// The name of the last read that failed, and empty before the first.
    fn missed(&self) -> &[u8]
        ensures { result.now ≡ (seen self.now).missed };
}
