use std::alloc::{AllocError, AllocFailed};

/// Why a reader stops.
#[derive(Drop)]
pub enum Stop<C> {
    /// Out of memory.
    Memory,
    /// The next token fits nothing that may stand here. So many tokens are left, it among them; at the text's end none.
    Unexpected(usize),
    /// A cause of the watch.
    Refused(C),
}

impl<C> From<AllocError> for Stop<C> {
    ghost use Rattle.std.specs.Prelude.{◌≡◌};
    ghost use Rattle.grammar.specs.declared.stop.Stop.TheVariants.{Memory};

    ghost from_gives = { λ _ e. e ≡ Memory };

    fn from(_: AllocError) -> Stop<C> {
        Stop::Memory
    }
}

impl<C, T: Drop> From<AllocFailed<T>> for Stop<C> {
    ghost use Rattle.std.specs.Prelude.{◌≡◌};
    ghost use Rattle.grammar.specs.declared.stop.Stop.TheVariants.{Memory};

    ghost from_gives = { λ _ e. e ≡ Memory };

    fn from(_: AllocFailed<T>) -> Stop<C> {
        Stop::Memory
    }
}
