use history::{Effect, World};
use std::alloc::{AllocError, Global};

/// A world of one number, which is set, and where one commit finds no memory.
pub struct Refusing;

/// The number, how many pins were made, and behind which of them the state after a commit finds no memory. Pins count
/// from 1.
#[derive(Clone, Copy)]
pub struct Held {
    pub number: u64,
    pub pins: u64,
    pub refused: u64,
}

impl World for Refusing {
    ghost use Rattle.history.specs.declared.effect.Effect.TheVariants.{Commit};

    type State = Held;

    type Content = u64;

    /// The number to set.
    type Command = u64;

    /// The number before.
    type Reply = u64;

    type Writes = u64;

    type Value = u64;

    ghost content = { λ held. held.number };

    ghost effect = { λ before number. Commit number before };

    ghost after = { λ _ number. number };

    ghost cell_value = { λ number cell. number };

    // A state is shared for each pin, and for nothing else.
    fn share(_alloc: Global, state: &mut Held) -> Result<Held, AllocError> {
        state.pins = state.pins.saturating_add(1);
        Ok(*state)
    }

    fn attempt(
        _alloc: Global,
        state: &mut Held,
        command: &u64,
    ) -> Result<Effect<u64, u64>, AllocError> {
        Ok(Effect::Commit(*command, state.number))
    }

    fn next(_alloc: Global, state: &Held, writes: &u64) -> Result<Held, AllocError> {
        if state.pins == state.refused {
            return Err(AllocError);
        }
        Ok(Held {
            number: *writes,
            pins: state.pins,
            refused: state.refused,
        })
    }
}
