ghost use Rattle.std.specs.Prelude.{◌≡◌, ℕ, Ok, Err, IfOk};
ghost use Rattle.history.specs.declared.effect.Effect.{Effect};

use crate::effect::Effect;
use std::alloc::{AllocError, Global};

/// A world in which commands act: what a state means, and what each command does on it.
///
/// A `State` is what the program holds, and its content is plain data. Two states of one content can't be distinguished
/// by any call of this trait.
pub trait World {
    type State: Drop;
    /// What a state means. No value of it need ever be made.
    type Content;

    type Command: Drop;

    type Reply: Drop;
    /// What an accepted command changes.
    type Writes: Drop;
    /// What a single cell holds. No value of it need ever be made.
    type Value;

    ghost content: { Self.State → Self.Content };

    ghost effect: { Self.Content → Self.Command → Effect Self.Writes Self.Reply };
    /// The content after these writes.
    ghost after: { Self.Content → Self.Writes → Self.Content };
    /// The value of the cell of this number, for every number.
    ghost cell_value: { Self.Content → ℕ → Self.Value };

    /// A second state of the same content.
    fn share(alloc: Global, state: &mut Self::State) -> Result<Self::State, AllocError>
        ensures shared { IfOk result (λ copy. content copy ≡ content state.old) }
        ensures kept { content state.new ≡ content state.old };

    /// The command's effect on the state.
    fn attempt(
        alloc: Global,
        state: &mut Self::State,
        command: &Self::Command,
    ) -> Result<Effect<Self::Writes, Self::Reply>, AllocError>
        ensures attempted { IfOk result (λ found. found ≡ effect (content state.old) command.now) }
        ensures kept { content state.new ≡ content state.old };

    /// The state after the writes of a command that is accepted on this state.
    fn next(
        alloc: Global,
        state: &Self::State,
        writes: &Self::Writes,
    ) -> Result<Self::State, AllocError>
        requires accepted { (command : Self.Command) × (reply : Self.Reply)
            × (effect (content state.now) command ≡ Effect.Commit writes.now reply) }
        ensures next { IfOk result (λ next. content next ≡ after (content state.now) writes.now) };
}
