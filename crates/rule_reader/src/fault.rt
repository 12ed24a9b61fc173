use cube_lex::Position;
use std::alloc::AllocError;

/// Why a rule text is refused. The first fault in the text is the one given.
#[derive(Debug, Drop)]
pub enum RuleFault {
    /// The place of the first token with which the tokens so far begin no rule text. A fault of the tokens themselves
    /// counts as such a token. Where the text ends within a statement or a feeder, it is the place of the text's end.
    Syntax(Position),
    /// The place of the first `(` with 32 others open, or of the first token of a whole formula's 1,001st primary.
    TooDeep(Position),
    /// The place of the `[` that begins the 1,001st statement, or the 1,001st feeder.
    TooMany(Position),
    /// Out of memory.
    Memory,
}

impl From<AllocError> for RuleFault {
    ghost use Rattle.std.specs.Prelude.{◌≡◌};
    ghost use Rattle.rule_reader.specs.declared.fault.RuleFault.TheVariants.{Memory};

    ghost from_gives = { λ _ e. e ≡ Memory };

    fn from(_: AllocError) -> RuleFault {
        RuleFault::Memory
    }
}
