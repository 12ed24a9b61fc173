use cube_lex::Position;

/// What there is too much of, with the place of the token at which it becomes so.
#[derive(Clone, Copy)]
pub enum Excess {
    /// Open parentheses, or primaries of one whole formula.
    TooDeep(Position),
    /// Statements or feeders.
    TooMany(Position),
}
