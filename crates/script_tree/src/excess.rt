use cube_lex::Position;

/// What a script is refused for besides its grammar, with the place of the token at which it is.
#[derive(Clone, Copy)]
pub enum Excess {
    /// A word that is no function, where an operand may begin and with a `(` behind it.
    UnknownFunction(Position),
    /// Open parentheses and blocks together, or primaries of one whole expression.
    TooDeep(Position),
}
