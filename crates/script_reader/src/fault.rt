use cube_lex::Position;

/// Why a load script is refused. The first fault in the text is the one given; of two at one token, the first of these.
#[derive(Debug, Drop)]
pub enum ScriptFault {
    /// The place of the first token with which the tokens so far begin no script. A fault of the tokens themselves
    /// counts as such a token. Where the text ends within a statement or a block, it is the place of the text's end.
    Syntax(Position),
    /// The place of the first word that is no function, stands where an operand may begin, and has a `(` behind it.
    UnknownFunction(Position),
    /// The place of the first `(`, `IF` or `WHILE` that stands within 32 open parentheses and blocks together, or of
    /// the first token of a whole expression's 1,001st primary.
    TooDeep(Position),
    /// Out of memory.
    Memory,
}
