use cube_lex::Position;

/// Why a user's text is refused. The first fault in the text is the one given.
#[derive(Debug, Drop)]
pub enum UserFault {
    /// The place of the first token with which the tokens so far begin no user text. A fault of the tokens themselves
    /// counts as such a token. Where the text ends within a command, it is the place of the text's end.
    Syntax(Position),
    /// The place of the first word of the 65,537th command, those of the users before counted.
    TooMany(Position),
    /// Out of memory.
    Memory,
}

/// One command more than there may be, with the place of its first word.
#[derive(Clone, Copy)]
pub struct TooMany {
    pub at: Position,
}
