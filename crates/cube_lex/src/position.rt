ghost use Rattle.std.specs.Prelude.{◌≡◌};

/// A place in a text.
#[derive(Clone, Copy, Debug, PartialEq, Eq)]
pub struct Position {
    /// The offset of a byte, from 0. A byte order mark counts.
    pub offset: usize,
    /// The line of that byte, from 1. Only LF ends a line.
    pub line: u32,
}

impl Position {
    ghost use Rattle.cube_lex.specs.Positions.{text_begin, nowhere};

    /// The beginning of a text, where what is wrong with it as a whole stands.
    pub fn text_begin() -> Position
        ensures { result ≡ text_begin }
    {
        Position { offset: 0, line: 1 }
    }

    /// No place of any text: line 0.
    pub fn nowhere() -> Position
        ensures { result ≡ nowhere }
    {
        Position { offset: 0, line: 0 }
    }
}
