use crate::position::Position;

/// The kind of a token.
#[derive(Clone, Copy, Debug, Eq, PartialEq)]
pub enum Kind {
    /// A letter or `_`, then letters, digits and `_`. The case of letters doesn't count.
    Word,
    /// Digits, optionally a point and digits.
    Number,
    /// Bytes between single quotes, each quote among them doubled.
    Text,
    /// One of the signs, as `=>` or `;`.
    Sign,
}

/// A token of a text, which it borrows.
#[derive(Clone, Copy)]
pub struct Token<'a> {
    pub kind: Kind,
    /// Its bytes as they are written.
    pub piece: &'a [u8],
    /// The offset of its first byte. A byte order mark counts.
    pub start: usize,
    /// The line of its first byte, from 1. Only LF ends a line.
    pub line: u32,
}

impl<'a> Token<'a> {
    ghost use Rattle.std.specs.Prelude.{◌≡◌};
    ghost use Rattle.cube_lex.specs.Lexeme.{lexeme_of};
    ghost use Rattle.cube_lex.specs.Positions.{position_of};

    /// Where it stands: the place of its first byte.
    pub fn position(&self) -> Position
        ensures { result ≡ position_of (lexeme_of self.now) }
    {
        Position {
            offset: self.start,
            line: self.line,
        }
    }
}
