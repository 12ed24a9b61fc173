ghost use Rattle.std.specs.Prelude.{◌≡◌};
ghost use Rattle.grammar.specs.Whole as whole;

use crate::cursor::{Cursor, position_left};
use crate::stop::Stop;
use cube_lex::{Position, TextTokens};

/// Why a whole text is refused.
#[derive(Debug, Drop)]
pub enum TextFault<C> {
    /// Out of memory.
    Memory,
    /// The place of the first token with which the tokens so far begin no text. A lexical fault counts as such a token.
    /// Where all tokens begin a text but are none, it is the place of the text's end.
    Syntax(Position),
    /// A cause of the watch.
    Refused(C),
}

/// What comes of a whole text, from what it is read as, what a reader of all the tokens returned, and the place where
/// that reader left the cursor.
pub fn answer_of_text<X: Drop, C, S>(
    tokens: &TextTokens<'_>,
    read: Result<X, Stop<C>>,
    cursor: &Cursor<'_, S>,
) -> Result<X, TextFault<C>>
    ensures { result ≡ whole.answer_of_text (record { lexemes = tokens.now.left; end = tokens.now.end })
        tokens.now.fault read cursor.now.tokens }
{
    match read {
        Ok(value) => match (tokens.fault, cursor.tokens.first()) {
            (None, None) => Ok(value),
            (_, Some(token)) => Err(TextFault::Syntax(token.position())),
            (_, None) => Err(TextFault::Syntax(tokens.end)),
        },
        Err(Stop::Memory) => Err(TextFault::Memory),
        Err(Stop::Unexpected(left)) => {
            let position = position_left(tokens.left.again(), tokens.end, left);
            Err(TextFault::Syntax(position))
        }
        Err(Stop::Refused(cause)) => Err(TextFault::Refused(cause)),
    }
}
