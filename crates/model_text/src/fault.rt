ghost use Rattle.std.specs.Prelude.{◌≡◌};
ghost use Rattle.model_text.specs.Readers.Views.{refused_at};

use cube_lex::Position;
use dim_core::DimFault;
use grammar::Stop;

/// Why a model text is refused, and at which place: the first fault in the text. Out of memory, the line is 0.
#[derive(Debug, Drop)]
pub struct ModelTextFault {
    pub at: Position,
    pub cause: ModelTextCause,
}

/// The cause of a refusal. At one token the answer is the first in this order.
#[derive(Debug, Drop)]
pub enum ModelTextCause {
    /// The place is that of the first token with which the tokens so far begin no model text; a lexical fault counts as
    /// such a token. Where all tokens begin one but are none, it is the place of the text's end.
    Syntax,
    /// The version is neither 1 nor 2. The place is the number's.
    WrongVersion,
    /// A second dimension, cube or script of a name, or a dimension twice in one cube, at the second naming.
    Duplicate,
    /// A cube names a dimension that isn't there, at the place of the name.
    UnknownName,
    /// The 257th dimension, the 65th cube or the 257th script, at the place of its word.
    TooMany,
    /// What a dimension's block is refused for, at the place of the statement that is named. It is never out of memory.
    Dim(DimFault),
    /// Out of memory.
    Memory,
}

/// Why reading stops at what is refused at this place.
pub(crate) fn refused(position: Position, cause: ModelTextCause) -> Stop<ModelTextFault>
    ensures { result ≡ refused_at position cause }
{
    Stop::Refused(ModelTextFault {
        at: position,
        cause,
    })
}
