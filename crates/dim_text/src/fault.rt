use cube_lex::Position;
use dim_core::DimFault;

/// Why a block is refused, and at which place. Out of memory, the line is 0.
#[derive(Debug, Drop)]
pub struct DimTextFault {
    pub at: Position,
    pub cause: DimTextCause,
}

/// The cause of a refusal.
#[derive(Debug, Drop)]
pub enum DimTextCause {
    /// No front part of the tokens is a block. The place is that of the first token with which the tokens so far begin
    /// no block; where all tokens begin one but are none, it is the place of the text's end.
    Syntax,
    /// A statement that the dimension doesn't take, at the place of its first word. Where the whole dimension is
    /// refused, it is the place of the element that is named. It is never out of memory.
    Dim(DimFault),
    /// Out of memory.
    Memory,
}

/// A statement, or the whole, that the builder refuses, with the place of the statement that it names.
#[derive(Debug, Drop)]
pub struct Refusal {
    pub at: Position,
    pub fault: DimFault,
}
