use crate::order::OrderLine;
use cube_lex::Position;
use dim_name::Name;
use lists::ListOf;

/// A cube as it stands in a model text.
#[derive(Drop)]
pub struct CubeText {
    /// The place of its `CUBE`.
    pub at: Position,
    pub name: Name,
    /// The numbers of its dimensions, from 0 in the order of the text, as the cube names them.
    pub dims: ListOf<u32>,
    /// The place of `RULES`, and the file of the cube's rules: UTF-8, and not empty.
    pub rules: Option<(Position, ListOf<u8>)>,
    /// The place of `ORDER`, and the order line.
    pub order: Option<(Position, OrderLine)>,
}

/// A load script as it stands in a model text.
#[derive(Drop)]
pub struct ScriptText {
    /// The place of its `SCRIPT`.
    pub at: Position,
    pub name: Name,
    /// Its file: UTF-8, and not empty.
    pub file: ListOf<u8>,
}
